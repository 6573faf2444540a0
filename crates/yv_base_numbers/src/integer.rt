//! Whole numbers.
ghost use Rattle.std.specs.Prelude.{◌≡◌, int_le};
ghost use Rattle.yv_base_numbers.specs.Numbers.{integer};

/// An integer of at most 64 bits besides its sign: `Natural(n)` is n, and `Below(n)` is -1 - n.
#[derive(Clone, Copy, PartialEq, Eq, PartialOrd, Ord, Drop)]
pub enum Integer {
    Natural(u64),
    Below(u64),
}

/// Whether the one number is at most the other. It takes constant time.
pub fn is_at_most(low: Integer, high: Integer) -> bool
    ensures { result ≡ int_le (integer low) (integer high) }
{
    match (low, high) {
        (Integer::Natural(low), Integer::Natural(high)) => low <= high,
        (Integer::Natural(_), Integer::Below(_)) => false,
        (Integer::Below(_), Integer::Natural(_)) => true,
        (Integer::Below(low), Integer::Below(high)) => high <= low,
    }
}
