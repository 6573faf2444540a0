//! Numbers of what is not evaluated, by kind.
ghost use Rattle.std.specs.Prelude.{◌≡◌};
ghost use Rattle.yv_text_conditions.specs.Sums.{nothing, sum_of};

/// Unevaluated statements, or what they stand for in a document: of each kind the number, up to
/// 2^64 - 1.
#[derive(Clone, Copy, PartialEq, Eq, Debug)]
pub struct Unevaluated {
    /// `must` statements (RFC 7950, section 7.5.3).
    pub must: u64,
    /// `when` statements (section 7.21.5).
    pub when: u64,
    /// Paths of leafrefs with predicates (section 9.9.2).
    pub path: u64,
    /// Types that are `instance-identifier` (section 9.13).
    pub instance: u64,
}

impl Unevaluated {
    /// Nothing.
    pub const NOTHING: Unevaluated = Unevaluated {
        must: 0,
        when: 0,
        path: 0,
        instance: 0,
    };

    /// The sums with these numbers.
    pub fn plus(self, other: Unevaluated) -> Unevaluated
        // Each is the sum of two, up to 2^64 - 1.
        ensures { result ≡ sum_of self other }
    {
        Unevaluated {
            must: self.must.saturating_add(other.must),
            when: self.when.saturating_add(other.when),
            path: self.path.saturating_add(other.path),
            instance: self.instance.saturating_add(other.instance),
        }
    }
}
