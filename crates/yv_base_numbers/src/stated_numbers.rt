//! The numbers that entries state.
ghost use Rattle.std.specs.{Prelude.{◌≡◌, ℤ, Some, false, IfNone, IfSome}, Option.{option_map}};
ghost use Rattle.yv_base_numbers.specs.{Numbers.{integer}, Entries.{stated_number, whole_number}, InnerStatedNumbers.{fits, number_in_range}, Numberings.{agrees}};

use crate::integer::Integer;
use crate::number::integer_of;

/// The whole number of a text, where it has at most 64 bits with its sign. Neither kind has another
/// number.
pub(crate) fn whole_number(text: &str) -> Option<i64>
    ensures some { IfSome result (λ n. whole_number text.now ≡ Some n) }
    ensures none { IfNone result ((n : ℤ) → whole_number text.now ≡ Some n → fits n ≡ false) }
{
    number_in_range(integer_of(text.as_bytes())?)
}

fn number_in_range(number: Integer) -> Option<i64>
    ensures { result ≡ number_in_range (integer number) }
{
    match number {
        Integer::Natural(natural) => {
            if natural <= 9_223_372_036_854_775_807 {
                Some(natural as i64)
            } else {
                None
            }
        }
        Integer::Below(below) => {
            if below <= 9_223_372_036_854_775_807 {
                Some(-1 - (below as i64))
            } else {
                None
            }
        }
    }
}

/// Whether a text that states a number, where there is one, states this number.
pub(crate) fn agrees(stated: Option<&str>, number: i64) -> bool
    ensures { result ≡ agrees (stated_number (option_map (λ t. t.now) stated.entry)) (Some number) }
{
    match stated {
        Some(text) => is_number(text, number),
        None => true,
    }
}

// Whether the whole number of a text is this one.
fn is_number(text: &str, number: i64) -> bool
    ensures { result ≡ agrees (stated_number (Some text.now)) (Some number) }
{
    match whole_number(text) {
        Some(stated) => stated == number,
        None => false,
    }
}
