//! Arguments that say something else than they seem to.
ghost use Rattle.std.specs.{Prelude.{◌≡◌, reverse}, Option.{option_map}};
ghost use Rattle.yv_text_if_feature.specs.Bytes.{is_digit};
ghost use Rattle.yv_lint.specs.Arguments.{asks_too_many, begins_evenly, begins_with_caret, begins_with_dollar, has_anchor, has_entries, is_above, is_anchored, number_at, number_of};

use crate::statements::child;
use yv_link_scopes::name_of;
use yv_text_statement::{Keyword, Statement};

// The greatest number of 32 bits.
const MOST: u64 = 4_294_967_295;

// Whether a text ends with an even number of backslashes.
fn ends_evenly(text: &[u8]) -> bool
    ensures { result ≡ begins_evenly (reverse text.now) }
{
    let mut is_even = true;
    let mut rest = text;
    while let Some((b'\\', front)) = rest.split_last() {
        is_even = !is_even;
        rest = front;
    }
    is_even
}

// Whether a text ends with a `$` that no backslash escapes.
fn ends_with_dollar(text: &[u8]) -> bool
    ensures { result ≡ begins_with_dollar (reverse text.now) }
{
    match text.split_last() {
        None => false,
        Some((last, front)) => *last == b'$' && ends_evenly(front),
    }
}

// Whether a text begins with `^`.
fn begins_with_caret(text: &[u8]) -> bool
    ensures { result ≡ begins_with_caret text.now }
{
    match text.split_first() {
        None => false,
        Some((first, _)) => *first == b'^',
    }
}

// Whether a pattern begins with `^`, or ends with `$`.
fn is_anchored(pattern: &str) -> bool
    ensures { result ≡ is_anchored pattern.now }
{
    let text = pattern.as_bytes();
    begins_with_caret(text) || ends_with_dollar(text)
}

/// Whether a statement is a pattern that seems to be anchored.
pub fn has_anchor(statement: &Statement<'_>) -> bool
    ensures { result ≡ has_anchor statement.now }
{
    statement.is(Keyword::Pattern) && is_anchored(name_of(statement))
}

// Whether a byte is a digit.
fn is_digit(byte: u8) -> bool
    ensures { result ≡ is_digit byte }
{
    byte >= b'0' && byte <= b'9'
}

// The number of 32 bits that a text writes, if it writes one.
fn number_of(text: &[u8]) -> Option<u64>
    ensures { result ≡ number_of text.now }
{
    if text.is_empty() {
        return None;
    }
    let mut value = 0;
    for byte in text {
        if !is_digit(*byte) {
            return None;
        }
        value = 10 * value + u64::from(*byte - b'0');
        if value > MOST {
            return None;
        }
    }
    Some(value)
}

// A statement's number, if it is there and has one.
fn number_at(statement: Option<&Statement<'_>>) -> Option<u64>
    ensures { result ≡ number_at (option_map (λ s. s.now) statement.entry) }
{
    number_of(name_of(statement?).as_bytes())
}

// Whether one number is above another, where both are there.
fn is_above(low: Option<u64>, high: Option<u64>) -> bool
    ensures { result ≡ is_above low high }
{
    match (low, high) {
        (Some(low), Some(high)) => low > high,
        _ => false,
    }
}

// Whether its statements say how many entries there may be.
fn has_entries(keyword: Keyword) -> bool
    ensures { result ≡ has_entries keyword }
{
    matches!(keyword, Keyword::List | Keyword::LeafList | Keyword::Refine)
}

/// Whether a statement asks for more entries than it allows.
pub fn asks_too_many(statement: &Statement<'_>) -> bool
    ensures { result ≡ asks_too_many statement.now }
{
    has_entries(statement.kind())
        && is_above(
            number_at(child(statement, Keyword::MinElements)),
            number_at(child(statement, Keyword::MaxElements)),
        )
}
