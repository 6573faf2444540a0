//! Decimals that texts write (RFC 7950, section 9.3.1).
ghost use Rattle.std.specs.{Prelude.{◌≡◌, ◌*◌, ◌^◌, ◌==◌, ◌++◌, option_map, position}, List.{list_all}};
ghost use Rattle.yv_base_numbers.specs.Numbers.{integer, value_after, within_64_bits, scaled_value, around_point, magnitude_of, scaled_of};

use crate::integer::Integer;
use crate::number::{are_digits, digits, is_negative, is_numeral, with_sign, without_sign};

/// The number of a decimal text, scaled by so many fraction digits: `3.14` is 314 by two. `None`
/// where the text is not a decimal, has another digit than zero after those places, or the scaled
/// number has more than 64 bits. It takes time linear in the text and the places.
#[tactic(auto, unfolding(crate::specs::Numbers::scaled_of))]
pub fn scaled_of(places: u32, text: &[u8]) -> Option<Integer>
    ensures { option_map integer result ≡ scaled_of places text.now }
{
    match magnitude(places, without_sign(text)) {
        Some(number) => Some(with_sign(is_negative(text), number)),
        None => None,
    }
}

#[tactic(auto, unfolding(crate::specs::Numbers::magnitude_of))]
fn magnitude(places: u32, text: &[u8]) -> Option<u64>
    ensures { result ≡ magnitude_of places text.now }
{
    around_point(places, text, point(text))
}

fn point(text: &[u8]) -> Option<usize>
    ensures { result ≡ position (λ b. b == 46) text.now }
{
    text.iter().position(|byte| *byte == b'.')
}

fn around_point(places: u32, text: &[u8], point: Option<usize>) -> Option<u64>
    requires { point ≡ position (λ b. b == 46) text.now }
    ensures { result ≡ around_point places text.now point }
{
    match point {
        None => scaled_value(places, text, &[]),
        Some(at) => {
            let fraction = &text[at + 1..];
            if fraction.is_empty() {
                None
            } else {
                scaled_value(places, &text[..at], fraction)
            }
        }
    }
}

#[tactic(auto, unfolding(crate::specs::Numbers::scaled_value))]
fn scaled_value(places: u32, whole: &[u8], fraction: &[u8]) -> Option<u64>
    ensures { result ≡ scaled_value places whole.now fraction.now }
{
    let shown = fraction.len().min(places as usize);
    let digits = &fraction[..shown];
    if is_numeral(10, whole) && are_digits(10, digits) && are_zeros(&fraction[shown..]) {
        value_with_zeros(whole, digits, places as usize - shown)
    } else {
        None
    }
}

fn are_zeros(text: &[u8]) -> bool
    ensures { result ≡ list_all (λ b. b == 48) text.now }
{
    text.iter().all(|byte| *byte == b'0')
}

// The digits of both, and so many zeros.
fn value_with_zeros(whole: &[u8], fraction: &[u8], zeros: usize) -> Option<u64>
    ensures { result ≡ within_64_bits (value_after 10 0 (whole.now ++ fraction.now) * 10 ^ zeros) }
{
    let number = digits(10, 0, whole)?;
    let longer = digits(10, number, fraction)?;
    with_zeros(longer, zeros)
}

// The number with so many zeros after.
fn with_zeros(from: u64, count: usize) -> Option<u64>
    ensures { result ≡ within_64_bits (from * 10 ^ count) }
{
    let mut number = from;
    for _place in 0..count {
        number = number.checked_mul(10)?;
    }
    Some(number)
}
