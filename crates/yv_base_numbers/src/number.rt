//! Whole numbers that texts write (RFC 7950, section 9.2.1).
ghost use Rattle.std.specs.{Prelude.{◌≡◌, ◌≤◌, ◌+◌, ◌*◌, option_map}, List.{list_all}, Str.Parse.{without_leading_sign, starts_with_minus}};
ghost use Rattle.yv_base_numbers.specs.Numbers.{integer, digit_of, is_digit, is_numeral, value_after, within_64_bits, natural_of, integer_of, zero_led, based_of, based_integer_of, with_sign};

use crate::integer::Integer;

/// The whole number that a sign, or none, and decimal digits write, or `None` where the text is
/// another or the number has more than 64 bits. It takes linear time.
#[tactic(auto, unfolding(crate::specs::Numbers::integer_of))]
pub fn integer_of(text: &[u8]) -> Option<Integer>
    ensures { option_map integer result ≡ integer_of text.now }
{
    match natural(10, without_sign(text)) {
        Some(number) => Some(with_sign(is_negative(text), number)),
        None => None,
    }
}

/// The whole number of a default's text: hexadecimal after `0x`, octal after another leading zero.
/// `None` is as for
/// `integer_of`.
#[tactic(auto, unfolding(crate::specs::Numbers::based_integer_of))]
pub fn based_integer_of(text: &[u8]) -> Option<Integer>
    ensures { option_map integer result ≡ based_integer_of text.now }
{
    match based_value(without_sign(text)) {
        Some(number) => Some(with_sign(is_negative(text), number)),
        None => None,
    }
}

fn based_value(text: &[u8]) -> Option<u64>
    ensures { result ≡ based_of text.now }
{
    match text.split_first() {
        Some((b'0', rest)) => zero_led(rest),
        Some((_, _)) => natural(10, text),
        None => None,
    }
}

// Behind a leading zero.
fn zero_led(text: &[u8]) -> Option<u64>
    ensures { result ≡ zero_led text.now }
{
    match text.split_first() {
        Some((b'x', rest)) => natural(16, rest),
        Some((_, _)) => natural(8, text),
        None => Some(0),
    }
}

#[tactic(auto, unfolding(crate::specs::Numbers::natural_of))]
fn natural(radix: u64, text: &[u8]) -> Option<u64>
    requires { 1 ≤ radix }
    ensures { result ≡ natural_of radix text.now }
{
    if is_numeral(radix, text) {
        digits(radix, 0, text)
    } else {
        None
    }
}

/// Whether the text is one digit of the radix or more.
pub fn is_numeral(radix: u64, text: &[u8]) -> bool
    ensures { result ≡ is_numeral radix text.now }
{
    !text.is_empty() && are_digits(radix, text)
}

/// Whether each byte is a digit of the radix.
pub fn are_digits(radix: u64, text: &[u8]) -> bool
    ensures { result ≡ list_all (is_digit radix) text.now }
{
    text.iter().all(|byte| digit_of(*byte) < radix)
}

fn digit_of(byte: u8) -> u64
    ensures { result ≡ digit_of byte }
{
    if byte >= b'0' && byte <= b'9' {
        u64::from(byte - b'0')
    } else if byte >= b'a' && byte <= b'f' {
        u64::from(byte - b'a') + 10
    } else if byte >= b'A' && byte <= b'F' {
        u64::from(byte - b'A') + 10
    } else {
        16
    }
}

/// The number that digits write after another, where it has at most 64 bits.
pub fn digits(radix: u64, from: u64, text: &[u8]) -> Option<u64>
    requires { 1 ≤ radix }
    ensures { result ≡ within_64_bits (value_after radix from text.now) }
{
    let mut number = from;
    for byte in text {
        number = append_digit(radix, number, *byte)?;
    }
    Some(number)
}

// A digit after a number.
fn append_digit(radix: u64, number: u64, digit: u8) -> Option<u64>
    ensures { result ≡ within_64_bits (number * radix + digit_of digit) }
{
    number.checked_mul(radix)?.checked_add(digit_of(digit))
}

/// Whether the text begins with a minus.
pub fn is_negative(text: &[u8]) -> bool
    ensures { result ≡ starts_with_minus text.now }
{
    match text.first() {
        Some(byte) => *byte == b'-',
        None => false,
    }
}

/// The text without its sign.
pub fn without_sign(text: &[u8]) -> &[u8]
    ensures { result.now ≡ without_leading_sign text.now }
{
    match text.first() {
        Some(byte) if *byte == b'-' || *byte == b'+' => &text[1..],
        _ => text,
    }
}

/// The number, or what is as far below zero.
pub fn with_sign(is_negative: bool, number: u64) -> Integer
    ensures { integer result ≡ with_sign is_negative number }
{
    if is_negative && number > 0 {
        Integer::Below(number - 1)
    } else {
        Integer::Natural(number)
    }
}
