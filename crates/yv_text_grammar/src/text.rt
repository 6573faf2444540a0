//! The forms of arguments that can be checked from the text only.
ghost use Rattle.std.specs.{Prelude.{◌≡◌, ◌<◌, ◌==◌, ◌^◌}, List.{list_all}};
ghost use Rattle.yv_text_grammar.specs.Texts.{is_absolute_path, is_date, is_descendant_path, is_enum_name, is_enum_value, is_fraction_digits, is_max_elements, is_number, is_trimmed};
ghost use Rattle.yv_text_if_feature.specs.Bytes.{is_digit};

use crate::words::is_blank;
use yv_text_if_feature::is_name;

fn is_digit(byte: u8) -> bool
    ensures { result ≡ is_digit byte }
{
    byte >= b'0' && byte <= b'9'
}

/// Names with slashes between (RFC 7950, section 6.5).
#[tactic(auto, unfolding(crate::specs::Texts::is_descendant_path))]
pub fn is_descendant_path(text: &[u8]) -> bool
    ensures { result ≡ is_descendant_path text.now }
{
    text.split(|byte| *byte == b'/').all(|piece| is_name(piece))
}

/// A slash, and names with slashes between (RFC 7950, section 6.5).
pub fn is_absolute_path(text: &[u8]) -> bool
    ensures { result ≡ is_absolute_path text.now }
{
    match text.split_first() {
        None => false,
        Some((first, rest)) => *first == b'/' && is_descendant_path(rest),
    }
}

/// Not empty, and no blank at either end.
pub fn is_trimmed(text: &[u8]) -> bool
    ensures { result ≡ is_trimmed text.now }
{
    !text.is_empty() && !is_blank(text[0]) && !is_blank(text[text.len() - 1])
}

/// Not empty, and no white space, in Unicode's sense, at either end (RFC 7950, section 9.6.4).
pub fn is_enum_name(text: &str) -> bool
    ensures { result ≡ is_enum_name text.now }
{
    !text.is_empty() && text.trim() == text
}

/// A day, as `2026-01-31`. Each month has 31 days here.
#[tactic(auto, unfolding(crate::specs::Texts::is_date))]
pub fn is_date(text: &[u8]) -> bool
    ensures { result ≡ is_date text.now }
{
    text.len() == 10
        && are_digits(&text[..4])
        && text[4] == b'-'
        && is_number(1, 12, &text[5..7])
        && text[7] == b'-'
        && is_number(1, 31, &text[8..10])
}

fn are_digits(text: &[u8]) -> bool
    ensures { result ≡ list_all is_digit text.now }
{
    text.iter().all(|byte| is_digit(*byte))
}

/// One digit or more, which write a number from low to high. Zeros may lead.
#[tactic(auto, unfolding(crate::specs::Texts::is_number))]
pub fn is_number(low: u64, high: u64, text: &[u8]) -> bool
    requires { high < 2 ^ 32 }
    ensures { result ≡ is_number low high text.now }
{
    if text.is_empty() {
        return false;
    }
    let mut value = 0;
    for byte in text {
        if !is_digit(*byte) {
            return false;
        }
        value = 10 * value + u64::from(*byte - b'0');
        if value > high {
            return false;
        }
    }
    low <= value
}

/// A number in 32 bits with a sign (RFC 7950, section 9.6.4.2). `-0` is 0.
#[tactic(auto, unfolding(crate::specs::Texts::is_enum_value))]
pub fn is_enum_value(text: &[u8]) -> bool
    ensures { result ≡ is_enum_value text.now }
{
    if !text.is_empty() && text[0] == b'-' {
        is_number(0, 2_147_483_648, &text[1..])
    } else {
        is_number(0, 2_147_483_647, text)
    }
}

/// `unbounded`, or a number from 1 in 32 bits (RFC 7950, section 7.7.6).
pub fn is_max_elements(text: &str) -> bool
    ensures { result ≡ is_max_elements text.now }
{
    text == "unbounded" || is_number(1, 4_294_967_295, text.as_bytes())
}

/// A number from 1 to 18, without a zero before it (RFC 7950, section 9.3.4).
pub fn is_fraction_digits(text: &[u8]) -> bool
    ensures { result ≡ is_fraction_digits text.now }
{
    is_number(1, 18, text) && !text.starts_with(b"0")
}
