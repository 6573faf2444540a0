//! Why a text that begins like a number isn't a number of JSON.
use crate::json_reason::{Before, YAML};

/// The reason, where a digit, a sign or a point is at the place.
pub(crate) fn number_reason(rest: &[u8], before: &Before) -> &'static str {
    if before.needs_colon() {
        return if before.ends_value() {
            "a colon is missing before this"
        } else {
            "a name must be in double quotes"
        };
    }
    if before.ends_value() {
        return "a comma is missing before this";
    }
    match rest {
        [b'-', b'-' | b' ', ..] => YAML,
        [b'+', ..] => "a number can't begin with `+`",
        [b'.', ..] | [b'-', b'.', ..] => "a number needs a digit before its decimal point",
        [b'0', b'0'..=b'9', ..] | [b'-', b'0', b'0'..=b'9', ..] =>
            "a number can't have leading zeros",
        [b'0', b'x' | b'X', ..] | [b'-', b'0', b'x' | b'X', ..] => {
            "a number must be decimal, not hexadecimal"
        }
        _ => unread_reason(rest),
    }
}

// The reason, by the first byte that no number has.
fn unread_reason(rest: &[u8]) -> &'static str {
    let mut last = b' ';
    for byte in rest {
        if !matches!(*byte, b'0'..=b'9' | b'+' | b'-' | b'.' | b'e' | b'E') {
            return reason_after(last, *byte);
        }
        last = *byte;
    }
    DIGITS
}

const DIGITS: &str = "this is not a JSON number: digits are missing";

// The reason, by this byte and the one before it.
fn reason_after(last: u8, byte: u8) -> &'static str {
    match byte {
        b'_' | b'\'' => "a number can only have digits, a decimal point and an exponent",
        b';' => "members and items are separated by commas, not by `;`",
        _ if last == b'.' => "a digit is missing after the decimal point",
        _ if last == b'-' => "a digit is missing after the minus sign",
        _ if byte.is_ascii_alphabetic() =>
            "this is not a number; a string must be in double quotes",
        _ => DIGITS,
    }
}
