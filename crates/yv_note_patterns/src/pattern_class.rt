//! The items of a class in a pattern.
use crate::pattern_flaw::{Flaw, category_size, escape_flaw};

/// A character of a class, and how many bytes spell it.
#[derive(Clone, Copy)]
pub(crate) struct Sign {
    /// Its bytes in UTF-8 as one number. These are in the order of the characters.
    code: u32,
    size: usize,
}

impl Sign {
    /// The character that an escape means, by what is after its backslash.
    pub(crate) fn of_escape(after: &[u8]) -> Option<Sign> {
        let letter = after.first()?;
        let character = match *letter {
            b'n' => b'\n',
            b'r' => b'\r',
            b't' => b'\t',
            other if other.is_ascii_punctuation() => other,
            _ => return None,
        };
        Some(Sign {
            code: u32::from(character),
            size: 2,
        })
    }

    // The character at the front of the items of a class, where a hyphen may be or not.
    fn at(may_be_hyphen: bool, rest: &[u8]) -> Option<Sign> {
        match rest {
            [b'\\', after @ ..] => Sign::of_escape(after),
            [b'[' | b']', ..] | [] => None,
            [b'-', after @ ..] if !may_be_hyphen && !may_end(after) => None,
            [first, ..] => {
                let size = character_size(*first);
                let character = rest.get(..size).unwrap_or(rest);
                Some(Sign {
                    code: code_of(character),
                    size,
                })
            }
        }
    }
}

/// How many bytes a character has that begins with this one.
pub(crate) fn character_size(first: u8) -> usize {
    match first {
        0..=0x7F => 1,
        0x80..=0xDF => 2,
        0xE0..=0xEF => 3,
        _ => 4,
    }
}

// The bytes of a character as one number.
fn code_of(character: &[u8]) -> u32 {
    character.iter().fold(0, |code: u32, byte| {
        code.wrapping_mul(256).wrapping_add(u32::from(*byte))
    })
}

/// Whether the bracket that closes a class is next.
pub(crate) fn class_end(rest: &[u8]) -> bool {
    matches!(rest, [b']', ..])
}

// Whether a class or the pattern ends here.
fn may_end(rest: &[u8]) -> bool {
    rest.is_empty() || class_end(rest)
}

/// How many bytes the item at the front has, which is the first of its class or not, or what
/// is wrong with it.
pub(crate) fn item_size(is_first: bool, rest: &[u8]) -> Result<usize, Flaw> {
    match Sign::at(is_first, rest) {
        Some(low) => range_size(low, rest.get(low.size..).unwrap_or(&[])),
        None => set_size(rest),
    }
}

// How many bytes a range or a single character has, by its first and by what is after that.
fn range_size(low: Sign, after: &[u8]) -> Result<usize, Flaw> {
    let [b'-', rest @ ..] = after else {
        return Ok(low.size);
    };
    if may_end(rest) {
        return Ok(low.size);
    }
    let Some(high) = Sign::at(false, rest) else {
        return Err(high_flaw(rest).after(low.size));
    };
    let size = low.size.saturating_add(1).saturating_add(high.size);
    if low.code > high.code {
        return Err(Flaw::new(
            0,
            size,
            " The first end of a range can't be after the second one.",
        ));
    }
    Ok(size)
}

// What is wrong with what is after the hyphen of a range.
fn high_flaw(rest: &[u8]) -> Flaw {
    match rest {
        [b'[', ..] => Flaw::new(0, 2, SUBTRACTED),
        [b'\\', after @ ..] => match set_size(rest) {
            Ok(_) => Flaw::new(
                0,
                3,
                " A range ends with a character, and not with a set; write `\\-` for the hyphen.",
            ),
            Err(_) => escape_flaw(after).after(1),
        },
        _ => Flaw::new(0, 2, HYPHEN),
    }
}

const SUBTRACTED: &str = " Classes can't be subtracted; write `\\[` for the character.";

const HYPHEN: &str =
    " A hyphen that is neither first nor last in its class nor between the ends of a range is written `\\-`.";

// How many bytes a set in a class has.
fn set_size(rest: &[u8]) -> Result<usize, Flaw> {
    match rest {
        [b'\\', b'd' | b's' | b'w', ..] => Ok(2),
        [b'\\', b'p', name @ ..] => category_size(name),
        [b'\\', b'D' | b'S' | b'W' | b'P', ..] => Err(Flaw::new(
            0,
            2,
            " A class can't have this set; it can have `\\d`, `\\s`, `\\w` and `\\p{..}`.",
        )),
        [b'\\', after @ ..] => Err(escape_flaw(after)),
        [b'-', b'[', ..] => Err(Flaw::new(0, 2, SUBTRACTED)),
        [b'-', ..] => Err(Flaw::new(0, 1, HYPHEN)),
        [b'[', b':', ..] => Err(Flaw::new(
            0,
            2,
            " Classes have no names here: write `\\p{L}` for letters and `\\d` for digits, or `\\[` for the character.",
        )),
        _ => Err(Flaw::new(0, 1, " Write `\\[` for the character in a class.")),
    }
}
