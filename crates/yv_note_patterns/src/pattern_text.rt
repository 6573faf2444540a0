//! What of a pattern is not in the dialect of regular expressions.
use crate::pattern_flaw::{Flaw, MOST_READ, flaw_of};
use std::alloc::{AllocError, Global};
use yv_note_statements::Message;
use yv_text_statement::Code;

/// Adds what of a pattern is not supported, at which character, and what to write.
pub fn tell_pattern<'a>(telling: &mut Message<'a>, text: &'a str) -> Result<(), AllocError> {
    telling.sentence(Code::BadPattern);
    match flaw_of(telling.alloc(), text)? {
        Some(flaw) => say_flaw(telling, text, &flaw),
        None if text.len() > MOST_READ => {
            telling.say(" Its first 65,536 bytes have no flaw.");
        }
        None => {}
    }
    Ok(())
}

// Adds what a flaw is, at which character, and what to write.
fn say_flaw<'a>(telling: &mut Message<'a>, text: &'a str, flaw: &Flaw) {
    telling.quote(
        " The reason is ",
        part_of(text, flaw.start, flaw.size).unwrap_or(text),
        "",
    );
    let before = count_characters(text, flaw.start);
    telling.count(" at character ", before.saturating_add(1) as u64, ".");
    telling.say(flaw.advice);
}

// So many bytes of a text, after the first ones.
fn part_of(text: &str, start: usize, size: usize) -> Option<&str> {
    let end = start.saturating_add(size).min(text.len());
    match str::from_utf8(text.as_bytes().get(start..end)?) {
        Ok(part) => Some(part),
        Err(_) => None,
    }
}

// How many characters begin in the first bytes of a text.
fn count_characters(text: &str, size: usize) -> usize {
    text.as_bytes()
        .iter()
        .take(size)
        .filter(|byte| !matches!(**byte, 0x80..=0xBF))
        .count()
}
