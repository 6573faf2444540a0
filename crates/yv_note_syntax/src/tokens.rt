//! Quotes, comments and escapes that are wrong.
use crate::outline::{Kind, Outline, after_mark, ends_word};
use crate::syntax_note::text_of;
use std::alloc::{AllocError, Global};
use yv_note_statements::Message;
use yv_note_text::has_curly_quote;

/// Adds why no token begins at a place, by what is before it and by the rest of the file.
pub(crate) fn tell_token<'a>(
    telling: &mut Message<'a>,
    front: &'a [u8],
    rest: &'a [u8],
) -> Result<(), AllocError> {
    match rest {
        [b'/', b'*', ..] => telling.say("This comment is not closed: it needs a `*/` at its end."),
        [b'*', b'/', ..] => telling.say("This `*/` closes no comment; comments do not nest."),
        [quote, after @ ..] => match word_before(telling.alloc(), front)? {
            Some(word) => telling.quote(
                "This quote directly follows the unquoted text ",
                text_of(word),
                ": put a blank between them, or the whole text in quotes.",
            ),
            None => tell_open_quote(telling, *quote, after),
        },
        [] => {}
    }
    Ok(())
}

// The unquoted text that ends where a file's front does. Whether a `+` is a sign between two quoted
// texts, only what is before it shows.
fn word_before(alloc: Global, front: &[u8]) -> Result<Option<&[u8]>, AllocError> {
    let word = word_at_end(after_mark(front));
    if !word.starts_with(b"+") {
        return Ok(if word.is_empty() { None } else { Some(word) });
    }
    let outline = Outline::read(alloc, front)?;
    match outline.last {
        Some(token) if token.kind == Kind::Word && front.ends_with(token.bytes) => {
            Ok(Some(token.bytes))
        }
        _ => Ok(None),
    }
}

// What a text ends with, after the last blank, quote, brace, semicolon or comment.
fn word_at_end(front: &[u8]) -> &[u8] {
    let mut word = front;
    if let Some(place) = front.iter().rposition(|byte| ends_word(*byte)) {
        word = front.get(place.saturating_add(1)..).unwrap_or(&[]);
    }
    match word.windows(2).rposition(|two| matches!(two, [b'*', b'/'])) {
        Some(place) => word.get(place.saturating_add(2)..).unwrap_or(&[]),
        None => word,
    }
}

fn tell_open_quote(telling: &mut Message<'_>, quote: u8, after: &[u8]) {
    telling.say(if quote == b'"' {
        "This double quote is not closed."
    } else {
        "This single quote is not closed."
    });
    if has_curly_quote(first_line(after)) {
        telling.say(CURLY);
    }
}

/// That typographic quotes are not quotes.
pub(crate) const CURLY: &str =
    " Write `\"` or `'`: the typographic quotes here are not quotes in YANG.";

// The first line of a text.
fn first_line(bytes: &[u8]) -> &[u8] {
    let length = bytes.iter().position(|byte| *byte == b'\n');
    bytes.get(..length.unwrap_or(bytes.len())).unwrap_or(bytes)
}

/// Adds which escape is none, by the text from its backslash on.
pub(crate) fn tell_escape<'a>(telling: &mut Message<'a>, rest: &'a [u8]) {
    match pair_of(rest) {
        Some(pair) => telling.quote("", pair, " is not an escape"),
        None => telling.say("This backslash is no part of an escape"),
    }
    telling.say(
        ": in double quotes there are only `\\n`, `\\t`, `\\\"` and `\\\\`. Write the backslash twice, or put the text in single quotes.",
    );
}

// A backslash and the character after it, if this is one of ASCII that can be seen.
fn pair_of(rest: &[u8]) -> Option<&str> {
    let letter = rest.get(1)?;
    if letter.is_ascii_graphic() {
        Some(text_of(rest.get(..2)?))
    } else {
        None
    }
}
