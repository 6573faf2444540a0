//! Why the bytes of a document aren't JSON.
ghost use Rattle.std.specs.Prelude.{◌≤◌, length, IfOk, IfSome, IfNone, string_bytes};
ghost use Rattle.yv_note_json.specs.Document.{IsJson, SaysWhy, ShowsReason, TellsLarge};

use crate::json_reason::reason_at;
use crate::other_format::{MODULE, encoding_line, is_module};
use serde_json::{Error, Value};
use std::alloc::{AllocError, Global};
use yv_note_text::{excerpt, is_blank};

// The place of a line and a column of these bytes, both counted from 1; their end, where there is
// no such place.
fn offset_of(bytes: &[u8], line: usize, column: usize) -> usize
    ensures { result ≤ length bytes.now }
{
    let start = start_of(bytes, line);
    let before = column.saturating_sub(1);
    start.saturating_add(before).min(bytes.len())
}

// Where a line begins, counted from 1.
fn start_of(bytes: &[u8], line: usize) -> usize {
    let mut left = line;
    for (place, byte) in bytes.iter().enumerate() {
        if left <= 1 {
            return place;
        }
        if *byte == b'\n' {
            left -= 1;
        }
    }
    bytes.len()
}

/// Why these bytes are not JSON: the line and the column with the text of that line, and the
/// reason. None if they are JSON.
pub fn why_not_json(alloc: Global, bytes: &[u8]) -> Result<Option<String>, AllocError>
    // Where a text is returned, the bytes are not UTF-8 or not JSON, and it shows a line of them
    // with a place in it, followed by a reason.
    ensures why { IfOk result (λ why. IfSome why (λ text. SaysWhy bytes.now (string_bytes text))) }
    // None is returned only if the bytes are JSON.
    ensures json { IfOk result (λ why. IfNone why (IsJson bytes.now)) }
{
    let text = match str::from_utf8(bytes) {
        Ok(text) => text,
        Err(error) => return Ok(Some(not_text(alloc, bytes, error.valid_up_to())?)),
    };
    match Value::from_str(alloc, text) {
        Ok(_) => Ok(None),
        Err(error) if error.is_memory() => Err(AllocError),
        Err(error) => Ok(Some(json_message(alloc, bytes, &error)?)),
    }
}

// That bytes aren't text from a place on.
fn not_text(alloc: Global, bytes: &[u8], valid: usize) -> Result<String, AllocError>
    ensures { IfOk result (λ text. ShowsReason bytes.now (string_bytes text)) }
{
    let mut why = excerpt(alloc, bytes, valid.min(bytes.len()))?;
    why.push_str(encoding_line(bytes))?;
    Ok(why)
}

// Where a text is not JSON, and why.
fn json_message(alloc: Global, bytes: &[u8], error: &Error) -> Result<String, AllocError>
    ensures { IfOk result (λ text. ShowsReason bytes.now (string_bytes text)) }
{
    if error.is_eof() {
        return end_message(alloc, bytes, error);
    }
    let place = offset_of(bytes, error.line(), error.column());
    let mut why = excerpt(alloc, bytes, place)?;
    let message = format!(in alloc; "{error}")?;
    let reason = if message.as_str().starts_with("number") {
        "the number is too large: its size must be below 1.8e308"
    } else if is_module(bytes) {
        MODULE
    } else {
        reason_at(alloc, bytes, place)?
    };
    let line = format!(in alloc; "data: {message}: {reason}\n")?;
    why.push_str(line.as_str())?;
    Ok(why)
}

// That a text ends where it is not complete.
fn end_message(alloc: Global, bytes: &[u8], error: &Error) -> Result<String, AllocError>
    ensures { IfOk result (λ text. ShowsReason bytes.now (string_bytes text)) }
{
    let (line, column) = end_place(bytes, error);
    let mut why = excerpt(alloc, bytes, offset_of(bytes, line, column))?;
    let reason = reason_at(alloc, bytes, bytes.len())?;
    let said = end_line(alloc, line, column, reason)?;
    why.push_str(said.as_str())?;
    Ok(why)
}

// The line and the column that are shown of a text that is not complete: those of the error, unless
// they are among the blanks at the end. Then they are those of what is before these blanks.
fn end_place(bytes: &[u8], error: &Error) -> (usize, usize) {
    let text = before_blanks(bytes);
    if offset_of(bytes, error.line(), error.column()) < text.len() {
        return (error.line(), error.column());
    }
    let line = line_feeds(text).saturating_add(1);
    (line, text.len().saturating_sub(start_of(text, line)))
}

// A text without the blanks at its end.
fn before_blanks(bytes: &[u8]) -> &[u8] {
    match bytes.iter().rposition(|byte| !is_blank(*byte)) {
        Some(last) => bytes.get(..=last).unwrap_or(bytes),
        None => &[],
    }
}

fn line_feeds(bytes: &[u8]) -> usize {
    bytes.iter().filter(|byte| **byte == b'\n').count()
}

// The line on a place and on a reason why it is not JSON, in the words of `serde_json`.
fn end_line(alloc: Global, line: usize, column: usize, reason: &str) -> Result<String, AllocError> {
    let mut text = format!(in alloc; "data: invalid JSON at line {line}")?;
    text.push_str(format!(in alloc; " column {column}: {reason}\n")?.as_str())?;
    Ok(text)
}

/// How many bytes a document has at most, and how many members and items.
const MOST: usize = 16_777_216;

/// Why a document is too large, of which these bytes were read: it has too many bytes, or too many
/// members and items.
pub fn why_too_large(alloc: Global, bytes: &[u8]) -> Result<String, AllocError>
    ensures { IfOk result (λ text. TellsLarge bytes.now (string_bytes text)) }
{
    let what = if bytes.len() > MOST { LARGE } else { MANY };
    String::from_str(alloc, what)
}

const LARGE: &str = "data: more than 16,777,216 bytes, which is the limit\n";

const MANY: &str = "data: more than 16,777,216 members and items, which is the limit\n";
