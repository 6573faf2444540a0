//! The line of a file at a place, for a reader of standard error.
ghost use Rattle.std.specs.Prelude.{◌≡◌, ◌≢◌, ◌≤◌, ◌<◌, ◌+◌, ◌-◌, ◌++◌, ℕ, length, replicate, slice_index, IfOk, OnOk, string_bytes};
ghost use Rattle.yv_note_text.specs.{Quotes.{Extends}, Excerpt.{begins_character, shown_byte, ascii_text as shown_bytes, ShowsPlace}};

use std::alloc::{AllocError, Global};

/// How many bytes are shown on either side of the place. Lines of published modules are no longer.
const WINDOW: usize = 72;

/// The line that holds an offset, and below it a caret at the offset. A line that is longer than a
/// terminal is shown only around the offset, and what could drive a terminal is shown as dots.
pub fn excerpt(alloc: Global, bytes: &[u8], offset: usize) -> Result<String, AllocError>
    // For an offset that is at most the number of bytes: the line that contains it, at most 72
    // bytes on either side, with a caret under the place.
    requires { offset ≤ length bytes.now }
    // For an offset that is at most the number of bytes: the line that contains it, at most 72
    // bytes on either side, with a caret under the place.
    ensures { IfOk result (λ s. ShowsPlace bytes.now offset (string_bytes s)) }
{
    let start = start_at(bytes, offset);
    let end = end_at(bytes, offset);
    let mut text = ascii_text(alloc, &bytes[start..end])?;
    let before = ascii_text(alloc, &bytes[start..offset])?;
    text.push('\n')?;
    add_blanks(&mut text, before.len())?;
    text.push_str("^\n")?;
    Ok(text)
}

// Where the line starts that holds the offset, or what is shown of it.
fn start_at(bytes: &[u8], offset: usize) -> usize
    requires { offset ≤ length bytes.now }
    ensures low { result ≤ offset }
    ensures near { offset ≤ result + 72 }
    ensures one { (k : ℕ) → result ≤ k → k < offset → slice_index bytes.now k ≢ 10 }
    ensures first { 0 < result → offset < result + 72 → slice_index bytes.now (result - 1) ≡ 10 }
{
    let mut start = offset;
    while start > 0 && offset - start < WINDOW && bytes[start - 1] != b'\n' {
        start -= 1;
    }
    start
}

// Where that line ends, before its line feed, or what is shown of it.
fn end_at(bytes: &[u8], offset: usize) -> usize
    requires { offset ≤ length bytes.now }
    ensures high { offset ≤ result }
    ensures within { result ≤ length bytes.now }
    ensures near { result ≤ offset + 72 }
    ensures one { (k : ℕ) → offset ≤ k → k < result → slice_index bytes.now k ≢ 10 }
    ensures last { result < length bytes.now → result < offset + 72
        → slice_index bytes.now result ≡ 10 }
{
    let mut end = offset;
    while end < bytes.len() && end - offset < WINDOW && bytes[end] != b'\n' {
        end += 1;
    }
    end
}

fn begins(byte: u8) -> bool
    ensures { result ≡ begins_character byte }
{
    byte < 128 || byte >= 192
}

fn shown_char(byte: u8) -> char
    ensures value { result ≡ shown_byte byte }
    ensures ascii { result < 128 }
{
    if byte >= b' ' && byte <= b'~' {
        char::from(byte)
    } else if byte == b'\t' || byte == b'\r' {
        ' '
    } else {
        '.'
    }
}

/// Adds one character of ASCII for each character that begins in these bytes.
pub fn push_shown(text: &mut String, bytes: &[u8]) -> Result<(), AllocError>
    // The text is extended, also if memory runs out.
    ensures grows { Extends (string_bytes text.old) (string_bytes text.new) }
    // Each character that begins in the bytes is shown by one of ASCII.
    ensures shows { OnOk result
        (string_bytes text.new ≡ string_bytes text.old ++ shown_bytes bytes.now) }
{
    for byte in bytes {
        if begins(*byte) {
            text.push(shown_char(*byte))?;
        }
    }
    Ok(())
}

// One character of ASCII for each character.
fn ascii_text(alloc: Global, bytes: &[u8]) -> Result<String, AllocError>
    ensures { IfOk result (λ s. string_bytes s ≡ shown_bytes bytes.now) }
{
    let mut text = String::new(alloc);
    push_shown(&mut text, bytes)?;
    Ok(text)
}

fn add_blanks(text: &mut String, count: usize) -> Result<(), AllocError>
    ensures { OnOk result (string_bytes text.new ≡ string_bytes text.old ++ replicate count 32) }
{
    for _ in 0..count {
        text.push(' ')?;
    }
    Ok(())
}
