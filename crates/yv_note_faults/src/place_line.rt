//! Lines that say something of a place.
ghost use Rattle.std.specs.Prelude.{◌≡◌, ◌≤◌, decimal, length, IfOk, string_bytes};
ghost use Rattle.yv_note_faults.specs.Line.{IsPlaced, numbers_text};

use itoa::Buffer;
use std::alloc::{AllocError, Global};
use yv_note_lines::{push_line, push_visible};
use yv_note_places::LineColumn;

// A line and a column, as they are written behind the name of a file.
fn numbers(alloc: Global, line: u64, column: u64) -> Result<String, AllocError>
    ensures text { IfOk result (λ text. string_bytes text ≡ numbers_text line column) }
    ensures line_digits { IfOk result (λ _. length (decimal line) ≤ 20) }
    ensures column_digits { IfOk result (λ _. length (decimal column) ≤ 20) }
{
    let mut text = String::from_str(alloc, ":")?;
    text.push_str(Buffer::new().format(line))?;
    text.push_str(":")?;
    text.push_str(Buffer::new().format(column))?;
    text.push_str(": ")?;
    Ok(text)
}

/// A line that says something of a place in the file of this name.
pub(crate) fn placed_line(
    alloc: Global,
    name: &[u8],
    place: LineColumn,
    said: &str,
) -> Result<String, AllocError>
    ensures { IfOk result (λ text. IsPlaced name.now said.now (string_bytes text)) }
{
    let LineColumn { line, column } = place;
    let numbers = numbers(alloc, line, column)?;
    let mut text = String::new(alloc);
    push_visible(&mut text, name)?;
    push_visible(&mut text, numbers.as_bytes())?;
    push_line(&mut text, said)?;
    Ok(text)
}
