//! Texts as a terminal may show them.
ghost use Rattle.std.specs.Prelude.{◌≡◌, ◌++◌, take, OnOk, string_bytes};
ghost use Rattle.yv_note_lines.specs.Lines.{cleared_line, visible_text};

use std::alloc::AllocError;
use yv_note_text::visible_char;

/// The most bytes of a sentence.
const MOST_BYTES: usize = 1400;

/// Adds what a terminal is given of a sentence, and a line feed. If memory runs out, a part of that
/// may have been added.
pub fn push_line(text: &mut String, sentence: &str) -> Result<(), AllocError>
    // The first 1,400 bytes are appended, with a dot for each that isn't visible, and a line feed.
    ensures { OnOk result
        (string_bytes text.new ≡ string_bytes text.old ++ cleared_line sentence.now) }
{
    push_visible(text, front(sentence.as_bytes()))?;
    text.push_str("\n")?;
    Ok(())
}

// The first bytes of a sentence.
fn front(bytes: &[u8]) -> &[u8]
    ensures { result.now ≡ take 1400 bytes.now }
{
    if bytes.len() <= MOST_BYTES {
        bytes
    } else {
        &bytes[..MOST_BYTES]
    }
}

/// Adds bytes, with a dot for each that isn't visible, also for a line feed. If memory runs out,
/// some of them may have been added.
pub fn push_visible(text: &mut String, bytes: &[u8]) -> Result<(), AllocError>
    // Each byte is appended as a visible character.
    ensures { OnOk result
        (string_bytes text.new ≡ string_bytes text.old ++ visible_text bytes.now) }
{
    for byte in bytes {
        text.push(visible_char(*byte))?;
    }
    Ok(())
}
