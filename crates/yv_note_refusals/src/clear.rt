//! Texts as a terminal may show them.
ghost use Rattle.std.specs.Prelude.{◌≡◌, ◌<◌, ◌++◌, map, OnOk, string_bytes};
ghost use Rattle.yv_note_refusals.specs.Clear.{clear_text, cleared_byte};

use std::alloc::AllocError;
use yv_note_text::visible_char;

// What is shown of a byte: line feeds stay.
fn cleared_char(byte: u8) -> char
    ensures value { result ≡ cleared_byte byte }
    ensures ascii { result < 128 }
{
    if byte == b'\n' {
        '\n'
    } else {
        visible_char(byte)
    }
}

/// Adds words, with a dot for each byte that could control a terminal.
pub(crate) fn push_clear(text: &mut String, words: &str) -> Result<(), AllocError>
    ensures { OnOk result
        (string_bytes text.new ≡ string_bytes text.old ++ clear_text words.now) }
{
    for byte in words.as_bytes() {
        text.push(cleared_char(*byte))?;
    }
    Ok(())
}
