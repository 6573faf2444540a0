//! Texts and numbers of JSON: texts as serde_json writes them.
ghost use Rattle.std.specs.Prelude.{◌≡◌, ◌<◌, ◌++◌, ◌∷◌, [], ℕ, List, Option, codes, decimal};
ghost use Rattle.json.specs.Print.{escape, escape_byte, escape_letter, quoted};
ghost use Rattle.yv_json_lines.specs.InnerPieces.{digit_from};
ghost use Rattle.yv_base_streams.specs.{Stream.{has_failed, stream_inner}, Pages.{Adds, paged_output}};

use itoa::Buffer;
use std::io::Write;
use yv_base_streams::{Counted, Page};

/// Puts a text as a JSON string.
pub fn put_quoted<W: Write>(page: &mut Page, writer: &mut Counted<W>, text: &[u8])
    // The text in quotes follows what was put before it, as `serde_json` writes it.
    ensures { Adds (quoted text.now) (paged_output W.contents writer.old page.old)
        (paged_output W.contents writer.new page.new) }
{
    page.put(writer, b"\"");
    put_inside(page, writer, text);
    page.put(writer, b"\"");
}

// Puts a text that is inside of a JSON string.
pub(crate) fn put_inside<W: Write>(page: &mut Page, writer: &mut Counted<W>, text: &[u8])
    ensures { Adds (escape text.now) (paged_output W.contents writer.old page.old)
        (paged_output W.contents writer.new page.new) }
{
    for byte in text {
        put_byte_inside(page, writer, *byte);
    }
}

// Puts a byte that is inside of a JSON string.
pub(crate) fn put_byte_inside<W: Write>(page: &mut Page, writer: &mut Counted<W>, byte: u8)
    ensures { Adds (escape_byte byte) (paged_output W.contents writer.old page.old)
        (paged_output W.contents writer.new page.new) }
{
    let letter = letter_of(byte);
    if letter > 0 {
        page.put(writer, &[b'\\', letter]);
    } else if byte < 32 {
        page.put(
            writer,
            &[
                b'\\',
                b'u',
                b'0',
                b'0',
                digit(byte / 16, b'a'),
                digit(byte % 16, b'a'),
            ],
        );
    } else {
        page.put_byte(writer, byte);
    }
}

// The letter of the byte's short escape, or 0 where it has none.
fn letter_of(byte: u8) -> u8
    ensures { result ≡ escape_letter byte }
{
    if byte == b'"' || byte == b'\\' {
        byte
    } else if byte == 8 {
        b'b'
    } else if byte == 12 {
        b'f'
    } else if byte == b'\n' {
        b'n'
    } else if byte == b'\r' {
        b'r'
    } else if byte == b'\t' {
        b't'
    } else {
        0
    }
}

// The hexadecimal digit of a value, where the digit of 10 is this letter.
pub(crate) fn digit(value: u8, ten: u8) -> u8
    requires small { value < 16 }
    requires letter { ten < 128 }
    ensures { result ≡ digit_from ten value }
{
    if value < 10 {
        b'0' + value
    } else {
        ten + value - 10
    }
}

// Puts a member that has a number, with this text before the number.
pub(crate) fn put_member<W: Write>(
    page: &mut Page,
    writer: &mut Counted<W>,
    head: &[u8],
    number: u64,
)
    ensures { Adds (head.now ++ decimal number) (paged_output W.contents writer.old page.old)
        (paged_output W.contents writer.new page.new) }
{
    page.put(writer, head);
    put_number(page, writer, number);
}

// Puts a number.
pub(crate) fn put_number<W: Write>(page: &mut Page, writer: &mut Counted<W>, number: u64)
    ensures { Adds (decimal number) (paged_output W.contents writer.old page.old)
        (paged_output W.contents writer.new page.new) }
{
    page.put(writer, Buffer::new().format(number).as_bytes());
}

// Puts the digits of a number that is inside of a JSON string.
pub(crate) fn put_digits<W: Write>(page: &mut Page, writer: &mut Counted<W>, number: u64)
    ensures { Adds (escape (decimal number)) (paged_output W.contents writer.old page.old)
        (paged_output W.contents writer.new page.new) }
{
    put_inside(page, writer, Buffer::new().format(number).as_bytes());
}
