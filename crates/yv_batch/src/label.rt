//! The label of a document, which each of its lines has in front.
ghost use Rattle.std.specs.Prelude.{◌≡◌, ◌<◌, ◌++◌, ◌∷◌, [], Option};
ghost use Rattle.yv_base_streams.specs.{Stream.{has_failed, stream_inner}, Pages.{Adds, paged_output}};
ghost use Rattle.yv_data_faults.specs.Line.{escape, escaped_byte, hexadecimal, is_plain};
ghost use Rattle.yv_batch.specs.Label.{label_of, label_line, number_text};

use itoa::Buffer;
use std::io::Write;
use yv_base_streams::{Counted, Page};

/// Puts the label of a document of this name and line.
pub fn put_label<W: Write>(page: &mut Page, writer: &mut Counted<W>, name: &[u8], line: Option<u64>)
    // The label follows what was put before it.
    ensures { Adds (label_of name.now line) (paged_output W.contents writer.old page.old)
        (paged_output W.contents writer.new page.new) }
{
    put_escaped(page, writer, name);
    put_number(page, writer, line);
}

/// Puts a line of a document of this name and line: its label, a colon and a blank, and a text.
pub fn put_label_line<W: Write>(
    page: &mut Page,
    writer: &mut Counted<W>,
    name: &[u8],
    line: Option<u64>,
    text: &[u8],
)
    // The line follows what was put before it.
    ensures { Adds (label_line (label_of name.now line) text.now)
        (paged_output W.contents writer.old page.old)
        (paged_output W.contents writer.new page.new) }
{
    put_label(page, writer, name, line);
    page.put(writer, b": ");
    page.put(writer, text);
    page.put(writer, b"\n");
}

// The number of the line, where the document is one.
fn put_number<W: Write>(page: &mut Page, writer: &mut Counted<W>, line: Option<u64>)
    ensures { Adds (number_text line) (paged_output W.contents writer.old page.old)
        (paged_output W.contents writer.new page.new) }
{
    if let Some(number) = line {
        page.put(writer, b":");
        page.put(writer, Buffer::new().format(number).as_bytes());
    }
}

/// Puts a name as a line shows it.
pub fn put_escaped<W: Write>(page: &mut Page, writer: &mut Counted<W>, name: &[u8])
    // The name follows what was put before it, with `%` and two digits for each byte that isn't
    // plain.
    ensures { Adds (escape name.now) (paged_output W.contents writer.old page.old)
        (paged_output W.contents writer.new page.new) }
{
    for byte in name {
        put_escaped_byte(page, writer, *byte);
    }
}

fn put_escaped_byte<W: Write>(page: &mut Page, writer: &mut Counted<W>, byte: u8)
    ensures { Adds (escaped_byte byte) (paged_output W.contents writer.old page.old)
        (paged_output W.contents writer.new page.new) }
{
    if b'!' <= byte && byte <= b'~' && byte != b'%' {
        page.put_byte(writer, byte);
    } else {
        page.put(writer, &[b'%', digit(byte / 16), digit(byte % 16)]);
    }
}

fn digit(value: u8) -> u8
    requires { value < 16 }
    ensures { result ≡ hexadecimal value }
{
    let from = if value < 10 { b'0' } else { b'A' - 10 };
    from + value
}
