//! Paths of faults as JSON strings.
ghost use Rattle.std.specs.Prelude.{◌++◌, ◌∷◌, [], ℕ, List, Option, codes, decimal};
ghost use Rattle.json.specs.Print.{escape as json_escape, escape_byte, quoted};
ghost use Rattle.yv_data_faults.specs.Line.{escaped_byte, hexadecimal, is_plain, item_text, path_text, places_text};
ghost use Rattle.yv_base_streams.specs.{Stream.{has_failed, stream_inner}, Pages.{Adds, paged_output}};

use crate::steps::{Spelling, put_steps};
use crate::strings::{digit, put_digits, put_inside};
use std::io::Write;
use yv_base_streams::{Counted, Page};
use yv_data_faults::PathSteps;

/// Puts a path as a JSON string.
pub fn put_path<W: Write>(page: &mut Page, writer: &mut Counted<W>, path: &PathSteps<'_>)
    // The path of the text form, in quotes, follows what was put before it.
    ensures { Adds (quoted (path_text path.now)) (paged_output W.contents writer.old page.old)
        (paged_output W.contents writer.new page.new) }
{
    page.put(writer, b"\"");
    put_whole(page, writer, path);
    page.put(writer, b"\"");
}

fn put_whole<W: Write>(page: &mut Page, writer: &mut Counted<W>, path: &PathSteps<'_>)
    ensures { Adds (json_escape (path_text path.now))
        (paged_output W.contents writer.old page.old)
        (paged_output W.contents writer.new page.new) }
{
    if path.is_empty() {
        put_inside(page, writer, b"/");
    } else {
        put_steps(page, writer, Spelling::Path, path);
    }
}

// Puts a byte of a name: as it is if it is plain, else `%` and two digits.
pub(crate) fn put_percent_byte<W: Write>(page: &mut Page, writer: &mut Counted<W>, byte: u8)
    ensures { Adds (json_escape (escaped_byte byte)) (paged_output W.contents writer.old page.old)
        (paged_output W.contents writer.new page.new) }
{
    if b'!' <= byte && byte <= b'~' && byte != b'%' {
        put_inside(page, writer, &[byte]);
    } else {
        put_inside(
            page,
            writer,
            &[b'%', digit(byte / 16, b'A'), digit(byte % 16, b'A')],
        );
    }
}

// Puts the number of an entry or an item in brackets.
pub(crate) fn put_bracketed<W: Write>(page: &mut Page, writer: &mut Counted<W>, item: Option<u64>)
    ensures { Adds (json_escape (item_text item)) (paged_output W.contents writer.old page.old)
        (paged_output W.contents writer.new page.new) }
{
    if let Some(number) = item {
        put_inside(page, writer, b"[");
        put_digits(page, writer, number);
        put_inside(page, writer, b"]");
    }
}
