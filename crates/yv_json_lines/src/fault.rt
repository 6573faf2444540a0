//! The line of a fault.
ghost use Rattle.std.specs.Prelude.{◌≡◌, ◌++◌, ℕ, List, Option, codes, decimal};
ghost use Rattle.json.specs.Print.{quoted};
ghost use Rattle.yv_data_faults.specs.Line.{kind_name, path_text};
ghost use Rattle.yv_base_streams.specs.{Stream.{has_failed, stream_inner}, Pages.{Adds, paged_output}};
ghost use Rattle.yv_json_lines.specs.{InnerPieces.{flaw_piece, line_piece, unique_piece}, Pointer.{pointer_text}, Values.{fault_value, json_line, shown_name}};

use crate::document::put_document;
use crate::path::put_path;
use crate::pointer::put_pointer;
use crate::strings::{put_member, put_quoted};
use std::io::Write;
use yv_base_streams::{Counted, Page};
use yv_data_faults::Fault;

/// Puts the line of a fault of a document of this name and line. Nothing is done for a writer that
/// has failed, since it gets no more.
pub fn put_fault_line<W: Write>(
    page: &mut Page,
    writer: &mut Counted<W>,
    name: &[u8],
    line: Option<u64>,
    fault: &Fault,
)
    // The line of this value follows what was put before it.
    ensures { Adds (json_line (fault_value name.now line fault.now))
        (paged_output W.contents writer.old page.old)
        (paged_output W.contents writer.new page.new) }
{
    if writer.has_failed() {
        return;
    }
    page.put(writer, b"{\"result\":\"fault\",\"document\":");
    put_document(page, writer, name, line);
    put_flaw(page, writer, fault);
    put_unique(page, writer, fault.number);
    page.put(writer, b"}");
    page.put(writer, b"\n");
}

// Puts the members of the kind, the path and the pointer of a fault.
fn put_flaw<W: Write>(page: &mut Page, writer: &mut Counted<W>, fault: &Fault)
    ensures { Adds (flaw_piece fault.now) (paged_output W.contents writer.old page.old)
        (paged_output W.contents writer.new page.new) }
{
    page.put(writer, b",\"kind\":");
    put_quoted(page, writer, fault.kind.name().as_bytes());
    page.put(writer, b",\"path\":");
    put_path(page, writer, &fault.path.steps());
    page.put(writer, b",\"pointer\":");
    put_pointer(page, writer, fault.kind, &fault.path.steps());
}

// Puts the member of the number of a `unique` statement, where there is one.
fn put_unique<W: Write>(page: &mut Page, writer: &mut Counted<W>, number: u32)
    ensures { Adds (unique_piece number) (paged_output W.contents writer.old page.old)
        (paged_output W.contents writer.new page.new) }
{
    if number != 0 {
        put_member(page, writer, b",\"unique\":", number as u64);
    }
}
