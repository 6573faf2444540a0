//! The line that ends what is said of a document.
ghost use Rattle.std.specs.{Prelude.{◌≡◌, ◌++◌, ℕ, List, Option, decimal}, Str.{IsUtf8, is_utf8}};
ghost use Rattle.json.specs.Print.{escape as json_escape, quoted};
ghost use Rattle.yv_data_faults.specs.Line.{escape};
ghost use Rattle.yv_base_streams.specs.{Stream.{has_failed, stream_inner}, Pages.{Adds, paged_output}};
ghost use Rattle.yv_json_lines.specs.{InnerPieces.{cost_piece, faults_piece, line_piece}, Values.{document_value, json_line, shown_name, verdict_name}};

use crate::steps;
use crate::strings::{put_member, put_quoted};
use std::io::Write;
use yv_base_streams::{Counted, Page};

/// What the validation of a document cost.
#[derive(Clone, Copy, PartialEq, Eq, Debug)]
pub struct ValidationCost {
    /// The number of members and items of the document.
    pub size: u64,
    /// The steps that were taken.
    pub steps: u64,
    /// The most steps that it may take.
    pub bound: u64,
}

/// The verdict on a document, which is said of it at the end.
#[derive(Clone, Copy)]
pub enum DocumentVerdict {
    /// It was validated, and has so many faults: none if it is valid. The cost is there if it is to
    /// be said.
    Validated {
        faults: u64,
        cost: Option<ValidationCost>,
    },
    /// It has too many bytes, or too many members and items.
    TooLarge,
    /// It is not JSON.
    NotJson,
    /// It can't be opened or read.
    CannotRead,
    /// There was no memory for it.
    OutOfMemory,
}

impl DocumentVerdict {
    /// What the verdict is called in a line.
    pub fn name(self) -> &'static str
        // It is the name of its kind: `valid` or `faulty` by the number of faults.
        ensures { result.now ≡ verdict_name self }
    {
        match self {
            DocumentVerdict::Validated { faults: 0, .. } => "valid",
            DocumentVerdict::Validated { .. } => "faulty",
            DocumentVerdict::TooLarge => "too-large",
            DocumentVerdict::NotJson => "not-json",
            DocumentVerdict::CannotRead => "cannot-read",
            DocumentVerdict::OutOfMemory => "out-of-memory",
        }
    }
}

/// Puts the line that ends what is said of a document of this name and line.
pub fn put_document_line<W: Write>(
    page: &mut Page,
    writer: &mut Counted<W>,
    name: &[u8],
    line: Option<u64>,
    verdict: DocumentVerdict,
)
    // The line of this value follows what was put before it.
    ensures { Adds (json_line (document_value name.now line verdict))
        (paged_output W.contents writer.old page.old)
        (paged_output W.contents writer.new page.new) }
{
    page.put(writer, b"{\"result\":\"document\",\"document\":");
    put_document(page, writer, name, line);
    page.put(writer, b",\"verdict\":");
    put_quoted(page, writer, verdict.name().as_bytes());
    put_faults(page, writer, verdict);
    page.put(writer, b"}");
    page.put(writer, b"\n");
}

// Puts the name of a document, and the member of its line where it has one.
pub(crate) fn put_document<W: Write>(
    page: &mut Page,
    writer: &mut Counted<W>,
    name: &[u8],
    line: Option<u64>,
)
    ensures { Adds (quoted (shown_name name.now) ++ line_piece line)
        (paged_output W.contents writer.old page.old)
        (paged_output W.contents writer.new page.new) }
{
    put_name(page, writer, name);
    put_line(page, writer, line);
}

fn put_name<W: Write>(page: &mut Page, writer: &mut Counted<W>, name: &[u8])
    ensures { Adds (quoted (shown_name name.now)) (paged_output W.contents writer.old page.old)
        (paged_output W.contents writer.new page.new) }
{
    match str::from_utf8(name) {
        Ok(_) => put_quoted(page, writer, name),
        Err(_) => put_quoted_label(page, writer, name),
    }
}

// Puts a name as a label has it, as a JSON string.
fn put_quoted_label<W: Write>(page: &mut Page, writer: &mut Counted<W>, name: &[u8])
    ensures { Adds (quoted (escape name.now)) (paged_output W.contents writer.old page.old)
        (paged_output W.contents writer.new page.new) }
{
    page.put(writer, b"\"");
    steps::put_name(page, writer, steps::Spelling::Path, name);
    page.put(writer, b"\"");
}

fn put_line<W: Write>(page: &mut Page, writer: &mut Counted<W>, line: Option<u64>)
    ensures { Adds (line_piece line) (paged_output W.contents writer.old page.old)
        (paged_output W.contents writer.new page.new) }
{
    if let Some(number) = line {
        put_member(page, writer, b",\"line\":", number);
    }
}

fn put_faults<W: Write>(page: &mut Page, writer: &mut Counted<W>, verdict: DocumentVerdict)
    ensures { Adds (faults_piece verdict) (paged_output W.contents writer.old page.old)
        (paged_output W.contents writer.new page.new) }
{
    if let DocumentVerdict::Validated { faults, cost } = verdict {
        put_member(page, writer, b",\"faults\":", faults);
        put_cost(page, writer, cost);
    }
}

// Puts the members of a cost, where there is one.
fn put_cost<W: Write>(page: &mut Page, writer: &mut Counted<W>, cost: Option<ValidationCost>)
    ensures { Adds (cost_piece cost) (paged_output W.contents writer.old page.old)
        (paged_output W.contents writer.new page.new) }
{
    if let Some(cost) = cost {
        put_member(page, writer, b",\"n\":", cost.size);
        put_member(page, writer, b",\"steps\":", cost.steps);
        put_member(page, writer, b",\"bound\":", cost.bound);
    }
}
