//! Faults as lines on a page.
ghost use Rattle.std.specs.{Prelude.{◌≡◌, ◌<◌, ◌↔◌, ◌++◌, ◌∷◌, [], ℕ, List, Option, true, false, codes, decimal, take}, Io.KnownBytes.{Appends}, Option.{option_map}};
ghost use Rattle.yv_nodes.specs.Member.{behind};
ghost use Rattle.yv_data_faults.specs.{Line.{escape, item_text, line_text, path_text, place_text, places_text}, Part.{part_of}};
ghost use Rattle.yv_data_leafrefs.specs.Place.{member_text};
ghost use Rattle.yv_base_streams.specs.{Stream.{has_failed, stream_inner, FailsOnceAtMost}, Pages.{Adds, paged_output}};
ghost use Rattle.yv_documents.specs.Lines.{ended_line, fault_lines, faults_text};
ghost use Rattle.yv_note_faults.specs.Line.{number_text};

use itoa::Buffer;
use std::io::Write;
use yv_base_streams::{Counted, Page};
use yv_batch::put_escaped;
use yv_validate::{Fault, MemberName, Part, PathSteps};

/// Writes the lines of faults and how many they are, and answers whether all was taken. It takes no
/// memory, however much text that is.
pub fn write_faults<W: Write>(writer: &mut Counted<W>, faults: &[Fault]) -> bool
    // The writer has not failed.
    requires { has_failed writer.old ≡ false }
    // If true is returned, the writer has received the lines of the faults and the line with their
    // number, and nothing else.
    ensures ends { result ≡ true
        → Appends (W.contents (stream_inner writer.old)) (W.contents (stream_inner writer.new))
        (faults_text faults.now) }
    // In any case it has received the first bytes of that text, and nothing else.
    ensures part { (n : ℕ)
        × Appends (W.contents (stream_inner writer.old)) (W.contents (stream_inner writer.new))
        (take n (faults_text faults.now)) }
    // False is returned exactly if the writer has failed.
    ensures fault { result ≡ false ↔ (has_failed writer.new ≡ true) }
    // At most one call of the writer failed in a way that is not tolerated, and none came after it.
    ensures once { FailsOnceAtMost writer.new }
{
    let mut page = Page::new();
    put_lines(&mut page, writer, faults);
    put_count(&mut page, writer, faults.len() as u64);
    page.turn(writer);
    !writer.has_failed()
}

/// The line of how many faults there are.
pub(crate) fn put_count<W: Write>(page: &mut Page, writer: &mut Counted<W>, count: u64)
    ensures { Adds (ended_line (codes "faults: " ++ decimal count))
        (paged_output W.contents writer.old page.old)
        (paged_output W.contents writer.new page.new) }
{
    page.put(writer, b"faults: ");
    page.put(writer, Buffer::new().format(count).as_bytes());
    page.put(writer, b"\n");
}

// Puts the lines of faults after what a page holds, each with a line feed, and writes each full
// page.
pub(crate) fn put_lines<W: Write>(page: &mut Page, writer: &mut Counted<W>, faults: &[Fault])
    ensures { Adds (fault_lines faults.now) (paged_output W.contents writer.old page.old)
        (paged_output W.contents writer.new page.new) }
{
    for fault in faults {
        put_line(page, writer, fault);
    }
}

/// The line of a fault. Nothing is done for a writer that has failed, since it gets no more.
pub(crate) fn put_line<W: Write>(page: &mut Page, writer: &mut Counted<W>, fault: &Fault)
    ensures { Adds ((line_text fault.now ++ 10 ∷ [])) (paged_output W.contents writer.old page.old)
        (paged_output W.contents writer.new page.new) }
{
    if !writer.has_failed() {
        put_whole_line(page, writer, fault);
    }
}

fn put_whole_line<W: Write>(page: &mut Page, writer: &mut Counted<W>, fault: &Fault)
    ensures { Adds (ended_line (line_text fault.now)) (paged_output W.contents writer.old page.old)
        (paged_output W.contents writer.new page.new) }
{
    page.put(writer, fault.kind.name().as_bytes());
    page.put(writer, b" ");
    put_path(page, writer, &fault.path.steps());
    put_number(page, writer, fault.number);
    page.put(writer, b"\n");
}

// The number of a statement, where there is one.
fn put_number<W: Write>(page: &mut Page, writer: &mut Counted<W>, number: u32)
    ensures { Adds (number_text number) (paged_output W.contents writer.old page.old)
        (paged_output W.contents writer.new page.new) }
{
    if number != 0 {
        page.put(writer, b" ");
        page.put(writer, Buffer::new().format(number).as_bytes());
    }
}

fn put_path<W: Write>(page: &mut Page, writer: &mut Counted<W>, path: &PathSteps<'_>)
    ensures { Adds (path_text path.now) (paged_output W.contents writer.old page.old)
        (paged_output W.contents writer.new page.new) }
{
    if path.is_empty() {
        page.put(writer, b"/");
    } else {
        put_steps(page, writer, path);
    }
}

// The calls nest as deep as the path is long.
fn put_steps<W: Write>(page: &mut Page, writer: &mut Counted<W>, path: &PathSteps<'_>)
    ensures { Adds (places_text path.now) (paged_output W.contents writer.old page.old)
        (paged_output W.contents writer.new page.new) }
{
    if let Some((last, before)) = path.split_last() {
        put_steps(page, writer, &before);
        put_step(page, writer, &last);
    }
}

fn put_step<W: Write>(page: &mut Page, writer: &mut Counted<W>, step: &Part<'_>)
    ensures { Adds (place_text (part_of step.now)) (paged_output W.contents writer.old page.old)
        (paged_output W.contents writer.new page.new) }
{
    page.put(writer, b"/");
    put_name(page, writer, &step.name);
    put_item(page, writer, step.item);
}

fn put_name<W: Write>(page: &mut Page, writer: &mut Counted<W>, name: &MemberName<'_>)
    ensures { Adds
        (escape
        (member_text name.now.is_choice (option_map (λ m. m.now) name.now.module)
        name.now.name.now)) (paged_output W.contents writer.old page.old)
        (paged_output W.contents writer.new page.new) }
{
    if name.is_choice {
        page.put(writer, b"(");
        put_qualified(page, writer, name);
        page.put(writer, b")");
    } else {
        put_qualified(page, writer, name);
    }
}

fn put_qualified<W: Write>(page: &mut Page, writer: &mut Counted<W>, name: &MemberName<'_>)
    ensures { Adds (escape (behind (option_map (λ m. m.now) name.now.module) name.now.name.now))
        (paged_output W.contents writer.old page.old)
        (paged_output W.contents writer.new page.new) }
{
    if let Some(module) = name.module {
        put_escaped(page, writer, module.as_bytes());
        page.put(writer, b":");
    }
    put_escaped(page, writer, name.name.as_bytes());
}

fn put_item<W: Write>(page: &mut Page, writer: &mut Counted<W>, item: Option<u64>)
    ensures { Adds (item_text item) (paged_output W.contents writer.old page.old)
        (paged_output W.contents writer.new page.new) }
{
    if let Some(place) = item {
        page.put(writer, b"[");
        page.put(writer, Buffer::new().format(place).as_bytes());
        page.put(writer, b"]");
    }
}
