//! What is said of a document as lines of text, each with the document's label in front.
ghost use Rattle.std.specs.Prelude.{◌≡◌, ◌++◌, ◌==◌, codes, decimal, flat_map, if◌then◌else◌};
ghost use Rattle.yv_data_faults.specs.Line.{line_text};
ghost use Rattle.yv_base_streams.specs.{Stream.{has_failed, stream_inner}, Pages.{Adds, paged_output}};
ghost use Rattle.yv_batch.specs.Label.{label_line, label_of};
ghost use Rattle.yv_documents.specs.{Lines.{ended_line}, InnerReply.{cost_in, cost_text, number_line, reply_lines, verdict_line}};

use crate::costs::put_steps;
use crate::lines::{put_count, put_line};
use crate::reply::Reply;
use std::io::Write;
use yv_base_streams::{Counted, Page};
use yv_batch::{put_label, put_label_line};
use yv_json_lines::{DocumentVerdict, ValidationCost};
use yv_validate::Fault;

// Puts the lines of faults, of the verdict, and of the cost where it is said.
pub(crate) fn put_text_reply<W: Write>(
    page: &mut Page,
    writer: &mut Counted<W>,
    name: &[u8],
    line: Option<u64>,
    reply: &Reply<'_>,
)
    ensures { Adds
        (flat_map (label_line (label_of name.now line))
        (reply_lines reply.now.faults.now reply.now.verdict))
        (paged_output W.contents writer.old page.old)
        (paged_output W.contents writer.new page.new) }
{
    put_label_faults(page, writer, name, line, reply.faults);
    put_label_verdict(page, writer, name, line, reply.verdict);
    put_cost(page, writer, name, line, cost_in(reply.verdict));
}

// Puts the lines of faults.
fn put_label_faults<W: Write>(
    page: &mut Page,
    writer: &mut Counted<W>,
    name: &[u8],
    line: Option<u64>,
    faults: &[Fault],
)
    ensures { Adds
        (flat_map (λ f. label_line (label_of name.now line) (line_text f)) faults.now)
        (paged_output W.contents writer.old page.old)
        (paged_output W.contents writer.new page.new) }
{
    for fault in faults {
        put_label_fault(page, writer, name, line, fault);
    }
}

// Puts the line of a fault. Of a writer that has failed only the label is put, since it gets no
// more.
fn put_label_fault<W: Write>(
    page: &mut Page,
    writer: &mut Counted<W>,
    name: &[u8],
    line: Option<u64>,
    fault: &Fault,
)
    ensures { Adds (label_line (label_of name.now line) (line_text fault.now))
        (paged_output W.contents writer.old page.old)
        (paged_output W.contents writer.new page.new) }
{
    put_label(page, writer, name, line);
    page.put(writer, b": ");
    put_line(page, writer, fault);
}

// Puts the line of a verdict, with the label.
fn put_label_verdict<W: Write>(
    page: &mut Page,
    writer: &mut Counted<W>,
    name: &[u8],
    line: Option<u64>,
    verdict: DocumentVerdict,
)
    ensures { Adds (label_line (label_of name.now line) (verdict_line verdict))
        (paged_output W.contents writer.old page.old)
        (paged_output W.contents writer.new page.new) }
{
    put_label(page, writer, name, line);
    page.put(writer, b": ");
    put_verdict(page, writer, verdict);
}

// Puts the line of a verdict.
fn put_verdict<W: Write>(page: &mut Page, writer: &mut Counted<W>, verdict: DocumentVerdict)
    ensures { Adds (ended_line (verdict_line verdict))
        (paged_output W.contents writer.old page.old)
        (paged_output W.contents writer.new page.new) }
{
    match verdict {
        DocumentVerdict::Validated { faults, .. } => put_number(page, writer, faults),
        DocumentVerdict::TooLarge => page.put(writer, b"data: too large\n"),
        DocumentVerdict::NotJson => page.put(writer, b"data: not JSON\n"),
        DocumentVerdict::CannotRead => page.put(writer, b"data: cannot read\n"),
        DocumentVerdict::OutOfMemory => page.put(writer, b"data: out of memory\n"),
    }
}

// Puts that there are no faults, or how many they are.
fn put_number<W: Write>(page: &mut Page, writer: &mut Counted<W>, faults: u64)
    ensures { Adds (ended_line (number_line faults)) (paged_output W.contents writer.old page.old)
        (paged_output W.contents writer.new page.new) }
{
    if faults == 0 {
        page.put(writer, b"valid\n");
    } else {
        put_count(page, writer, faults);
    }
}

// Puts the line of a cost, where it is said.
fn put_cost<W: Write>(
    page: &mut Page,
    writer: &mut Counted<W>,
    name: &[u8],
    line: Option<u64>,
    cost: Option<ValidationCost>,
)
    ensures { Adds (cost_text (label_of name.now line) cost)
        (paged_output W.contents writer.old page.old)
        (paged_output W.contents writer.new page.new) }
{
    if let Some(cost) = cost {
        put_label(page, writer, name, line);
        page.put(writer, b": ");
        put_steps(page, writer, &cost);
    }
}

// The cost that is said with a verdict.
fn cost_in(verdict: DocumentVerdict) -> Option<ValidationCost>
    ensures { result ≡ cost_in verdict }
{
    match verdict {
        DocumentVerdict::Validated { cost, .. } => cost,
        _ => None,
    }
}
