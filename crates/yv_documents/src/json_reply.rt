//! What is said of a document as lines of JSON.
ghost use Rattle.std.specs.Prelude.{◌≡◌, ◌++◌, flat_map};
ghost use Rattle.yv_base_streams.specs.{Stream.{has_failed, stream_inner}, Pages.{Adds, paged_output}};
ghost use Rattle.yv_json_lines.specs.Values.{document_value, json_line};
ghost use Rattle.yv_documents.specs.{DocumentResults.{results_text}, InnerReply.{fault_result}};

use crate::reply::Reply;
use std::io::Write;
use yv_base_streams::{Counted, Page};
use yv_json_lines::{put_document_line, put_fault_line};
use yv_validate::Fault;

// Puts the lines of faults, and of the verdict.
pub(crate) fn put_json_reply<W: Write>(
    page: &mut Page,
    writer: &mut Counted<W>,
    name: &[u8],
    line: Option<u64>,
    reply: &Reply<'_>,
)
    ensures { Adds (results_text name.now line reply.now.faults.now reply.now.verdict)
        (paged_output W.contents writer.old page.old)
        (paged_output W.contents writer.new page.new) }
{
    put_faults(page, writer, name, line, reply.faults);
    put_document_line(page, writer, name, line, reply.verdict);
}

// Puts the lines of faults.
fn put_faults<W: Write>(
    page: &mut Page,
    writer: &mut Counted<W>,
    name: &[u8],
    line: Option<u64>,
    faults: &[Fault],
)
    ensures { Adds (flat_map (λ f. fault_result name.now line f) faults.now)
        (paged_output W.contents writer.old page.old)
        (paged_output W.contents writer.new page.new) }
{
    for fault in faults {
        put_result(page, writer, name, line, fault);
    }
}

// Puts the line of a fault.
fn put_result<W: Write>(
    page: &mut Page,
    writer: &mut Counted<W>,
    name: &[u8],
    line: Option<u64>,
    fault: &Fault,
)
    ensures { Adds (fault_result name.now line fault.now)
        (paged_output W.contents writer.old page.old)
        (paged_output W.contents writer.new page.new) }
{
    put_fault_line(page, writer, name, line, fault);
}
