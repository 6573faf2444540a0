//! What is said of a document, and how it is written.
ghost use Rattle.std.specs.{Prelude.{◌≡◌, ◌↔◌, ◌++◌, [], ℕ, true, false, None, IfSome, flat_map, take}, Io.KnownBytes.{Appends}};
ghost use Rattle.yv_base_streams.specs.{Stream.{has_failed, stream_inner, FailsOnceAtMost}, Pages.{Adds, paged_output}};
ghost use Rattle.yv_batch.specs.Level.{level_number};
ghost use Rattle.yv_documents.specs.InnerReply.{text_of, verdict_level};

use crate::json_reply::put_json_reply;
use crate::output::flush_all;
use crate::text_reply::put_text_reply;
use std::io::Write;
use yv_base_streams::{Counted, Page};
use yv_batch::Level;
use yv_job::OutputForm;
use yv_json_lines::DocumentVerdict;
use yv_validate::Fault;

// What is said of a document: its faults, where it was validated, and the verdict on it.
#[derive(Clone, Copy)]
pub(crate) struct Reply<'a> {
    pub(crate) faults: &'a [Fault],
    pub(crate) verdict: DocumentVerdict,
}

impl Reply<'_> {
    // What is said of a document that was not validated.
    pub(crate) fn without_faults(verdict: DocumentVerdict) -> Reply<'static>
        ensures faults { result.faults.now ≡ [] }
        ensures verdict { result.verdict ≡ verdict }
    {
        Reply {
            faults: &[],
            verdict,
        }
    }

    // How good the document is.
    fn level(&self) -> Level
        ensures { level_number result ≡ verdict_level self.now.verdict }
    {
        match self.verdict {
            DocumentVerdict::Validated { faults: 0, .. } => Level::Valid,
            DocumentVerdict::Validated { .. } => Level::Faulty,
            DocumentVerdict::TooLarge | DocumentVerdict::NotJson => Level::BadInput,
            DocumentVerdict::CannotRead | DocumentVerdict::OutOfMemory => Level::Unread,
        }
    }
}

// Writes what is said of a document of this name and line in a form, and answers how good it is:
// `None` if the writer failed.
pub(crate) fn write_reply<W: Write>(
    writer: &mut Counted<W>,
    form: OutputForm,
    name: &[u8],
    line: Option<u64>,
    reply: &Reply<'_>,
) -> Option<Level>
    requires { has_failed writer.old ≡ false }
    ensures level { IfSome result (λ l. level_number l ≡ verdict_level reply.now.verdict) }
    ensures ends { IfSome result (λ _.
        Appends (W.contents (stream_inner writer.old)) (W.contents (stream_inner writer.new))
        (text_of form name.now line reply.now)) }
    ensures part { (n : ℕ)
        × Appends (W.contents (stream_inner writer.old)) (W.contents (stream_inner writer.new))
        (take n (text_of form name.now line reply.now)) }
    ensures fault { result ≡ None ↔ (has_failed writer.new ≡ true) }
    ensures once { FailsOnceAtMost writer.new }
{
    if write_text(writer, form, name, line, reply) && flush_all(writer) {
        Some(reply.level())
    } else {
        None
    }
}

// Writes it, and answers whether all was taken.
fn write_text<W: Write>(
    writer: &mut Counted<W>,
    form: OutputForm,
    name: &[u8],
    line: Option<u64>,
    reply: &Reply<'_>,
) -> bool
    requires { has_failed writer.old ≡ false }
    ensures ends { result ≡ true
        → Appends (W.contents (stream_inner writer.old)) (W.contents (stream_inner writer.new))
        (text_of form name.now line reply.now) }
    ensures part { (n : ℕ)
        × Appends (W.contents (stream_inner writer.old)) (W.contents (stream_inner writer.new))
        (take n (text_of form name.now line reply.now)) }
    ensures fault { result ≡ false ↔ (has_failed writer.new ≡ true) }
    ensures once { FailsOnceAtMost writer.new }
{
    let mut page = Page::new();
    put_reply(&mut page, writer, form, name, line, reply);
    page.turn(writer);
    !writer.has_failed()
}

// Puts it on a page.
fn put_reply<W: Write>(
    page: &mut Page,
    writer: &mut Counted<W>,
    form: OutputForm,
    name: &[u8],
    line: Option<u64>,
    reply: &Reply<'_>,
)
    ensures { Adds (text_of form name.now line reply.now)
        (paged_output W.contents writer.old page.old)
        (paged_output W.contents writer.new page.new) }
{
    match form {
        OutputForm::Text => put_text_reply(page, writer, name, line, reply),
        OutputForm::Json => put_json_reply(page, writer, name, line, reply),
    }
}
