//! What a run writes.
ghost use Rattle.std.specs.{Prelude.{◌≡◌, ◌↔◌, ◌++◌, ℕ, true, false, decimal, take}, Io.KnownBytes.{Appends}};
ghost use Rattle.yv_base_streams.specs.{Stream.{stream_inner, has_failed, IsFresh, FailsOnceAtMost}, Pages.{Adds, paged_output}};
ghost use Rattle.yv_documents.specs.Lines.{ended_line};
ghost use Rattle.yv_job.specs.declared.job.OutputForm.TheVariants as form;
ghost use Rattle.yv_run.specs.{Output.{IsStopped, body_text, compilation_text, count_text, measures_lines, printed_of}, Runs.{Writes}};

use crate::findings::put_findings;
use crate::print::{Body, CompilationResult, Output};
use crate::status::Status;
use itoa::Buffer;
use std::io::Write;
use yv_base_streams::{Counted, Page, write_whole};
use yv_documents::{flush_all, write_checked};
use yv_job::OutputForm;
use yv_json_lines::{put_count_line, put_refusal_line};
use yv_schema_tables::Measures;

/// Writes what was found, has the writer pass it on, and answers how the run ends.
pub(crate) fn write_output<W: Write>(output: &Output<'_>, writer: &mut Counted<W>) -> Status
    requires { IsFresh writer.old }
    ensures writes { Writes (printed_of output.now) result (W.contents (stream_inner writer.old))
        (W.contents (stream_inner writer.new)) }
    ensures fault { result ≡ Status.WriteFault ↔ (has_failed writer.new ≡ true) }
    ensures not_stopped { IsStopped result → ⊥ }
    ensures once { FailsOnceAtMost writer.new }
{
    if write_body(writer, &output.body) {
        output.verdict.status()
    } else {
        Status::WriteFault
    }
}

// Writes a body, and answers whether all was taken and passed on.
fn write_body<W: Write>(writer: &mut Counted<W>, body: &Body<'_>) -> bool
    requires { has_failed writer.old ≡ false }
    ensures ends { result ≡ true
        → Appends (W.contents (stream_inner writer.old)) (W.contents (stream_inner writer.new))
        (body_text body.now) }
    ensures part { (n : ℕ)
        × Appends (W.contents (stream_inner writer.old)) (W.contents (stream_inner writer.new))
        (take n (body_text body.now)) }
    ensures fault { result ≡ false ↔ (has_failed writer.new ≡ true) }
    ensures once { FailsOnceAtMost writer.new }
{
    put_body(writer, body) && flush_all(writer)
}

// Writes a body, and answers whether all was taken.
fn put_body<W: Write>(writer: &mut Counted<W>, body: &Body<'_>) -> bool
    requires { has_failed writer.old ≡ false }
    ensures ends { result ≡ true
        → Appends (W.contents (stream_inner writer.old)) (W.contents (stream_inner writer.new))
        (body_text body.now) }
    ensures part { (n : ℕ)
        × Appends (W.contents (stream_inner writer.old)) (W.contents (stream_inner writer.new))
        (take n (body_text body.now)) }
    ensures fault { result ≡ false ↔ (has_failed writer.new ≡ true) }
    ensures once { FailsOnceAtMost writer.new }
{
    match body {
        Body::Text(text) => write_whole(writer, text.as_bytes()),
        Body::Diagrams(diagrams) => diagrams.write(writer),
        Body::Faults(faults, None) => write_checked(writer, faults.as_slice(), None),
        Body::Faults(faults, Some(end)) => {
            write_checked(writer, faults.as_slice(), Some(end.as_str()))
        }
        Body::Compiled(result) => write_compilation(writer, result),
    }
}

// Writes the result of a compilation, and answers whether all was taken.
fn write_compilation<W: Write>(writer: &mut Counted<W>, compilation: &CompilationResult<'_>) -> bool
    requires { has_failed writer.old ≡ false }
    ensures ends { result ≡ true
        → Appends (W.contents (stream_inner writer.old)) (W.contents (stream_inner writer.new))
        (compilation_text compilation.now) }
    ensures part { (n : ℕ)
        × Appends (W.contents (stream_inner writer.old)) (W.contents (stream_inner writer.new))
        (take n (compilation_text compilation.now)) }
    ensures fault { result ≡ false ↔ (has_failed writer.new ≡ true) }
    ensures once { FailsOnceAtMost writer.new }
{
    let mut page = Page::new();
    put_compilation(&mut page, writer, compilation);
    page.turn(writer);
    !writer.has_failed()
}

// Puts it on a page.
fn put_compilation<W: Write>(
    page: &mut Page,
    writer: &mut Counted<W>,
    compilation: &CompilationResult<'_>,
)
    ensures { Adds (compilation_text compilation.now)
        (paged_output W.contents writer.old page.old)
        (paged_output W.contents writer.new page.new) }
{
    match compilation {
        CompilationResult::Count(OutputForm::Text, nodes, measures) => {
            put_count(page, writer, *nodes, *measures);
        }
        CompilationResult::Count(OutputForm::Json, nodes, measures) => {
            put_count_line(page, writer, *nodes, *measures);
        }
        CompilationResult::Refusal(file, position, code) => {
            put_refusal_line(page, writer, file.as_str(), *position, code);
        }
        CompilationResult::Findings(form, inputs, findings) => {
            put_findings(page, writer, *form, inputs, findings);
        }
    }
}

// Puts the lines of how many nodes there are, and of measures where there are some.
fn put_count<W: Write>(
    page: &mut Page,
    writer: &mut Counted<W>,
    nodes: u64,
    measures: Option<Measures>,
)
    ensures { Adds (count_text form.Text nodes measures)
        (paged_output W.contents writer.old page.old)
        (paged_output W.contents writer.new page.new) }
{
    put_number_line(page, writer, b"nodes: ", nodes);
    if let Some(measures) = measures {
        put_measures(page, writer, measures);
    }
}

// Puts a line for each measure.
fn put_measures<W: Write>(page: &mut Page, writer: &mut Counted<W>, measures: Measures)
    ensures { Adds (measures_lines measures) (paged_output W.contents writer.old page.old)
        (paged_output W.contents writer.new page.new) }
{
    put_number_line(page, writer, b"m: ", measures.m);
    put_number_line(page, writer, b"u: ", measures.u);
    put_number_line(page, writer, b"w: ", measures.w);
}

/// Puts a line with a word and a number.
pub(crate) fn put_number_line<W: Write>(
    page: &mut Page,
    writer: &mut Counted<W>,
    word: &[u8],
    number: u64,
)
    ensures { Adds (ended_line (word.now ++ decimal number))
        (paged_output W.contents writer.old page.old)
        (paged_output W.contents writer.new page.new) }
{
    page.put(writer, word);
    page.put(writer, Buffer::new().format(number).as_bytes());
    page.put(writer, b"\n");
}
