//! The lines of findings.
ghost use Rattle.std.specs.Prelude.{◌≡◌, ◌++◌, ◌∷◌, ◌+◌, ◌-◌, codes, decimal, map, slice_get};
ghost use Rattle.std.specs.List.{flat_map};
ghost use Rattle.yv_base_positions.specs.{Column.{column}, LineStart.{IsLineStart}};
ghost use Rattle.yv_base_streams.specs.{Files.{file_of}, Pages.{Adds, paged_output}, Stream.{stream_inner}};
ghost use Rattle.yv_documents.specs.Lines.{ended_line};
ghost use Rattle.yv_lint.specs.Rules.{name_of};
ghost use Rattle.yv_run.specs.{FileParts.{bytes_of_file, name_of_file}, FindingLines.{finding_text, findings_end, findings_text}, InnerFindings.{IsMark, text_at}};

use crate::output::put_number_line;
use crate::print::{bytes_at, name_at};
use itoa::Buffer;
use std::io::Write;
use yv_base_positions::{LinePlace, place_of};
use yv_base_streams::{Counted, Input, Page};
use yv_job::OutputForm;
use yv_json_lines::{Position, put_finding_line, put_linted_line};
use yv_lint::Finding;

/// Puts a line for each finding, and how many there are.
pub(crate) fn put_findings<W: Write>(
    page: &mut Page,
    writer: &mut Counted<W>,
    form: OutputForm,
    inputs: &[Input],
    findings: &[Finding],
)
    ensures { Adds (findings_text form (map file_of inputs.now) findings.now)
        (paged_output W.contents writer.old page.old)
        (paged_output W.contents writer.new page.new) }
{
    put_each(page, writer, form, inputs, findings);
    put_end(page, writer, form, findings.len() as u64);
}

// Puts how many findings there are.
fn put_end<W: Write>(page: &mut Page, writer: &mut Counted<W>, form: OutputForm, count: u64)
    ensures { Adds (findings_end form count)
        (paged_output W.contents writer.old page.old)
        (paged_output W.contents writer.new page.new) }
{
    match form {
        OutputForm::Text => put_number_line(page, writer, b"findings: ", count),
        OutputForm::Json => put_linted_line(page, writer, count),
    }
}

// The place of a finding, with the number of its file and its column.
#[derive(Clone, Copy)]
struct Mark {
    file: usize,
    place: LinePlace,
    column: usize,
}

// The mark of a finding, from that of the finding before it.
fn mark_of(inputs: &[Input], earlier: Mark, finding: &Finding) -> Mark
    requires { IsMark (map file_of inputs.now) earlier }
    ensures mark { IsMark (map file_of inputs.now) result }
    ensures column { result.column
        ≡ column (bytes_of_file (slice_get (map file_of inputs.now) finding.now.file))
        finding.now.offset }
{
    let bytes = bytes_at(inputs, finding.file);
    let place = if earlier.file == finding.file {
        place_of(bytes, earlier.place, finding.offset)
    } else {
        place_of(bytes, LinePlace::BEGINNING, finding.offset)
    };
    Mark {
        file: finding.file,
        place,
        column: 1 + place.offset - place.line_start,
    }
}

// Puts a line for each finding. Findings ascend in their files, so this passes over each file once.
fn put_each<W: Write>(
    page: &mut Page,
    writer: &mut Counted<W>,
    form: OutputForm,
    inputs: &[Input],
    findings: &[Finding],
)
    ensures { Adds (flat_map (finding_text form (map file_of inputs.now)) findings.now)
        (paged_output W.contents writer.old page.old)
        (paged_output W.contents writer.new page.new) }
{
    let mut mark = Mark {
        file: 0,
        place: LinePlace::BEGINNING,
        column: 1,
    };
    for finding in findings {
        mark = mark_of(inputs, mark, finding);
        put_finding(page, writer, form, inputs, finding, mark.column as u64);
    }
}

// Puts the line of a finding that is in this column.
fn put_finding<W: Write>(
    page: &mut Page,
    writer: &mut Counted<W>,
    form: OutputForm,
    inputs: &[Input],
    finding: &Finding,
    column: u64,
)
    ensures { Adds (text_at form (map file_of inputs.now) finding.now column)
        (paged_output W.contents writer.old page.old)
        (paged_output W.contents writer.new page.new) }
{
    let name = name_at(inputs, finding.file);
    match form {
        OutputForm::Text => put_text(page, writer, name, finding),
        OutputForm::Json => {
            let position = Position {
                line: finding.line,
                column,
                offset: finding.offset,
            };
            put_finding_line(page, writer, name, position, finding.rule.name());
        }
    }
}

// Puts a finding in the file of this name as a line of text.
fn put_text<W: Write>(page: &mut Page, writer: &mut Counted<W>, name: &str, finding: &Finding)
    ensures { Adds (ended_line (name.now
        ++ (58 ∷ decimal finding.now.line ++ codes ": " ++ name_of finding.now.rule)))
        (paged_output W.contents writer.old page.old)
        (paged_output W.contents writer.new page.new) }
{
    page.put(writer, name.as_bytes());
    page.put(writer, b":");
    page.put(writer, Buffer::new().format(finding.line).as_bytes());
    page.put(writer, b": ");
    page.put(writer, finding.rule.name().as_bytes());
    page.put(writer, b"\n");
}
