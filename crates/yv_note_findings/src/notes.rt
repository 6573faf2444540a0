//! The notes on findings.
ghost use Rattle.std.specs.Prelude.{◌≡◌, ◌≤◌, ◌*◌, true, length, map, slice_get, string_bytes, IfOk};
ghost use Rattle.yv_base_streams.specs.Files.{file_of};
ghost use Rattle.yv_note_text.specs.Clear.{is_clear};
ghost use Rattle.yv_note_findings.specs.Notes.{AreNotes, IsNote, bytes_at};

use crate::file_facts::FileFacts;
use crate::sentences::sentence;
use std::alloc::{AllocError, Global};
use yv_base_streams::Input;
use yv_lint::Finding;
use yv_note_lines::push_line;
use yv_note_text::excerpt;
use yv_text_statement::Statement;

/// A note on each finding, in their order: the line of its file with a caret under the place, at
/// most 72 bytes on either side, and below it the rule's name and a sentence. The sentence says
/// what is wrong at the statement and how to mend it. The roots are those of the inputs, in their
/// order, as `lint` was given them.
///
/// The time is that of one pass over the statements at the top of each file, and for each finding
/// that of a search for its statement by halves and of a look at its block.
pub fn findings_note(
    alloc: Global,
    inputs: &[Input],
    roots: &[Statement<'_>],
    findings: &[Finding],
) -> Result<String, AllocError>
    // It is a note on each finding, in their order.
    ensures notes { IfOk result
        (λ text. AreNotes (map file_of inputs.now) findings.now (string_bytes text)) }
    // No character controls a terminal.
    ensures clear { IfOk result (λ text. is_clear (string_bytes text) ≡ true) }
    // A note has at most 1,700 bytes.
    ensures short { IfOk result
        (λ text. length (string_bytes text) ≤ 1700 * length findings.now) }
{
    let files = FileFacts::of_roots(alloc, roots)?;
    notes_on(alloc, inputs, files.as_slice(), findings)
}

// The notes on findings, one after the other.
fn notes_on(
    alloc: Global,
    inputs: &[Input],
    files: &[FileFacts<'_, '_>],
    findings: &[Finding],
) -> Result<String, AllocError>
    ensures { IfOk result
        (λ text. AreNotes (map file_of inputs.now) findings.now (string_bytes text)) }
{
    let mut text = String::new(alloc);
    for finding in findings {
        let note = note(alloc, inputs, files, finding)?;
        text.push_str(note.as_str())?;
    }
    Ok(text)
}

// The note on a finding.
fn note(
    alloc: Global,
    inputs: &[Input],
    files: &[FileFacts<'_, '_>],
    finding: &Finding,
) -> Result<String, AllocError>
    ensures { IfOk result
        (λ text. IsNote (bytes_at (slice_get (map file_of inputs.now) finding.now.file))
        finding.now (string_bytes text)) }
{
    let sentence = sentence(alloc, files.get(finding.file), finding)?;
    note_with(
        alloc,
        bytes_at(inputs, finding.file),
        finding,
        sentence.as_str(),
    )
}

// The bytes of the file of this number; none, where there is none.
fn bytes_at(inputs: &[Input], file: usize) -> &[u8]
    ensures { result.now ≡ bytes_at (slice_get (map file_of inputs.now) file) }
{
    match inputs.get(file) {
        Some(input) => input.bytes.as_slice(),
        None => &[],
    }
}

// The note on a finding in a file with these bytes, with this sentence.
fn note_with(
    alloc: Global,
    bytes: &[u8],
    finding: &Finding,
    sentence: &str,
) -> Result<String, AllocError>
    ensures { IfOk result (λ text. IsNote bytes.now finding.now (string_bytes text)) }
{
    let place = (finding.offset as usize).min(bytes.len());
    let mut text = excerpt(alloc, bytes, place)?;
    text.push_str(finding.rule.name())?;
    text.push_str(": ")?;
    push_line(&mut text, sentence)?;
    Ok(text)
}
