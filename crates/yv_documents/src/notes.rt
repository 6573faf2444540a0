//! What helps a person to fix what was found of a document. It is made after its lines are written,
//! so that it delays nothing.
ghost use Rattle.std.specs.{Prelude.{◌≡◌, ◌++◌, [], IfOk, option_map, string_bytes}, Option.{unwrap_or}};
ghost use Rattle.yv_documents.specs.{Document.{document_view, document_text}, Notes.{NotesReading, TellsDocument}};

use crate::document::Document;
use serde_json::Value;
use std::alloc::{AllocError, Global};
use yv_base_streams::Input;
use yv_job::Job;
use yv_note_faults::{FaultNote, NotedDocument, repeat_lines, sentences};
use yv_note_json::{why_not_json, why_too_large};
use yv_schema_tables::Schema;
use yv_validate::Fault;

/// How many repeated members of a document have a line.
const MOST_REPEATS: usize = 10;

/// The basis of notes on documents: the job that checks them, the files of its modules, and their
/// schema.
#[derive(Clone, Copy)]
pub struct NoteBasis<'n> {
    pub job: &'n Job,
    pub inputs: &'n [Input],
    pub schema: &'n Schema,
}

/// The text of a document, and where it is.
#[derive(Clone, Copy)]
pub struct DocumentSource<'n> {
    /// The name of its file, or `-` for standard input.
    pub name: &'n [u8],
    /// The number of its line, where each line of the file is a document.
    pub line: Option<u64>,
    pub bytes: &'n [u8],
}

/// Why a document of these bytes can't be read, or what is said of its repeated members and of its
/// faults. None if there is nothing to say.
pub fn document_note<'n>(
    alloc: Global,
    basis: &NoteBasis<'n>,
    source: &DocumentSource<'n>,
    document: &'n Document,
    faults: &[Fault],
) -> Result<Option<String>, AllocError>
    // If the document is what the bytes are, the note says of what there are too many, or why they
    // are not JSON, or has lines on repeated members and on the faults.
    ensures { document_view document.now ≡ document_text source.now.bytes.now
        → IfOk result
        (λ note. NotesReading basis.now.job.now.explain source.now.name.now
        (document_view document.now) faults.now source.now.bytes.now
        (option_map string_bytes note)) }
{
    match document {
        Document::TooLarge => Ok(Some(why_too_large(alloc, source.bytes)?)),
        Document::NotJson => why_not_json(alloc, source.bytes),
        Document::Json(value) => {
            let note = fault_note(alloc, basis, source, value, faults)?;
            whole_note(alloc, &note)
        }
    }
}

// All lines of a note, where there are any.
fn whole_note(alloc: Global, note: &FaultNote) -> Result<Option<String>, AllocError>
    ensures { IfOk result
        (λ text. unwrap_or (option_map string_bytes text) []
        ≡ string_bytes note.now.lines ++ string_bytes note.now.rest) }
{
    let mut text = String::from_str(alloc, note.lines.as_str())?;
    text.push_str(note.rest.as_str())?;
    if text.is_empty() {
        Ok(None)
    } else {
        Ok(Some(text))
    }
}

/// What is said of the repeated members and of the faults of a document that was read.
pub(crate) fn fault_note<'n>(
    alloc: Global,
    basis: &NoteBasis<'n>,
    source: &DocumentSource<'n>,
    value: &'n Value,
    faults: &[Fault],
) -> Result<FaultNote, AllocError>
    ensures { IfOk result
        (λ note. TellsDocument basis.now.job.now.explain source.now.name.now faults.now
        (string_bytes note.lines ++ string_bytes note.rest)) }
{
    let document = document_of(source, value);
    let mut text = repeat_lines(alloc, &document, MOST_REPEATS)?;
    let NoteBasis {
        job,
        inputs,
        schema,
    } = *basis;
    let FaultNote { lines, rest } = sentences(alloc, schema, job, inputs, &document, faults)?;
    text.push_str(lines.as_str())?;
    Ok(FaultNote { lines: text, rest })
}

/// The lines on the first members of a document that are repeated, at most so many.
pub(crate) fn repeats_note<'n>(
    alloc: Global,
    source: &DocumentSource<'n>,
    value: &'n Value,
    most: usize,
) -> Result<String, AllocError> {
    repeat_lines(alloc, &document_of(source, value), most)
}

// A document as notes on its faults speak of it.
fn document_of<'n>(source: &DocumentSource<'n>, value: &'n Value) -> NotedDocument<'n>
    ensures { result.name.now ≡ source.now.name.now }
{
    NotedDocument {
        name: source.name,
        first_line: source.line.unwrap_or(1),
        bytes: source.bytes,
        value,
    }
}
