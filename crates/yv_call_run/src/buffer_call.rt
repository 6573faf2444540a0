//! A call whose words, files and documents lie in buffers.
ghost use Rattle.std.specs.Prelude.{◌≡◌, ◌-◌, ◌^◌, ◌++◌, ◌∷◌, [], ◌⊎◌, length, min, map, IfOk, IsOkAnd, MatchOption};
ghost use Rattle.yv_call.specs.Front.{front_of};
ghost use Rattle.yv_call_run.specs.{BufferCalls.{CallBuffers, HasInput, HasNoInput, Leaves}, Calls.{CallInput}, Fills.{fitted_length}, NoteParts.{note_text}};

use crate::buffer_fill::{Filled, FilledBuffer, fill};
use crate::note::Note;
use std::alloc::{AllocError, Global};
use yv_call::{TextFront, parts_of};

const BAD_ENDS: &str = "yangcheck: ends of parts fall, or are past the end of their buffer";

const NO_MEMORY: &str = "yangcheck: out of memory";

/// Parts that lie in a buffer one after the other, and the places where they end.
#[derive(Clone, Copy)]
pub struct PartBuffer<'a> {
    pub bytes: &'a [u8],
    pub ends: &'a [usize],
}

// The parts of words, files and documents.
#[derive(Drop)]
struct CallParts<'a> {
    words: Vec<&'a [u8]>,
    files: Vec<&'a [u8]>,
    documents: Vec<&'a [u8]>,
}

// The parts in three buffers: none if the ends of one fall, or lie past it.
fn call_parts<'a>(
    alloc: Global,
    words: PartBuffer<'a>,
    files: PartBuffer<'a>,
    documents: PartBuffer<'a>,
) -> Result<Option<CallParts<'a>>, AllocError>
    ensures { (b : CallBuffers) → b.words ≡ words.entry.bytes.now
        → b.word_ends ≡ words.entry.ends.now
        → b.files ≡ files.entry.bytes.now → b.file_ends ≡ files.entry.ends.now
        → b.documents ≡ documents.entry.bytes.now → b.document_ends ≡ documents.entry.ends.now
        → IfOk result (λ parts. MatchOption parts (HasNoInput b)
        (λ p. (given : CallInput) → given.words ≡ map (λ w. w.now) p.words.items
        → given.files ≡ map (λ f. f.now) p.files.items
        → given.documents ≡ map (λ d. d.now) p.documents.items → HasInput b given)) }
{
    let Some(words) = parts_of(alloc, words.bytes, words.ends)? else {
        return Ok(None);
    };
    let Some(files) = parts_of(alloc, files.bytes, files.ends)? else {
        return Ok(None);
    };
    let Some(documents) = parts_of(alloc, documents.bytes, documents.ends)? else {
        return Ok(None);
    };
    Ok(Some(CallParts {
        words,
        files,
        documents,
    }))
}

// Puts a line into a buffer, and gives it back.
fn line_front<'a>(
    alloc: Global,
    status: u8,
    line: &'static str,
    buffer: &'a mut [u8],
) -> FilledBuffer<'a>
    ensures name { result.buffer.ghost_name ≡ buffer.entry.ghost_name }
    ensures status { result.filled.status ≡ status }
    ensures output { result.filled.output_length ≡ 0 }
    ensures note { result.filled.note_length ≡ fitted_length (line.now ++ 10 ∷ []) }
    ensures fills { result.buffer.now ≡ front_of (line.now ++ 10 ∷ []) buffer.old }
{
    let mut front = TextFront::new({ buffer });
    let note_length = Note::of_line(alloc, line).push(&mut front);
    FilledBuffer {
        buffer: front.into_buffer(),
        filled: Filled {
            status,
            output_length: 0,
            note_length,
        },
    }
}

// Puts a line into a buffer, without an output.
fn put_line(alloc: Global, status: u8, line: &'static str, buffer: &mut [u8]) -> Filled
    ensures status { result.status ≡ status }
    ensures output { result.output_length ≡ 0 }
    ensures note { result.note_length ≡ fitted_length (line.now ++ 10 ∷ []) }
    ensures fills { buffer.new ≡ front_of (line.now ++ 10 ∷ []) buffer.old }
{
    line_front(alloc, status, line, buffer).filled
}

/// Does what `answer` does with the words, files and documents in these buffers, and puts the
/// output and right after it the note into a buffer, as far as there is room.
pub fn answer_into(
    alloc: Global,
    words: PartBuffer<'_>,
    files: PartBuffer<'_>,
    documents: PartBuffer<'_>,
    buffer: &mut [u8],
) -> Filled
    // They are those of what is in the buffers.
    ensures { (b : CallBuffers) → b.words ≡ words.entry.bytes.now
        → b.word_ends ≡ words.entry.ends.now
        → b.files ≡ files.entry.bytes.now → b.file_ends ≡ files.entry.ends.now
        → b.documents ≡ documents.entry.bytes.now → b.document_ends ≡ documents.entry.ends.now
        → Leaves b result.status result.output_length result.note_length buffer.old buffer.new }
{
    match call_parts(alloc, words, files, documents) {
        Ok(Some(parts)) => fill(alloc, &parts.words, &parts.files, &parts.documents, buffer),
        Ok(None) => put_line(alloc, 2, BAD_ENDS, buffer),
        Err(_) => put_line(alloc, 3, NO_MEMORY, buffer),
    }
}
