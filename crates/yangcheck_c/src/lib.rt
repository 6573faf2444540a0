//! The library for callers in C: one call, over bytes in memory, which `include/yangcheck.h`
//! describes.
#![tactic(auto)]

ghost use Rattle.std.specs.Prelude.{◌≡◌};
ghost use Rattle.yv_call_run.specs.BufferCalls.{CallBuffers, Leaves};

use std::alloc::Global;
use yv_call_run::{PartBuffer, answer_into};

/// Does what the words ask for with what is in the files and the documents, and puts the output and
/// right after it the note into the buffer, as far as both fit. Answers the exit status. The
/// lengths, in bytes, are also of what does not fit; they are 2^64 - 1 if they are greater.
#[unsafe(no_mangle)]
pub extern "C" fn yangcheck_run(
    alloc: Global,
    words: &[u8],
    word_ends: &[usize],
    files: &[u8],
    file_ends: &[usize],
    documents: &[u8],
    document_ends: &[usize],
    buffer: &mut [u8],
    output_length: &mut usize,
    note_length: &mut usize,
) -> u8
    // The status, the lengths and the buffer are those of the call.
    ensures { (b : CallBuffers) → b.words ≡ words.now → b.word_ends ≡ word_ends.now
        → b.files ≡ files.now → b.file_ends ≡ file_ends.now
        → b.documents ≡ documents.now → b.document_ends ≡ document_ends.now
        → Leaves b result output_length.new note_length.new buffer.old buffer.new }
{
    let words = PartBuffer {
        bytes: words,
        ends: word_ends,
    };
    let files = PartBuffer {
        bytes: files,
        ends: file_ends,
    };
    let documents = PartBuffer {
        bytes: documents,
        ends: document_ends,
    };
    let filled = answer_into(alloc, words, files, documents, buffer);
    *output_length = filled.output_length;
    *note_length = filled.note_length;
    filled.status
}
