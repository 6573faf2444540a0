//! A call that leaves its output and its note in a buffer.
ghost use Rattle.std.specs.Prelude.{◌≡◌, map};
ghost use Rattle.yv_call_run.specs.{Calls.{CallInput}, Fills.{Fills}};

use crate::answers::answer;
use std::alloc::Global;
use yv_base_streams::Counted;
use yv_call::TextFront;

/// What was put into a filled buffer: the exit status, and how long the output and the note are,
/// where 2^64 - 1 stands for more.
#[derive(Clone, Copy, PartialEq, Eq, Debug)]
pub struct Filled {
    pub status: u8,
    pub output_length: usize,
    pub note_length: usize,
}

/// A buffer that was filled.
#[derive(Drop)]
pub(crate) struct FilledBuffer<'a> {
    pub(crate) buffer: &'a mut [u8],
    pub(crate) filled: Filled,
}

// Fills a buffer, and gives it back.
fn fill_front<'a>(
    alloc: Global,
    words: &[&[u8]],
    files: &[&[u8]],
    documents: &[&[u8]],
    buffer: &'a mut [u8],
) -> FilledBuffer<'a>
    ensures name { result.buffer.ghost_name ≡ buffer.entry.ghost_name }
    ensures fills { (given : CallInput) → given.words ≡ map (λ w. w.now) words.now
        → given.files ≡ map (λ f. f.now) files.now
        → given.documents ≡ map (λ d. d.now) documents.now
        → Fills given result.filled.status result.filled.output_length result.filled.note_length
        buffer.old result.buffer.now }
{
    let mut writer = Counted::new(TextFront::new({ buffer }));
    let answered = answer(alloc, words, files, documents, &mut writer);
    let mut front = writer.into_inner();
    let output_length = front.count();
    let note_length = answered.note.push(&mut front);
    FilledBuffer {
        buffer: front.into_buffer(),
        filled: Filled {
            status: answered.status,
            output_length,
            note_length,
        },
    }
}

/// Does what `answer` does, and puts the output and right after it the note into a buffer, as far
/// as there is room.
pub fn fill(
    alloc: Global,
    words: &[&[u8]],
    files: &[&[u8]],
    documents: &[&[u8]],
    buffer: &mut [u8],
) -> Filled
    // They are those of the call.
    ensures { (given : CallInput) → given.words ≡ map (λ w. w.now) words.now
        → given.files ≡ map (λ f. f.now) files.now
        → given.documents ≡ map (λ d. d.now) documents.now
        → Fills given result.status result.output_length result.note_length buffer.old buffer.new }
{
    fill_front(alloc, words, files, documents, buffer).filled
}
