//! A writer over a buffer.
ghost use Rattle.std.specs.{Prelude.{◌≡◌, ◌≤◌, ◌-◌, ◌^◌, ◌++◌, [], length, min, take, drop, Some}, Io.{WritesAtMost}, Io.KnownBytes.{Keeps, WriteAppends}};
ghost use Rattle.yv_call.specs.Front.{front_of};

use crate::log::Log;
use std::io;
use std::io::Write;
use std::snapshot::Snapshot;

// Writes the first of the bytes, as many as there is room for.
fn put_front(buffer: &mut [u8], bytes: &[u8])
    ensures { buffer.new ≡ front_of bytes.now buffer.old }
{
    let count = bytes.len().min(buffer.len());
    buffer[..count].copy_from_slice(&bytes[..count]);
}

// Writes the bytes from a place on, as many as there is room for.
fn put(buffer: &mut [u8], place: usize, bytes: &[u8])
    ensures put { buffer.new ≡ take place buffer.old
        ++ front_of bytes.now (drop place buffer.old) }
    ensures short { length buffer.old ≤ 2 ^ 64 - 1 }
{
    if place < buffer.len() {
        put_front(&mut buffer[place..], bytes);
    }
}

// A buffer, of which a clause may know what it was at first.
#[derive(Drop)]
struct Room<'a> {
    bytes: &'a mut [u8],
}

/// The front of a text in a buffer: a writer that keeps the first bytes that it is given, as many
/// as the buffer has room for, and counts them all. It never fails. `log` is read by clauses only:
/// it is all bytes that were given.
#[derive(Drop)]
pub struct TextFront<'a> {
    buffer: &'a mut [u8],
    origin: Snapshot<Room<'a>>,
    count: usize,
    log: Log,
    ghost named: { buffer.ghost_name ≡ origin.value.bytes.ghost_name },
    ghost sized: { length buffer.now ≡ length origin.value.bytes.now },
    ghost counted: { count ≡ min (length log.bytes) (2 ^ 64 - 1) },
    ghost front: { buffer.now ≡ front_of log.bytes origin.value.bytes.now },
}

impl<'a> TextFront<'a> {
    ghost use Rattle.yv_call.specs.FrontText.{initial_of, name_of, text_of};

    /// No text yet in this buffer.
    pub fn new(buffer: &'a mut [u8]) -> TextFront<'a>
        // There is no text.
        ensures text { text_of result ≡ [] }
        // What the buffer holds at first is what it holds now.
        ensures initial { initial_of result ≡ buffer.old }
        // It is this buffer.
        ensures name { name_of result ≡ buffer.entry.ghost_name }
    {
        let room = Room { bytes: buffer };
        let origin = Snapshot::of(&room);
        let Room { bytes } = room;
        TextFront {
            buffer: bytes,
            origin,
            count: 0,
            log: Log::new(),
        }
    }

    /// How many bytes the text has, also those that there is no room for; 2^64 - 1 if it has more.
    pub fn count(&self) -> usize
        // It is the length of the text, up to 2^64 - 1.
        ensures { result ≡ min (length (text_of self.now)) (2 ^ 64 - 1) }
    {
        self.count
    }

    /// Adds bytes to the text.
    pub fn push(&mut self, bytes: &[u8])
        // The bytes come after the others.
        ensures text { text_of self.new ≡ text_of self.old ++ bytes.now }
        // What the buffer held at first is the same.
        ensures initial { initial_of self.new ≡ initial_of self.old }
        // The buffer is the same.
        ensures name { name_of self.new ≡ name_of self.old }
    {
        let place = self.count;
        let buffer = &mut *self.buffer;
        put(buffer, place, bytes);
        self.count = place.saturating_add(bytes.len());
        self.log.add(bytes);
    }

    /// The buffer with the front of the text.
    pub fn into_buffer(self) -> &'a mut [u8]
        // It is the buffer that it was made of.
        ensures name { result.ghost_name ≡ name_of self.entry }
        // It holds the front of the text, and then what it held at first.
        ensures now { result.now ≡ front_of (text_of self.entry) (initial_of self.entry) }
    {
        self.buffer
    }
}

impl Write for TextFront<'_> {
    ghost use Rattle.std.specs.Prelude.{Some};
    ghost use Rattle.yv_call.specs.FrontText.{mark_of};

    ghost contents = { λ w. Some (mark_of w) };

    fn write(&mut self, bytes: &[u8]) -> io::Result<usize> {
        self.push(bytes);
        Ok(bytes.len())
    }

    fn flush(&mut self) -> io::Result<()> {
        Ok(())
    }
}
