//! Bytes on their way to a stream.
ghost use Rattle.std.specs.Prelude.{◌≡◌, ◌<◌, ◌≤◌, ◌++◌, ◌∷◌, [], ℕ, List, Option, false, length, take};
ghost use Rattle.yv_base_streams.specs.{Stream.{has_failed}, Pages.{Adds, IsEmptied, Keeps, paged_output}};

use crate::counted_stream::Counted;
use crate::stream::write_whole;
use std::io::Write;
use std::marker::Model;

/// How many bytes a page holds.
const ROOM: usize = 8192;

/// Bytes that are still to be written to a stream, once the room is used up or the page is turned.
/// It allocates no memory. Contracts see it as these bytes.
#[derive(Drop)]
pub struct Page {
    bytes: [u8; 8192],
    used: usize,
}

impl Model for Page {
    ghost use Rattle.std.specs.Prelude.{ℕ, List, take, ◌≤◌};

    ghost Value = { List ℕ };

    ghost view = { λ p. take p.used p.bytes };

    ghost invariant = { λ p. p.used ≤ 8192 };
}

impl Page {
    /// A page without bytes.
    pub fn new() -> Page
        ensures { result ≡ [] }
    {
        Page {
            bytes: [0; ROOM],
            used: 0,
        }
    }

    // The bytes that are still to be written.
    fn pending_bytes(&self) -> &[u8]
        ensures { result.now ≡ self.now }
    {
        &self.bytes[..self.used]
    }

    // Whether there is no more room.
    fn is_full(&self) -> bool
        ensures { result ≡ false → length self.now < 8192 }
    {
        self.used >= ROOM
    }

    // Puts a byte after the others, where there is room.
    fn push_byte(&mut self, byte: u8)
        ensures { length self.old < 8192 → self.new ≡ self.old ++ byte ∷ [] }
    {
        if self.used < ROOM {
            self.bytes[self.used] = byte;
            self.used += 1;
        }
    }

    // Puts the first of some bytes after the others, as many as there is room for, and answers how
    // many those are.
    fn push(&mut self, bytes: &[u8]) -> usize
        ensures bound { result ≤ length bytes.now }
        ensures some { length self.old < 8192 → 0 < length bytes.now → 0 < result }
        ensures value { self.new ≡ self.old ++ take result bytes.now }
    {
        let count = bytes.len().min(ROOM - self.used);
        self.bytes[self.used..self.used + count].copy_from_slice(&bytes[..count]);
        self.used += count;
        count
    }

    /// Writes what the page holds, unless the writer has failed.
    pub fn turn<W: Write>(&mut self, writer: &mut Counted<W>)
        // The same text is still the one of which the first bytes were written and the page holds
        // the rest.
        ensures pages { Keeps (paged_output W.contents writer.old self.old)
            (paged_output W.contents writer.new self.new) }
        // The page holds nothing, unless the writer has failed.
        ensures empties { IsEmptied (has_failed writer.new) self.new }
    {
        if !writer.has_failed() {
            self.write(writer);
        }
    }

    // Writes what the page holds.
    fn write<W: Write>(&mut self, writer: &mut Counted<W>)
        requires { has_failed writer.old ≡ false }
        ensures pages { Keeps (paged_output W.contents writer.old self.old)
            (paged_output W.contents writer.new self.new) }
        ensures empties { IsEmptied (has_failed writer.new) self.new }
    {
        if write_whole(writer, self.pending_bytes()) {
            self.used = 0;
        }
    }

    /// Puts a byte after the others, as `put` does.
    pub fn put_byte<W: Write>(&mut self, writer: &mut Counted<W>, byte: u8)
        ensures { Adds (byte ∷ []) (paged_output W.contents writer.old self.old)
            (paged_output W.contents writer.new self.new) }
    {
        self.make_room(writer);
        self.push_byte(byte);
    }

    // Sees to it that there is room for a byte more, unless the writer has failed.
    fn make_room<W: Write>(&mut self, writer: &mut Counted<W>)
        ensures pages { Keeps (paged_output W.contents writer.old self.old)
            (paged_output W.contents writer.new self.new) }
        ensures room { has_failed writer.new ≡ false → length self.new < 8192 }
    {
        if self.is_full() {
            self.turn(writer);
        }
    }

    // Puts the first of some bytes after the others, and answers how many: all of them if the
    // writer has failed, since then they are lost.
    fn put_first<W: Write>(&mut self, writer: &mut Counted<W>, bytes: &[u8]) -> usize
        requires { 0 < length bytes.now }
        ensures bound { result ≤ length bytes.now }
        ensures some { 0 < result }
        ensures paged { Adds (take result bytes.now) (paged_output W.contents writer.old self.old)
            (paged_output W.contents writer.new self.new) }
    {
        self.make_room(writer);
        if writer.has_failed() {
            bytes.len()
        } else {
            self.push(bytes)
        }
    }

    /// Puts bytes after the others, and writes each full page. Nothing is put after bytes that were
    /// lost: a writer that has failed gets no more.
    pub fn put<W: Write>(&mut self, writer: &mut Counted<W>, bytes: &[u8])
        ensures { Adds bytes.now (paged_output W.contents writer.old self.old)
            (paged_output W.contents writer.new self.new) }
    {
        let mut count = 0;
        while count < bytes.len() {
            count += self.put_first(writer, &bytes[count..]);
        }
    }
}
