//! Texts that a reader gives, each ended by a byte.
ghost use Rattle.std.specs.{Prelude.{◌≡◌, ◌≤◌, ◌<◌, [], ℕ, List, true, false, Ok, length, take, IfErr, IfOk, IsErrOf, MatchOption, OnErr, OnOk, Option}, Io.KnownBytes.{Consumes, IsAtEnd, Keeps}};
ghost use Rattle.yv_base_streams.specs.Stream.{stream_inner};

use memchr::memchr;
use std::alloc::{AllocError, Global};
use std::io::Read;
use yv_base_streams::{Counted, InputFault};

/// How many bytes one read may give.
const CHUNK: usize = 8192;

/// How often a read is tried: more often than interruptions are borne.
const MOST_TRIES: usize = 2_000;

/// Texts of a reader, each ended by a byte: what comes after the last such byte is one too, where
/// it isn't empty.
#[derive(Drop)]
pub struct Pieces<R> {
    reader: Counted<R>,
    chunk: [u8; 8192],
    from: usize,
    to: usize,
    ghost ordered: { from ≤ to },
    ghost within: { to ≤ 8192 },
}

// Reads bytes into a chunk, and answers how many: none at the end.
fn read_chunk<R: Read>(reader: &mut Counted<R>, chunk: &mut [u8]) -> Result<usize, InputFault>
    requires { 0 < length chunk.old }
    ensures bound { IfOk result (λ n. n ≤ length chunk.new) }
    ensures gives { IfOk result (λ n. Consumes (R.remaining (stream_inner reader.old))
        (R.remaining (stream_inner reader.new)) (take n chunk.new)) }
    ensures end { IfOk result (λ n. n ≡ 0 → IsAtEnd (R.remaining (stream_inner reader.new))) }
    ensures fault { IfErr result (λ e. e ≡ InputFault.Read) }
{
    for _ in 0..MOST_TRIES {
        if let Ok(count) = reader.read(chunk) {
            return Ok(count);
        }
        if reader.has_failed() {
            return Err(InputFault::Read);
        }
    }
    Err(InputFault::Read)
}

impl<R: Read> Pieces<R> {
    ghost use Rattle.yv_batch.specs.{Pieces.{PassesOne, TakesPiece}, InnerPieces.{HasMore, IsEnd, IsKept, IsPassed, IsPlace, IsTaken, IsUnderway}, PiecesLeft.{left_of, pending_of}};

    /// The texts of what a reader gives.
    pub fn new(reader: Counted<R>) -> Pieces<R>
        ensures { left_of R.remaining result ≡ R.remaining (stream_inner reader) }
    {
        Pieces {
            reader,
            chunk: [0; CHUNK],
            from: 0,
            to: 0,
        }
    }

    // The bytes of the chunk that are still to come.
    fn bytes_at_hand(&self) -> &[u8]
        ensures { result.now ≡ pending_of self.now }
    {
        &self.chunk[self.from..self.to]
    }

    // Sees to it that some bytes are at hand, and answers whether there are some: else the reader
    // is at its end.
    fn fill(&mut self) -> Result<bool, InputFault>
        ensures keeps { OnOk result
            (Keeps (left_of R.remaining self.old) (left_of R.remaining self.new)) }
        ensures end { result ≡ Ok false → IsAtEnd (left_of R.remaining self.new) }
        ensures more { result ≡ Ok true → 0 < length (pending_of self.new) }
        ensures fault { IfErr result (λ e. e ≡ InputFault.Read) }
    {
        if self.from < self.to {
            return Ok(true);
        }
        let count = read_chunk(&mut self.reader, &mut self.chunk)?;
        self.from = 0;
        self.to = count;
        Ok(count > 0)
    }

    // How many of the bytes at hand come before one that ends a text.
    fn count_before(&self, end: u8) -> usize
        ensures { IsPlace end (pending_of self.now) result }
    {
        match memchr(end, self.bytes_at_hand()) {
            Some(place) => place,
            None => self.bytes_at_hand().len(),
        }
    }

    // Passes over so many of the bytes at hand.
    fn advance(&mut self, count: usize)
        requires { count ≤ length (pending_of self.old) }
        ensures { Consumes (left_of R.remaining self.old) (left_of R.remaining self.new)
            (take count (pending_of self.old)) }
    {
        self.from += count;
    }

    // Passes over so many of the bytes at hand, which end there or are followed by one that ends a
    // text, and over this one. The answer says whether there is one.
    fn pass_part(&mut self, end: u8, count: usize) -> bool
        requires { IsPlace end (pending_of self.old) count }
        ensures { IsPassed end (left_of R.remaining self.old) (left_of R.remaining self.new)
            (take count (pending_of self.old)) result }
    {
        let is_whole = count < self.bytes_at_hand().len();
        if is_whole {
            self.advance(count + 1);
        } else {
            self.advance(count);
        }
        is_whole
    }

    // Passes over the rest of a text.
    fn pass_rest(&mut self, end: u8) -> Result<(), InputFault>
        ensures passes { OnOk result ((start : Option (List ℕ)) (passed : List ℕ)
            → IsUnderway end start (left_of R.remaining self.old) passed → HasMore start
            → PassesOne end start (left_of R.remaining self.new)) }
        ensures fault { IfErr result (λ e. e ≡ InputFault.Read) }
    {
        for _ in 0..u64::MAX {
            if !self.fill()? {
                return Ok(());
            }
            let count = self.count_before(end);
            if self.pass_part(end, count) {
                return Ok(());
            }
        }
        Err(InputFault::Read)
    }

    // Passes over the bytes at hand up to the end of a text, and answers whether it is there. They
    // are kept, as far as there is room for them.
    fn keep_part(&mut self, end: u8, limit: usize, front: &mut Vec<u8>) -> Result<bool, AllocError>
        ensures gives { IfOk result (λ is_whole. (start : Option (List ℕ))
            → IsKept end limit start (left_of R.remaining self.old) front.old.items
            → IsTaken end limit start (left_of R.remaining self.new) front.new.items is_whole) }
        ensures same { OnErr result
            (Keeps (left_of R.remaining self.old) (left_of R.remaining self.new)) }
    {
        let count = self.count_before(end);
        let room = limit.saturating_sub(front.len());
        front.extend_from_slice(&self.bytes_at_hand()[..count.min(room)])?;
        Ok(self.pass_part(end, count))
    }

    /// The first bytes of the next text, of which at most so many are wanted: none at the end.
    /// After `NoMemory` the text was passed over. After `Read` the reader is to be given up.
    pub(crate) fn next(
        &mut self,
        alloc: Global,
        end: u8,
        limit: usize,
    ) -> Result<Option<Vec<u8>>, InputFault>
        requires { 0 < limit }
        ensures gives { IfOk result (λ o. MatchOption o
            (IsEnd (left_of R.remaining self.old) (left_of R.remaining self.new))
            (λ v. TakesPiece end limit (left_of R.remaining self.old)
            (left_of R.remaining self.new) v.items)) }
        ensures refused { IsErrOf result InputFault.NoMemory
            → PassesOne end (left_of R.remaining self.old) (left_of R.remaining self.new) }
    {
        let mut front = Vec::new(alloc);
        for _ in 0..u64::MAX {
            if !self.fill()? {
                return Ok(some_piece(front));
            }
            match self.keep_part(end, limit, &mut front) {
                Ok(true) => return Ok(Some(front)),
                Ok(false) => {}
                Err(_) => return Err(self.pass_over(end)),
            }
        }
        Err(InputFault::Read)
    }

    // Passes over a text for which memory was refused, or its rest.
    fn pass_over(&mut self, end: u8) -> InputFault
        ensures { result ≡ InputFault.NoMemory → (start : Option (List ℕ)) (passed : List ℕ)
            → IsUnderway end start (left_of R.remaining self.old) passed → HasMore start
            → PassesOne end start (left_of R.remaining self.new) }
    {
        match self.pass_rest(end) {
            Ok(()) => InputFault::NoMemory,
            Err(_) => InputFault::Read,
        }
    }
}

// What comes after the last byte that ends a text is one where it isn't empty.
fn some_piece(front: Vec<u8>) -> Option<Vec<u8>>
    ensures { MatchOption result (front.items ≡ [])
        (λ v. (v.items ≡ front.items) × (0 < length v.items)) }
{
    if front.is_empty() { None } else { Some(front) }
}
