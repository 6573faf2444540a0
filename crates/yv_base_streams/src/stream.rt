//! Reading a stream to its end, and writing a text whole.
ghost use Rattle.std.specs.{Prelude.{◌≡◌, ◌≤◌, ◌<◌, ◌+◌, ◌↔◌, ℕ, true, false, Ok, Err, length, take, drop, vec_len, IfOk, IfSome, OnOk, IsErrOf}, Io.{StartsWith}, Io.KnownBytes.{Appends, Consumes, IsAtEnd}};
ghost use Rattle.yv_base_streams.specs.Stream.{stream_inner, stream_interrupts, has_failed, FailsOnceAtMost, TakesAtMost};

use crate::counted_stream::Counted;
use std::alloc::{AllocError, Global};
use std::io::{Read, Write};
use thiserror::Error;

/// Why an input could not be had.
#[derive(Debug, Drop, Error)]
pub enum InputFault {
    /// The reader failed: a fault, or more interruptions than are borne.
    #[error("cannot read")]
    Read,
    #[error("out of memory")]
    NoMemory,
}

impl From<AllocError> for InputFault {
    ghost use Rattle.std.specs.Prelude.{◌≡◌};
    ghost use Rattle.yv_base_streams.specs.declared.stream.InputFault.TheVariants.{NoMemory};

    ghost from_gives = { λ _ fault. fault ≡ NoMemory };

    fn from(_error: AllocError) -> InputFault {
        InputFault::NoMemory
    }
}

/// How many bytes one read may give: enough that a large file takes few calls of the system.
const CHUNK: usize = 32_768;

/// The bytes that the reader gives until its end, or the first `limit` of them, and no more is
/// taken from it.
pub fn read_up_to<R: Read>(
    alloc: Global,
    limit: usize,
    reader: &mut Counted<R>,
) -> Result<Vec<u8>, InputFault>
    // The reader has not failed.
    requires { has_failed reader.old ≡ false }
    // Just the bytes that are returned are consumed.
    ensures gives { IfOk result (λ v. Consumes (R.remaining (stream_inner reader.old))
        (R.remaining (stream_inner reader.new)) v.items) }
    // There are at most `limit` of them.
    ensures bound { IfOk result (λ v. length v.items ≤ limit) }
    // If there are fewer, the reader is at its end.
    ensures end { IfOk result (λ v. length v.items < limit
        → IsAtEnd (R.remaining (stream_inner reader.new))) }
    // `Read` is returned exactly if the reader has failed.
    ensures fault { IsErrOf result InputFault.Read ↔ (has_failed reader.new ≡ true) }
    // At most one call of the reader failed in a way that is not tolerated, and none came after it.
    ensures once { FailsOnceAtMost reader.new }
    // At most `limit` bytes are consumed from the reader, whatever is returned.
    ensures takes { TakesAtMost limit (R.remaining (stream_inner reader.old))
        (R.remaining (stream_inner reader.new)) }
{
    let mut bytes = Vec::new(alloc);
    while bytes.len() < limit {
        let room = limit - bytes.len();
        if !read_some(reader, &mut bytes, room)? {
            break;
        }
    }
    Ok(bytes)
}

// One read, of at most `room` bytes, and whether more may come.
fn read_some<R: Read>(
    reader: &mut Counted<R>,
    bytes: &mut Vec<u8>,
    room: usize,
) -> Result<bool, InputFault>
    requires room { 0 < room }
    requires works { has_failed reader.old ≡ false }
    ensures fits { OnOk result (vec_len bytes.new ≤ vec_len bytes.old + room) }
    ensures front { StartsWith bytes.new.items bytes.old.items }
    ensures gives { OnOk result (Consumes (R.remaining (stream_inner reader.old))
        (R.remaining (stream_inner reader.new)) (drop (length bytes.old.items) bytes.new.items)) }
    ensures end { result ≡ Ok false → IsAtEnd (R.remaining (stream_inner reader.new)) }
    ensures moves { result ≡ Ok true → vec_len bytes.old + stream_interrupts reader.old
        < vec_len bytes.new + stream_interrupts reader.new }
    ensures grows { stream_interrupts reader.old ≤ stream_interrupts reader.new }
    ensures fault { IsErrOf result InputFault.Read ↔ (has_failed reader.new ≡ true) }
    ensures once { FailsOnceAtMost reader.new }
    ensures takes { TakesAtMost room (R.remaining (stream_inner reader.old))
        (R.remaining (stream_inner reader.new)) }
{
    let mut chunk = [0u8; CHUNK];
    let most = room.min(CHUNK);
    match reader.read(&mut chunk[..most]) {
        Ok(0) => Ok(false),
        Ok(n) => {
            bytes.extend_from_slice(&chunk[..n])?;
            Ok(true)
        }
        Err(_) => goes_on(reader),
    }
}

// Whether the reader goes on after an error, which it does after an interruption that is borne.
fn goes_on<R>(reader: &Counted<R>) -> Result<bool, InputFault>
    ensures on { has_failed reader.now ≡ false → result ≡ Ok true }
    ensures fault { has_failed reader.now ≡ true → result ≡ Err InputFault.Read }
{
    if reader.has_failed() {
        Err(InputFault::Read)
    } else {
        Ok(true)
    }
}

/// Writes the bytes from the first to the last, and answers whether all were taken.
pub fn write_whole<W: Write>(writer: &mut Counted<W>, bytes: &[u8]) -> bool
    // The writer has not failed.
    requires { has_failed writer.old ≡ false }
    // If true is returned, the writer has received the bytes, and nothing else.
    ensures ends { result ≡ true → Appends (W.contents (stream_inner writer.old))
        (W.contents (stream_inner writer.new)) bytes.now }
    // In any case it has received the first of them, and nothing else.
    ensures part { (n : ℕ) × Appends (W.contents (stream_inner writer.old))
        (W.contents (stream_inner writer.new)) (take n bytes.now) }
    // False is returned exactly if the writer has failed.
    ensures fault { result ≡ false ↔ (has_failed writer.new ≡ true) }
    // At most one call of the writer failed in a way that is not tolerated, and none came after it.
    ensures once { FailsOnceAtMost writer.new }
{
    let mut written = 0;
    while written < bytes.len() {
        written += write_some(writer, &bytes[written..]);
        if writer.has_failed() {
            return false;
        }
    }
    true
}

// One write, and how many bytes it took.
fn write_some<W: Write>(writer: &mut Counted<W>, bytes: &[u8]) -> usize
    requires some { 0 < length bytes.now }
    requires works { has_failed writer.old ≡ false }
    ensures bound { result ≤ length bytes.now }
    ensures holds { Appends (W.contents (stream_inner writer.old))
        (W.contents (stream_inner writer.new)) (take result bytes.now) }
    ensures moves { has_failed writer.new ≡ false
        → stream_interrupts writer.old < result + stream_interrupts writer.new }
    ensures grows { stream_interrupts writer.old ≤ stream_interrupts writer.new }
    ensures once { FailsOnceAtMost writer.new }
{
    writer.write(bytes).unwrap_or(0)
}
