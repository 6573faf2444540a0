//! A file that is read before a run.
ghost use Rattle.std.specs.{Prelude.{◌≡◌, ◌≤◌, ◌+◌, ◌↔◌, true, length, take, IfOk, IfSome, IsErrOf}, Io.KnownBytes.{Consumes}};
ghost use Rattle.yv_base_streams.specs.{Files.{file_of, file_limit}, Stream.{stream_inner, has_failed, IsFresh, FailsOnceAtMost, TakesAtMost}};

use crate::counted_stream::Counted;
use crate::stream::{InputFault, read_up_to};
use std::alloc::Global;
use std::io::Read;

/// What is read of a file: one byte more than it may have, so that its being too large shows.
const FILE_BYTES: usize = 4_194_305;

/// An input: a file's name, and its bytes or the first 4,194,305 of them.
#[derive(Debug, Drop)]
pub struct Input {
    pub name: String,
    pub bytes: Vec<u8>,
}

/// Reads a file of this name, to its end or one byte past what a file may have. After `Read` the
/// reader is to be given up.
pub fn read_input<R: Read>(
    alloc: Global,
    name: &str,
    reader: &mut Counted<R>,
) -> Result<Input, InputFault>
    // The reader is fresh.
    requires { IsFresh reader.old }
    // The name, and the bytes that the reader gave until its end, or its first 4,194,305.
    ensures name { IfOk result (λ i. (file_of i).name ≡ name.now) }
    // It has the bytes that the reader gave until its end, or its first 4,194,305.
    ensures bytes { IfOk result (λ i. IfSome (R.remaining (stream_inner reader.old))
        (λ xs. (file_of i).bytes ≡ take (file_limit + 1) xs)) }
    // Just these bytes are consumed.
    ensures consumes { IfOk result (λ i. Consumes (R.remaining (stream_inner reader.old))
        (R.remaining (stream_inner reader.new)) (file_of i).bytes) }
    // There are at most 4,194,305.
    ensures bound { IfOk result (λ i. length (file_of i).bytes ≤ file_limit + 1) }
    // `Read` is returned exactly if the reader has failed.
    ensures fault { IsErrOf result InputFault.Read ↔ (has_failed reader.new ≡ true) }
    // At most one call of the reader failed in a way that is not tolerated, and none came after it.
    ensures once { FailsOnceAtMost reader.new }
    // At most 4,194,305 bytes are consumed from the reader, whatever is returned.
    ensures takes { TakesAtMost (file_limit + 1) (R.remaining (stream_inner reader.old))
        (R.remaining (stream_inner reader.new)) }
{
    let name = String::from_str(alloc, name)?;
    let bytes = read_up_to(alloc, FILE_BYTES, reader)?;
    Ok(Input { name, bytes })
}
