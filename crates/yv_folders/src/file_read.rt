//! Files that are read whole, or why they can't be.
ghost use Rattle.std.specs.Prelude.{◌≡◌, ◌≤◌, ◌<◌, ◌+◌, [], ◌∷◌, ◌++◌, length, map, string_bytes, IfOk, IfErr, OnOk};
ghost use Rattle.yv_base_streams.specs.Files.{file_of, file_limit};

use crate::error_reader::ErrorReader;
use std::fs;
use std::fs::File;
use std::io::{Error, ErrorKind};
use std::rt::Files;
use yv_base_streams::{Counted, Input, InputFault, read_input};

/// Why a file can't be read.
#[derive(Debug, Drop)]
pub enum FileFault {
    /// It is a folder, or a link to one.
    Folder,
    /// The system's reason.
    Unread(Error),
    /// There is no memory.
    NoMemory,
}

/// Why one of several files can't be read.
#[derive(Debug, Drop)]
pub struct FilesFault {
    /// The place of its name among the names, from 0.
    pub place: usize,
    pub fault: FileFault,
}

/// Reads the file of this name: all its bytes, or the first 4,194,305 of them.
pub fn read_file<R: Files + AllocGlobal>(rt: &R, name: &str) -> Result<Input, FileFault>
    // It has this name.
    ensures name { IfOk result (λ i. (file_of i).name ≡ name.now) }
    // There are at most 4,194,305 bytes.
    ensures bound { IfOk result (λ i. length (file_of i).bytes ≤ file_limit + 1) }
{
    let file = match File::open(rt, name) {
        Ok(file) => file,
        Err(error) => return Err(fault_at(rt, name, error)),
    };
    let mut reader = Counted::new(ErrorReader::new(file));
    match read_input(rt.alloc(), name, &mut reader) {
        Ok(input) => Ok(input),
        Err(InputFault::NoMemory) => Err(FileFault::NoMemory),
        Err(InputFault::Read) => {
            let failure = reader.into_inner().failure();
            Err(fault_at(rt, name, failure.unwrap_or(Error::from(ErrorKind::Other))))
        }
    }
}

// What keeps a file from being read, if opening or reading it failed for this reason.
fn fault_at<R: Files>(rt: &R, name: &str, error: Error) -> FileFault {
    match fs::metadata(rt, name) {
        Ok(metadata) if metadata.is_dir() => FileFault::Folder,
        _ => FileFault::Unread(error),
    }
}

/// Reads the files of these names, in order. The first that can't be read decides, and none is
/// opened after it.
pub fn read_files<R: Files + AllocGlobal>(
    rt: &R,
    names: &[String],
) -> Result<Vec<Input>, FilesFault>
    // They have these names.
    ensures names { IfOk result
        (λ v. map (λ i. (file_of i).name) v.items ≡ map string_bytes names.now) }
    // There are as many as names.
    ensures each { IfOk result (λ v. length v.items ≡ length names.now) }
    // The place is that of a name.
    ensures place { IfErr result (λ e. e.place < length names.now) }
{
    let mut inputs = Vec::new(rt.alloc());
    for (place, name) in names.iter().enumerate() {
        match read_file(rt, name.as_str()) {
            Ok(input) => push_input(&mut inputs, input, place)?,
            Err(fault) => return Err(FilesFault { place, fault }),
        }
    }
    Ok(inputs)
}

// Puts an input, which is that of the name at this place, after the others.
fn push_input(inputs: &mut Vec<Input>, input: Input, place: usize) -> Result<(), FilesFault>
    ensures items { OnOk result (inputs.new.items ≡ inputs.old.items ++ input ∷ []) }
    ensures place { IfErr result (λ e. e.place ≡ place) }
{
    match inputs.push(input) {
        Ok(()) => Ok(()),
        Err(_) => Err(FilesFault {
            place,
            fault: FileFault::NoMemory,
        }),
    }
}
