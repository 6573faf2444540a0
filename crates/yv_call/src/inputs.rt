//! Files as a run reads them.
ghost use Rattle.std.specs.Prelude.{◌≡◌, length, map, string_bytes, take, IfOk};
ghost use Rattle.yv_base_streams.specs.Files.{file_of};
ghost use Rattle.yv_call.specs.GivenFiles.{file_named, files_named};

use std::alloc::{AllocError, Global};
use yv_base_streams::Input;

/// How many bytes are kept of a file: one more than it may have, so that its being too large shows.
const FILE_BYTES: usize = 4_194_305;

// As many of the bytes as are kept of a file.
#[tactic(auto, using(std::proofs::lemmas::List::take_min))]
fn front(bytes: &[u8]) -> &[u8]
    ensures { result.now ≡ take 4194305 bytes.now }
{
    &bytes[..FILE_BYTES.min(bytes.len())]
}

// The file of this name and these bytes.
fn input_of(alloc: Global, name: &str, bytes: &[u8]) -> Result<Input, AllocError>
    ensures { IfOk result (λ i. file_of i ≡ file_named name.now bytes.now) }
{
    Ok(Input {
        name: String::from_str(alloc, name)?,
        bytes: Vec::from_slice(alloc, front(bytes))?,
    })
}

/// The files of these names, with the bytes that are given for them.
pub fn inputs_of(alloc: Global, names: &[String], files: &[&[u8]]) -> Result<Vec<Input>, AllocError>
    // There are bytes for each name.
    requires { length names.now ≡ length files.now }
    // Each has its name, and as many of its bytes as a run reads of a file.
    ensures files { IfOk result (λ inputs. map file_of inputs.items
        ≡ files_named (map string_bytes names.now) (map (λ f. f.now) files.now)) }
    // There is one for each name.
    ensures each { IfOk result (λ inputs. length inputs.items ≡ length names.now) }
{
    let mut inputs = Vec::new(alloc);
    for (place, name) in names.iter().enumerate() {
        inputs.push(input_of(alloc, name.as_str(), files[place])?)?;
    }
    Ok(inputs)
}
