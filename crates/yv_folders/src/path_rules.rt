//! Which paths below a folder are listed.
ghost use Rattle.std.specs.{Prelude.{◌≡◌, string_bytes, IfOk}, Str.{chars}};
ghost use Rattle.yv_folders.specs.Paths.{has_no_control, is_module_path as is_module, slashes, whole_path};

use std::alloc::{AllocError, Global};

/// How many bytes a path may have with its folder before it.
const MOST_BYTES: usize = 4_095;

/// How many parts a path may have.
pub(crate) const MOST_PARTS: usize = 16;

/// How many bytes the shortest path of a module's file has after that of its folder: `/.yang`.
const LEAST_REST: usize = 6;

// Whether the text has no control character.
fn is_clear(text: &str) -> bool
    ensures { result ≡ has_no_control (chars text.now) }
{
    text.chars().all(|c| !c.is_control())
}

// How many `/` are between the parts of a path.
fn slash_count(path: &str) -> usize
    ensures { result ≡ slashes path.now }
{
    path.as_bytes().iter().filter(|byte| **byte == b'/').count()
}

/// Whether a path from a folder, which has the folder before it in `whole`, may be that of a
/// module's file.
pub(crate) fn is_module_path(path: &str, whole: &str) -> bool
    ensures { result ≡ is_module path.now whole.now }
{
    whole.len() <= MOST_BYTES
        && path.as_bytes().ends_with(b".yang")
        && slash_count(path) < MOST_PARTS
        && is_clear(path)
}

/// Whether a path from a folder, which has the folder before it in `whole`, may be that of a folder
/// with modules.
pub(crate) fn is_folder_path(path: &str, whole: &str) -> bool {
    whole.len() <= MOST_BYTES - LEAST_REST && is_clear(path)
}

/// A path from a folder with the folder before it.
pub(crate) fn whole_of(alloc: Global, folder: &str, path: &str) -> Result<String, AllocError>
    ensures { IfOk result (λ whole. string_bytes whole ≡ whole_path folder.now path.now) }
{
    let mut whole = String::from_str(alloc, folder)?;
    if !folder.as_bytes().ends_with(b"/") {
        whole.push_str("/")?;
    }
    whole.push_str(path)?;
    Ok(whole)
}

/// The path of what has this name in the folder of a path. The path of the folder at the top is
/// empty.
pub(crate) fn path_below(alloc: Global, folder: &str, name: &str) -> Result<String, AllocError> {
    let mut path = String::from_str(alloc, folder)?;
    if !folder.is_empty() {
        path.push_str("/")?;
    }
    path.push_str(name)?;
    Ok(path)
}
