//! The roots of files (RFC 7950, section 5.1).
ghost use Rattle.std.specs.Prelude.{◌≡◌, ℕ, List, IfOk, if◌then◌else◌, Some, None};
ghost use Rattle.yv_search.specs.{Wants.{is_root}, Roots.{HasRoot, HoldsText}};

use crate::wants::is_root;
use std::alloc::{AllocError, Global};
use yv_source::{Source, parse};
use yv_text_statement::{Statement, Stop};

/// The text of a file with these bytes, if they are a legal one: what its root is read from.
pub fn file_text(alloc: Global, bytes: &[u8]) -> Result<Option<Source>, AllocError>
    // These bytes, where they are legal.
    ensures { IfOk result (HoldsText bytes.now) }
{
    match Source::new(alloc, "", bytes) {
        Ok(source) => Ok(Some(source)),
        Err(Stop::NoMemory) => Err(AllocError),
        Err(_) => Ok(None),
    }
}

/// The root of a file with this text: the statement that it spells, if that is a `module` or a
/// `submodule`.
pub fn file_root<'a>(
    alloc: Global,
    text: &'a Option<Source>,
) -> Result<Option<Statement<'a>>, AllocError>
    // The root of the file with the bytes from which the text was made.
    ensures { IfOk result (λ root. (bytes : List ℕ) → HoldsText bytes text.now
        → HasRoot bytes root) }
{
    match text {
        Some(source) => root_of(alloc, source),
        None => Ok(None),
    }
}

// The root of a text.
fn root_of<'a>(alloc: Global, source: &'a Source) -> Result<Option<Statement<'a>>, AllocError>
    ensures { IfOk result (HasRoot source.now.text) }
{
    match parse(alloc, source) {
        Ok(statement) => Ok(if_root(statement)),
        Err(stop) => match stop {
            Stop::NoMemory => Err(AllocError),
            _ => Ok(None),
        },
    }
}

// A statement, if it is a root.
fn if_root<'a>(statement: Statement<'a>) -> Option<Statement<'a>>
    ensures { result ≡ (if is_root statement.entry then Some statement.entry else None) }
{
    if is_root(&statement) {
        Some(statement)
    } else {
        None
    }
}
