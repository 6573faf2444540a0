//! A document as notes speak of it.
use serde_json::Value;

/// A noted document: what notes on its faults are made of.
#[derive(Clone, Copy)]
pub struct NotedDocument<'d> {
    /// The name of its file, or `-` for standard input.
    pub name: &'d [u8],
    /// The line of the file, from 1, in which the document begins.
    pub first_line: u64,
    pub bytes: &'d [u8],
    /// What the bytes were read as.
    pub value: &'d Value,
}

/// A note on the faults of a document.
#[derive(Drop)]
pub struct FaultNote {
    /// Lines that begin with a place in the document's file.
    pub lines: String,
    /// Lines about the document as a whole, which begin with no place.
    pub rest: String,
}
