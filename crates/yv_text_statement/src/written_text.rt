//! Texts of files, each with the file whose prefixes it uses.
use std::rc::RcStr;

/// A text, and the file in which it is written, whose prefixes it uses.
#[derive(Drop)]
pub struct WrittenText {
    /// The text.
    pub text: RcStr,
    /// The number of the file.
    pub file: u32,
}
