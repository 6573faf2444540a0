//! The names of members, as a text spells them.
use crate::tokens::Quotation;
use serde_json::{Error, Value};
use std::alloc::{AllocError, Global};

/// What a string of a text says: the bytes of the text where they have no escapes.
#[derive(Drop)]
pub(crate) enum Name<'t> {
    Plain(&'t [u8]),
    Decoded(String),
}

impl<'t> Name<'t> {
    /// What a string of a text says, and nothing where it is not one of JSON.
    pub(crate) fn read(
        alloc: Global,
        text: &'t [u8],
        quotation: Quotation,
    ) -> Result<Name<'t>, AllocError> {
        let quoted = text.get(quotation.start..quotation.end).unwrap_or(&[]);
        if quotation.has_escapes {
            return Ok(Name::Decoded(text_of(alloc, quoted)?));
        }
        match quoted {
            [b'"', plain @ .., b'"'] => Ok(Name::Plain(plain)),
            _ => Ok(Name::Plain(&[])),
        }
    }

    /// Its bytes.
    pub(crate) fn bytes(&self) -> &[u8] {
        match self {
            Name::Plain(bytes) => bytes,
            Name::Decoded(text) => text.as_bytes(),
        }
    }

    /// The same as a string of its own.
    pub(crate) fn into_string(self, alloc: Global) -> Result<String, AllocError> {
        match self {
            Name::Plain(bytes) => String::from_str(alloc, str::from_utf8(bytes).unwrap_or("")),
            Name::Decoded(text) => Ok(text),
        }
    }
}

// What a quoted text with escapes says, and nothing where it is not one of JSON.
fn text_of(alloc: Global, quoted: &[u8]) -> Result<String, AllocError> {
    match Value::from_slice(alloc, quoted) {
        Ok(Value::String(text)) => Ok(text),
        Ok(_) => Ok(String::new(alloc)),
        Err(error) => text_at_error(alloc, &error),
    }
}

// No text, if an error is not that memory ran out.
fn text_at_error(alloc: Global, error: &Error) -> Result<String, AllocError> {
    if error.is_memory() {
        Err(AllocError)
    } else {
        Ok(String::new(alloc))
    }
}
