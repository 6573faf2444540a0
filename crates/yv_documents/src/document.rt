//! The document that bytes hold.
ghost use Rattle.std.specs.Prelude.{◌≡◌, ◌≤◌, IfOk, IfSome, option_map};
ghost use Rattle.serde_json.specs.{Data.{depth}, View.{view}};
ghost use Rattle.yv_documents.specs.Document.{json_of, document_text, document_view, MeetsLimits};

use serde_json::Value;
use std::alloc::{AllocError, Global};
use yv_validate::size;

const MOST_BYTES: usize = 16_777_216;

const MOST_PARTS: u64 = 16_777_216;

/// What the bytes of a document are.
#[derive(Debug, Drop)]
pub enum Document {
    /// More than 16,777,216 bytes, or as many members of objects and items of arrays.
    TooLarge,
    /// No UTF-8, no JSON, or nested more than 127 deep.
    NotJson,
    Json(Value),
}

/// What a document of these bytes is.
pub fn read_document(alloc: Global, bytes: &[u8]) -> Result<Document, AllocError>
    // What the bytes are: too large, not JSON, or a value within the limits.
    ensures reads { IfOk result (λ d. document_view d ≡ document_text bytes.now) }
    // A value that is answered meets the limits on size and depth.
    ensures limits { IfOk result MeetsLimits }
{
    if bytes.len() > MOST_BYTES {
        return Ok(Document::TooLarge);
    }
    let Some(value) = parse_json(alloc, bytes)? else {
        return Ok(Document::NotJson);
    };
    if size(&value) > MOST_PARTS {
        return Ok(Document::TooLarge);
    }
    Ok(Document::Json(value))
}

// The value that bytes write, where they write one.
fn parse_json(alloc: Global, bytes: &[u8]) -> Result<Option<Value>, AllocError>
    ensures value { IfOk result (λ o. option_map view o ≡ json_of bytes.now) }
    ensures nests { IfOk result (λ o. IfSome o (λ v. depth (view v) ≤ 127)) }
{
    let Ok(text) = str::from_utf8(bytes) else {
        return Ok(None);
    };
    match Value::from_str(alloc, text) {
        Ok(value) => Ok(Some(value)),
        Err(error) if error.is_memory() => Err(AllocError),
        Err(_) => Ok(None),
    }
}
