//! Values as a document has them.
use serde_json::Value;
use std::alloc::AllocError;
use yv_note_text::push_quoted;

/// Adds a value as it is written, of a text at most 72 bytes. Arrays and objects aren't shown: they
/// may be as long as the document.
pub fn push_written(text: &mut String, value: &Value) -> Result<(), AllocError> {
    match value {
        Value::String(written) => push_quoted(text, written.as_str()),
        Value::Array(_) => text.push_str("this array"),
        Value::Object(_) => text.push_str("this object"),
        Value::Null | Value::Bool(_) | Value::Number(_) => {
            let written = value.to_string(*text.allocator())?;
            text.push_str(written.as_str())
        }
    }
}
