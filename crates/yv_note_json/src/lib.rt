//! Why the bytes of a document are not JSON, or too many.
#![tactic(auto)]

mod json;
mod json_number;
mod json_reason;
mod other_format;

pub use json::{why_not_json, why_too_large};
