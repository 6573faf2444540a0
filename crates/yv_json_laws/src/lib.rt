//! Laws about results for programs and the documents that they speak of.
//!
//! `yv_json_lines` says how the JSON pointer of a fault is written, from the path that a fault has,
//! and `yv_validate` which faults a document has. Here JSON Pointer (RFC 6901) is defined as it is
//! read, and a law says that the one fits the other: a pointer leads to what is wrong. There are no
//! functions.
#![tactic(auto)]

pub mod laws;
