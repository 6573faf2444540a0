//! Lines of notes as a terminal may show them: bytes as visible characters, and a sentence as a
//! line that is not too long.
#![tactic(auto)]

mod lines;

pub use lines::{push_line, push_visible};
