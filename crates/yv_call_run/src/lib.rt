//! A pure call that does what the program does, over bytes in memory.
#![tactic(auto)]

mod answers;
mod buffer_call;
mod buffer_fill;
mod note;
mod perform;
mod sink;

pub use answers::{Answered, answer};
pub use buffer_call::{PartBuffer, answer_into};
