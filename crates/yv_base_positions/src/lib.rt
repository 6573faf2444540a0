//! Positions in a text: lines and columns of offsets.
#![tactic(auto)]

mod column;
mod columns;
pub mod laws;

pub use column::column_of;
pub use columns::{LinePlace, place_of};
