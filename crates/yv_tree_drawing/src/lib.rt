//! How a tree diagram (RFC 8340) is to be drawn: how much of it is shown, and in what form.
#![tactic(auto)]

mod drawing;
mod step;

pub use drawing::{Drawing, TreeOptions};
pub use step::WayStep;
