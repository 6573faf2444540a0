//! Which statements of files need XPath, and how many there are of each kind. The program doesn't
//! call this crate yet.
#![tactic(auto)]

mod count;
mod counts;
pub mod laws;

pub use count::passed_over;
pub use counts::Unevaluated;
