//! One object of a document: its members looked up once, and what exists there.
#![tactic(auto)]

mod context;
mod existence;
mod exists;
pub mod laws;
mod marks;
mod written_values;

pub use context::Context;
pub use existence::Existence;
pub use exists::is_there;
pub use marks::Marks;
