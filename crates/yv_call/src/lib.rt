//! What a call from C is given: parts that lie in one buffer, the words, files and documents that
//! these are, what a request asks for besides them, and a writer that keeps the front of a text in
//! a buffer and counts the rest. The program doesn't call this crate yet.
#![tactic(auto)]

mod front;
mod inputs;
mod log;
mod misfit;
mod parts;
mod plan;
mod shelf;
mod supply;
mod words;

pub use front::TextFront;
pub use inputs::inputs_of;
pub use misfit::{Misfit, fit_request};
pub use parts::parts_of;
pub use plan::{Batch, CallPlan, Work, plan_of};
pub use shelf::DocumentShelf;
pub use supply::{NoFiles, shelf_documents};
pub use words::{command_line, texts_of};
