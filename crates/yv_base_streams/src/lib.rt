//! Readers and writers that count what goes wrong in their calls: reading one to its end, a file
//! with its name, and writing a text whole. It uses no crate of the compiler.
#![tactic(auto)]

mod counted_stream;
mod input;
mod page;
mod stream;

pub use counted_stream::Counted;
pub use input::{Input, read_input};
pub use page::Page;
pub use stream::{InputFault, read_up_to, write_whole};
