//! Paths of leafrefs, perhaps with predicates (RFC 7950, sections 9.9.2 and 14): whether a text is
//! one, the path without its predicates, and the names in them. The program doesn't call this
//! crate yet.
#![tactic(auto)]

mod bare;
mod diagram;
pub mod laws;
mod names;
mod path;
mod piece;
mod state;

pub use bare::bare_path;
pub use diagram::shown_path;
pub use names::{PredicateNames, predicate_names};
pub use path::{has_predicate, is_path};
pub use piece::{Piece, Pieces};
