//! Which refines change which items of an expansion, and which are refused (RFC 7950, section
//! 7.13.2). Takes time n log n in items, in the refines of each `uses` in each module, and in the
//! different paths of these for each copy.
#![tactic(auto)]

mod allowed_refines;
mod if_features;
mod item_changes;
mod known_runs;
mod properties;
mod refusals;
mod runs;
mod sequences;
mod ways;

pub use if_features::{item_marks, statement_marks};
pub use item_changes::changes;
pub use properties::{ItemProperties, said_of_all};
pub use refusals::first_wrong;
