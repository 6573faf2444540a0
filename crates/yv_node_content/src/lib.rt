//! What schema nodes are, and what a statement says of the node that it defines.
#![tactic(auto)]

mod definition;
mod keys;
mod kind;
mod piece;
mod step;

pub use definition::{Definition, DefinitionDraft};
pub use keys::Keys;
pub use kind::{NodeKind, NodeStatus};
pub use piece::PathPiece;
pub use step::PathStep;
