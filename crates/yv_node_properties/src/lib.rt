//! What substatements say of the node that a statement defines: those of a block by their keyword,
//! and the properties that refines may change (RFC 7950, section 7.13.2).
#![tactic(auto)]

pub mod laws;
mod properties;
mod substatements;

pub use properties::{StatedProperties, elements};
pub use substatements::{argument_of, first_of, has, is_of, name_of};
