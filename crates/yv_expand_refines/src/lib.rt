//! What refines mean at the copies of their `uses` and which items they change, each list kept once
//! for all copies and items that are alike (RFC 7950, section 7.13.2).
#![tactic(auto)]

mod changes;
mod joints;
mod places;
mod targets;

pub use changes::{Changes, Continuation};
pub use targets::{RefineTarget, RefinedUses, Refinements};
