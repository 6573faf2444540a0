//! The names of `type` statements that lead along typedefs to `enumeration` or to `bits`, with
//! their numbers, and which of them are values (RFC 7950, sections 7.3.4, 9.6.3, 9.6.4, 9.7.3 and
//! 9.7.4), and what is wrong with them. Nothing recurses along typedefs.
#![tactic(auto)]

mod common;
mod entries;
mod if_features;
mod kind;
mod lists;
mod numbers;
mod step;
mod table;
mod type_names;
mod values;

pub use lists::Lists;
pub use table::TypeNames;
pub use type_names::{Listing, NamedEntries};
pub use yv_base_numbers::NumberKind;
