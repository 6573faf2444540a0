//! The expansion of files within a limit: each schema node that their statements give, with copies
//! of what is in groupings and what augments give below each uses, as one list (RFC 7950, sections
//! 7.12, 7.13 and 7.17). The files are in an order that the caller gives. All takes time linear in
//! statements, items and the order, except for one look-up of a name for each file.
#![tactic(auto)]

mod blocks;
pub mod conformance_laws;
mod expansion;
pub mod expansion_laws;
mod file_expansion;
mod item;
mod items;
pub mod laws;
mod limit;
mod lists;
mod own;
mod stack;
mod steps;
mod unit_keywords;
pub mod unit_laws;
mod values;
mod weights;
mod whole;

pub use expansion::Expansion;
pub use file_expansion::FileExpansion;
pub use item::{Item, PlacedItem, RemainingNode};
pub use limit::too_many;
pub use weights::Units;
pub use whole::expand;
