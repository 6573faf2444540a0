//! The names of definitions: what is wrong with them, which typedef or grouping a name means where
//! it is used, and an order in which each definition comes after all to which it leads. All takes
//! time linear in statements except for ordered tables, and for the way from a statement out to the
//! blocks around it.
#![tactic(auto)]

mod answers;
mod build;
mod built_in;
mod draft;
mod duplicates;
mod leads;
mod meaning_table;
mod meanings;
mod pairs;
mod place;
mod place_list;
mod references;
mod refusals;
mod type_places;

pub use build::names;
pub use built_in::{BUILT_INS, is_built_in};
pub use meaning_table::Names;
pub use place_list::PlaceList;
pub use references::DefRef;
pub use type_places::places_of_types;
