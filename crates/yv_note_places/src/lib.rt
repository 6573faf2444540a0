//! Where values stand in the text of a JSON document, and which members are repeated in it.
#![tactic(auto)]

mod colons;
mod counts;
mod cursor;
mod names;
mod place_tree;
mod places;
mod repeats;
mod search;
mod tokens;

pub use counts::has_repeated_members;
pub use places::{DocumentStep, FoundPlace, LineColumn, find_places};
pub use repeats::{RepeatedMember, repeated_members};
