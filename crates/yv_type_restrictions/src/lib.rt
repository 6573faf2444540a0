//! The plain types of `type` statements that lead along typedefs to numbers, texts, octets, a truth
//! value or empty, each statement on the way narrowing what it follows (RFC 7950, sections 7.3.4,
//! 9.2 to 9.5, 9.8 and 9.11), and what is wrong with their ranges, lengths and patterns. Nothing
//! recurses along typedefs.
#![tactic(auto)]

mod built_in_kinds;
mod digits;
pub mod facet_laws;
mod facets;
pub mod laws;
mod patterns;
mod plain_types;
mod restricted_kinds;
mod restriction;
mod step;
mod table;

pub use built_in_kinds::built_in;
pub use facets::narrow;
pub use plain_types::PlainTypes;
pub use restricted_kinds::NarrowedType;
