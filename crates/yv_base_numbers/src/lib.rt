//! Numbers that texts of YANG modules and data write, and the intervals of a type's numbers (RFC
//! 7950, sections 9.2 to 9.4).
#![tactic(auto)]

mod bound;
mod decimal;
mod earlier_entries;
mod integer;
mod intervals;
pub mod laws;
mod number;
mod numbering;
mod order;
mod parts;
mod restriction;
pub mod restriction_laws;
mod restriction_order;
mod stated_numbers;

pub use decimal::scaled_of;
pub use earlier_entries::number_entries;
pub use integer::{Integer, is_at_most};
pub use intervals::{Intervals, Span};
pub use number::{based_integer_of, integer_of};
pub use numbering::{ListedEntry, NumberKind, NumberedEntries, Numbering};
pub use restriction::restrict;
