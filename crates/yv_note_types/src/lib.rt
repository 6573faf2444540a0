//! What is wrong with types: their restrictions, the names and numbers of their items, and defaults
//! that are not among their values.
#![tactic(auto)]

mod defaults;
mod derived_identities;
mod entry_numbers;
mod numbers;
mod restrictions;
mod same_values;
mod spread;
mod types;
mod unread_texts;
mod values;

pub use defaults::tell_default;
pub use entry_numbers::tell_item;
pub use restrictions::tell_restriction;
pub use types::tell_type;
