//! What an author should mend in files before they are published: facts about single statements
//! that no error tells of.
#![tactic(auto)]

mod arguments;
mod dates;
mod definitions;
mod file;
mod file_names;
mod finding;
mod findings;
mod groups;
pub mod laws;
mod newer;
mod place;
mod prefixes;
mod rule;
mod rules;
mod statements;
mod use_set;
mod uses;
mod versions;
mod walk;

pub use finding::Finding;
pub use findings::lint;
pub use groups::group_of;
pub use rule::{RULES, Rule};
pub use rules::Rules;
