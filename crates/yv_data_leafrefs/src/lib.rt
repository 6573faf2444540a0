//! The values of leafrefs in a JSON document, and those of their targets (RFC 7950, sections 9.9
//! and 9.9.3).
#![tactic(auto)]

mod answers;
mod findings;
pub mod laws;
mod names;
mod paths;
mod place;
mod scope;
mod targets;
mod uses;

pub use answers::answer;
pub use findings::Findings;
pub use paths::{LastStep, ValuePath, ValueSteps};
pub use place::{MemberName, Step};
pub use scope::RuleScope;
