//! The validator of JSON documents (RFC 7951) against a schema.
#![tactic(auto)]

mod count;
pub mod laws;
mod memory;
mod nodes;
mod notes;
mod objects;
mod progress;
mod report;
mod tell;
mod tuples;
mod validator;
mod walk;

pub use count::size;
pub use report::Report;
pub use validator::{Validator, validate};
pub use yv_data_faults::{Fault, FaultKind, Part, Path, PathSteps, line, push_line};
pub use yv_data_leafrefs::{MemberName, RuleScope, Step};
pub use yv_text_statement::Kind;
