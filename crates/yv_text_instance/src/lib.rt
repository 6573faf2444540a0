//! The form of instance-identifiers in JSON (RFC 7951, section 6.11; RFC 7950, sections 9.13 and
//! 14): whether a text has it. The program doesn't call this crate yet.
#![tactic(auto)]

mod instance;
pub mod laws;
mod name;
mod state;

pub use instance::is_instance_identifier;
