//! Identities: what is wrong with them, which identity a name means, and which are derived from
//! which. All takes time linear in statements, identities and bases except for ordered tables, and
//! `derived`, which says what it costs.
#![tactic(auto)]

mod build;
mod draft;
mod hierarchy;
mod identity_table;
mod numbers;
mod pairs;
mod references;
mod refusals;
mod reverse;

pub use build::identities;
pub use identity_table::Identities;
pub use references::IdentityRef;
