//! Where the leafrefs of a schema tree lead (RFC 7950, section 9.9): the target of each, the paths
//! that lead to none, the leafrefs that refer to one another in a cycle, and the node whose types
//! the values of a leafref have.
#![tactic(auto)]

mod above;
mod all_links;
mod draft;
mod graph;
mod index;
mod inner_nodes;
pub mod laws;
mod leafref;
mod leafrefs;
mod link;
pub mod link_laws;
mod names;
mod outline;
mod refusals;
mod strides;
mod targets;
mod walk;

pub use all_links::links;
pub use leafref::Leafref;
pub use leafrefs::Leafrefs;
