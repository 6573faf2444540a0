//! The values of identityref types: which identities are derived from every base, of an implemented
//! module, and on (RFC 7950, sections 9.10 and 7.18.2).
#![tactic(auto)]

mod bases;
mod candidates;
mod graph;
mod identities;
mod identity_places;
mod if_features;
mod inside;
mod keys;
pub mod laws;
mod lists;
mod places;
mod runs;
mod sets;
mod shared_members;

pub use identities::IdentityLists;
