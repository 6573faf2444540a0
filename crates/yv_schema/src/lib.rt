//! From the statements of YANG modules to their schema, which is defined by the tree to which their
//! files expand (`yv_expand_definition`).
#![tactic(auto)]

mod all_referrals;
mod build;
mod compilation;
mod conformance;
mod context;
mod copies;
mod draft;
mod families;
pub mod laws;
mod leafref;
mod leafrefs;
mod module_names;
mod name;
mod notes;
mod number_table;
mod parts;
mod phases;
mod precedent;
pub mod referral_laws;
mod referral_table;
mod tree;

pub use all_referrals::referrals;
pub use compilation::compile;
pub use families::{ChildLists, families_of};
pub use referral_table::Referrals;
pub use yv_node_content::{NodeKind, NodeStatus};
pub use yv_nodes::{Node, NodeId};
pub use yv_schema_tables::{Measures, Schema};
