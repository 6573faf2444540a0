//! Where schema paths lead among numbered items, and where augments put what they give (RFC 7950,
//! sections 6.5, 7.13 and 7.17).
//!
//! To apply an augment only moves what is in its block to another place. The children of a node are
//! always in order: first those that no augment of a module gives, by their numbers, and then those
//! that such augments give, by theirs. A caller goes from the last item to the first: at a uses its
//! augments have their turns, in order, and then it enters a group as any other item does. When all
//! have entered, the augments of modules are applied in rounds, and then the final tree is there as
//! a list.
#![tactic(auto)]

mod arrivals;
mod augmentation;
mod end;
mod first_nodes;
mod group;
mod hidden_nodes;
mod label;
pub mod laws;
mod missing_targets;
mod order;
mod places;
mod rounds;
mod row;
mod trail;
mod tree_list;

pub use arrivals::Arrival;
pub use augmentation::Augmentation;
pub use end::End;
pub use label::Label;
pub use row::ItemRow;
