//! Numbered items, and the tree that they show.
//!
//! The expansion of files is made of numbered items: they enter groups, augments move what is
//! in a group to another one, and paths go by numbers of names (`yv_expand_rounds`,
//! `yv_expand_augments`). What files expand to is defined as a tree, without numbers
//! (`yv_expand_definition`). Here is what the one has to do with the other: `Shows` says that items
//! of a group show nodes, and the laws say that each step of the items keeps it. These are laws
//! beside the definitions that `yv_expand_tree` has; there are no functions.
#![tactic(auto)]

pub mod laws;
