//! What files expand to, as a tree (RFC 7950, sections 7.12 to 7.17).
//!
//! A definition with its laws, and no functions. Statements give nodes (`Gives`): a uses gives
//! copies of what is in its grouping, which its refines change and to which its augments add;
//! the augments of modules have their turns in rounds (`Rounds`). Where a path leads is shown by
//! `Leads`: at each step to the first node in order. No items are numbered here, nothing is moved,
//! and nothing is shared with the code but words for statements and kinds.
#![tactic(auto)]

pub mod laws;
