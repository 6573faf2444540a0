//! The runs of refines that lead from what is said of a node to what is said of it when they
//! changed it.

use yv_node_content::Definition;

/// What is said of a node, and the runs of refines that still change it, the last of them first.
#[derive(Drop)]
pub(crate) struct Chain<'c> {
    pub said: Definition,
    pub runs: Vec<&'c [usize]>,
}
