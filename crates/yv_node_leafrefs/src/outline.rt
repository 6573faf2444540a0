//! What leafrefs are read from.
use crate::leafref::Leafref;
use yv_nodes::Node;

/// The nodes of a schema tree by their numbers, for each node the number of the statement that
/// defines it and that of what it says as a leafref, and what leafrefs say.
#[derive(Drop)]
pub(crate) struct Outline<'a> {
    pub(crate) nodes: &'a [Node],
    pub(crate) statements: &'a [usize],
    pub(crate) of: &'a [Option<usize>],
    pub(crate) leafrefs: &'a [Leafref],
}
