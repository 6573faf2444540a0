//! What is known of nodes as leafrefs.
use yv_node_leafrefs::Leafref;

/// The referrals of nodes: what they say as leafrefs.
#[derive(Drop)]
pub struct Referrals {
    /// For each node the number of what it says. None where it is not a leafref.
    pub of: Vec<Option<usize>>,
    /// What is said, which nodes share.
    pub leafrefs: Vec<Leafref>,
}
