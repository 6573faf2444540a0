//! The way to a node, as the walk keeps it.
ghost use Rattle.std.specs.Prelude.{◌≡◌};
ghost use Rattle.yv_data_faults.specs.InnerPath.{is_entry};

use yv_nodes::NodeId;
use yv_schema_tables::Schema;

/// The trail from the top to a node: a chain on the stack, written out only where a fault is
/// reported.
#[derive(Clone, Copy)]
pub enum Trail<'a> {
    Root,
    Below(&'a Trail<'a>, NodeId, Option<u64>),
}

impl Trail<'_> {
    /// The node at its end.
    pub(crate) fn node(&self) -> NodeId {
        match self {
            Trail::Root => Schema::ROOT,
            Trail::Below(_, id, _) => *id,
        }
    }

    /// Whether it ends in an entry or an item of an array.
    pub(crate) fn is_entry(&self) -> bool
        ensures { result ≡ is_entry self.now }
    {
        match self {
            Trail::Root => false,
            Trail::Below(_, _, item) => item.is_some(),
        }
    }

    /// How many entries and items there are on it.
    pub(crate) fn count(&self) -> u64 {
        match self {
            Trail::Root => 0,
            Trail::Below(outer, _, item) => outer.count().saturating_add(item.is_some() as u64),
        }
    }
}
