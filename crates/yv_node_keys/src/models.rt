//! Earlier lists by which those with keys of many names or with `unique` statements are read.
ghost use Rattle.std.specs.Prelude.{◌≡◌, ◌<◌, ◌≤◌, length, IfOk};
ghost use Rattle.yv_nodes.specs.Alike.{untyped_at};

use crate::keys::FEW;
use std::alloc::{AllocError, Global};
use std::collections::BTreeMap;
use yv_nodes::{NodeId, Nodes};

/// Lists that were met, with keys of many names or with `unique` statements. No clause says that
/// one is there: each is compared when it is found.
#[derive(Drop)]
pub(crate) struct ListModels {
    // By the number of the first node of which the same is said, and by that of the module's file.
    lists: BTreeMap<(u32, u32), NodeId>,
}

impl ListModels {
    /// No lists.
    pub(crate) fn new(alloc: Global) -> ListModels {
        ListModels {
            lists: BTreeMap::new(alloc),
        }
    }

    /// A node, no later one, of which the same is said as of this one: one of its module, if such a
    /// list was met.
    pub(crate) fn model(&mut self, nodes: &Nodes, list: NodeId) -> Result<NodeId, AllocError>
        requires { list.0 < length nodes.now.rows }
        ensures before { IfOk result (λ model. model.0 ≤ list.0) }
        ensures alike { IfOk result
            (λ model. untyped_at nodes.now.rows model.0 ≡ untyped_at nodes.now.rows list.0) }
    {
        let node = nodes.get(list);
        let first = nodes.first_alike(list);
        if node.keys().len() <= FEW && node.uniques().is_empty() {
            return Ok(first);
        }
        let kind = (first.number(), node.module_file());
        match self.lists.get(&kind).copied() {
            Some(met) if met < list && nodes.first_alike(met) == first => Ok(met),
            _ => {
                self.lists.insert(kind, list)?;
                Ok(first)
            }
        }
    }
}
