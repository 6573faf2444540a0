//! The data nodes of a schema, one by one.
ghost use Rattle.std.specs.{Prelude.{◌≡◌, ◌≤◌, length}, Iterator.{YieldsFirst, item_count}};
ghost use Rattle.yv_schema_tables.specs.DataNodes.{data_nodes_from};

use std::marker::Model;
use yv_nodes::{Node, NodeId};

/// The numbers of the data nodes of a schema, in order: containers, leafs, leaf-lists, lists,
/// anydata and anyxml nodes (RFC 7950, section 3). Contracts see it as those that are left.
#[derive(Drop)]
pub struct DataNodes<'s> {
    rest: &'s [Node],
    next: u32,
}

impl<'s> Model for DataNodes<'s> {
    ghost use Rattle.std.specs.Prelude.{◌≤◌, ◌+◌, List, length};
    ghost use Rattle.yv_nodes.specs.declared.node.NodeId.{NodeId};
    ghost use Rattle.yv_schema_tables.specs.DataNodes.{data_nodes_from};

    ghost Value = { List NodeId };

    ghost view = { λ d. data_nodes_from d.next d.rest.now };

    ghost invariant = { λ d. length d.rest.now + d.next ≤ 4294967295 };
}

impl<'s> DataNodes<'s> {
    /// Those among all nodes of a schema.
    pub(crate) fn of(nodes: &'s [Node]) -> DataNodes<'s>
        requires { length nodes.now ≤ 4294967295 }
        ensures { result ≡ data_nodes_from 0 nodes.now }
    {
        DataNodes {
            rest: nodes,
            next: 0,
        }
    }
}

impl<'s> Iterator for DataNodes<'s> {
    type Item = NodeId;

    ghost next_gives = { YieldsFirst (λ numbers. numbers) };

    ghost remaining = { item_count (λ numbers. numbers) };

    fn next(&mut self) -> Option<NodeId> {
        while let Some((node, others)) = self.rest.split_first() {
            let number = NodeId(self.next);
            self.rest = others;
            self.next += 1;
            if node.kind().is_data() {
                return Some(number);
            }
        }
        None
    }
}
