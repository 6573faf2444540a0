//! The nodes below nodes by module and name, found as they are asked for.
ghost use Rattle.std.specs.Prelude.{◌≡◌, IfOk, IfSome};
ghost use Rattle.yv_node_keys.specs.{Numbers.{child_at, children_at}, InnerNames.{AreNames, told_of}};

use crate::names::ChildNames;
use std::alloc::{AllocError, Global};
use std::collections::BTreeMap;
use std::marker::Model;
use yv_nodes::{Node, NodeId};

/// Numbered nodes, and the names of those directly below each that was asked for, which are looked
/// at once. Contracts see the rows of the nodes.
#[derive(Drop)]
pub(crate) struct Index<'n> {
    nodes: &'n [Node],
    known: BTreeMap<u32, ChildNames<'n>>,
}

impl<'n> Model for Index<'n> {
    ghost use Rattle.std.specs.Prelude.{List};
    ghost use Rattle.yv_nodes.specs.Rows.{Row};
    ghost use Rattle.yv_node_keys.specs.InnerIndex.{AreKnown};

    ghost Value = { List Row };

    ghost view = { λ i. i.nodes.now };

    ghost invariant = { λ i. AreKnown i.nodes.now i.known };
}

impl<'n> Index<'n> {
    /// These nodes, before anything is looked up among them.
    pub(crate) fn new(alloc: Global, nodes: &'n [Node]) -> Index<'n>
        ensures { result ≡ nodes.now }
    {
        Index {
            nodes,
            known: BTreeMap::new(alloc),
        }
    }

    /// The nodes.
    pub(crate) fn nodes(&self) -> &'n [Node]
        ensures { result.now ≡ self.now }
    {
        self.nodes
    }

    // The first node below one that has this module and this name, if those below it are known.
    fn find(&self, parent: NodeId, module_file: u32, name: &'n str) -> Option<Option<NodeId>>
        ensures { IfSome result (λ child. child ≡ child_at self.now module_file name.now parent) }
    {
        match self.known.get(&parent.number()) {
            Some(names) => Some(names.get(module_file, name)),
            None => None,
        }
    }

    // Keeps the names of the nodes below one.
    fn keep(&mut self, parent: NodeId, names: ChildNames<'n>) -> Result<(), AllocError>
        requires { AreNames self.old (children_at self.old parent) (told_of names) }
        ensures { self.new ≡ self.old }
    {
        self.known.insert(parent.number(), names)?;
        Ok(())
    }

    /// The first node directly below one that has this module and this name, whatever its kind.
    pub(crate) fn child(
        &mut self,
        alloc: Global,
        parent: NodeId,
        module_file: u32,
        name: &'n str,
    ) -> Result<Option<NodeId>, AllocError>
        ensures rows { self.new ≡ self.old }
        ensures child { IfOk result
            (λ child. child ≡ child_at self.old module_file name.now parent) }
    {
        if let Some(child) = self.find(parent, module_file, name) {
            return Ok(child);
        }
        let names = ChildNames::below(alloc, self.nodes, parent)?;
        let child = names.get(module_file, name);
        self.keep(parent, names)?;
        Ok(child)
    }
}
