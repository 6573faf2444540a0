//! The nodes directly below one by module and name.
ghost use Rattle.std.specs.{Prelude.{◌≡◌, ℕ, List, None, OnOk, IfOk}, Option.{option_map}};
ghost use Rattle.yv_node_keys.specs.{Numbers.{children_at}, InnerNames.{AreNames, told_before, told_of, told_with}};

use crate::node_numbers::{children_at, node_at};
use std::alloc::{AllocError, Global};
use std::collections::BTreeMap;
use yv_nodes::{Node, NodeId};

/// Of each module and name the first of some nodes that has them. The names are borrowed.
#[derive(Drop)]
pub(crate) struct ChildNames<'n> {
    map: BTreeMap<(&'n [u8], u32), NodeId>,
}

impl<'n> ChildNames<'n> {
    // No nodes.
    fn new(alloc: Global) -> ChildNames<'n>
        ensures { (module_file : ℕ) (name : List ℕ) → told_of result module_file name ≡ None }
    {
        ChildNames {
            map: BTreeMap::new(alloc),
        }
    }

    // Those of these nodes.
    fn of(
        alloc: Global,
        nodes: &'n [Node],
        children: &[NodeId],
    ) -> Result<ChildNames<'n>, AllocError>
        ensures { IfOk result (λ names. AreNames nodes.now children.now (told_of names)) }
    {
        let mut names = ChildNames::new(alloc);
        let mut left = children.len();
        while left > 0 {
            left -= 1;
            let child = children[left];
            names.meet(node_at(nodes, child), child)?;
        }
        Ok(names)
    }

    /// Those directly below the node of a number.
    pub(crate) fn below(
        alloc: Global,
        nodes: &'n [Node],
        parent: NodeId,
    ) -> Result<ChildNames<'n>, AllocError>
        ensures { IfOk result
            (λ names. AreNames nodes.now (children_at nodes.now parent) (told_of names)) }
    {
        let names = ChildNames::of(alloc, nodes, children_at(nodes, parent))?;
        Ok(names)
    }

    // Meets a node that is before those that were met.
    fn meet(&mut self, node: Option<&'n Node>, number: NodeId) -> Result<(), AllocError>
        ensures { OnOk result ((module_file : ℕ) (name : List ℕ) → told_of self.new module_file name
            ≡ told_before (told_of self.old) (option_map (λ r. r.now) node.entry) number module_file
            name) }
    {
        match node {
            Some(node) => self.keep(node.module_file(), node.name().as_bytes(), number),
            None => Ok(()),
        }
    }

    // Keeps the number of a node in the place of that of another with its module and name.
    fn keep(&mut self, module_file: u32, name: &'n [u8], number: NodeId) -> Result<(), AllocError>
        ensures { OnOk result
            ((h : ℕ) (n : List ℕ) → told_of self.new h n
            ≡ told_with (told_of self.old) module_file name.now number h n) }
    {
        self.map.insert((name, module_file), number)?;
        Ok(())
    }

    /// The first node of this module and this name.
    pub(crate) fn get(&self, module_file: u32, name: &'n str) -> Option<NodeId>
        ensures { result ≡ told_of self.now module_file name.now }
    {
        self.map.get(&(name.as_bytes(), module_file)).copied()
    }
}
