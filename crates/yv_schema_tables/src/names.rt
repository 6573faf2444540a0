//! Numbers of names, in order of first use.
ghost use Rattle.std.specs.Prelude.{◌≡◌, ◌<◌, ◌^◌, ◌+◌, ℕ, List, [], Some, length, IfOk, OnOk};
ghost use Rattle.yv_nodes.specs.Alike.{untyped_at};
ghost use Rattle.yv_schema_tables.specs.InnerNames.{HaveNumbers, AreNumbersOf, AreOfNodes, get_by_name, names_of, number_in, with_name};

use std::alloc::{AllocError, Global};
use std::collections::BTreeMap;
use std::rc::RcStr;
use yv_nodes::{Node, NodeId, Nodes};

/// Names of nodes, each with its number: how many others were used first before it. The map is an
/// ordered one and hashes nothing, since strangers choose the names.
#[derive(Drop)]
pub(crate) struct NameTable {
    /// The numbers by name. The texts are those that the nodes share.
    numbers: BTreeMap<RcStr, u32>,
    /// How many names there are.
    count: u32,
}

/// The names of nodes, and for each node the number of its name.
#[derive(Drop)]
pub(crate) struct NodeNames {
    pub(crate) names: NameTable,
    pub(crate) of_nodes: Vec<u32>,
}

impl NameTable {
    /// No names.
    fn new(alloc: Global) -> NameTable
        ensures { HaveNumbers [] result }
    {
        NameTable {
            numbers: BTreeMap::new(alloc),
            count: 0,
        }
    }

    /// The number of a name, where it has one.
    pub(crate) fn number(&self, name: &str) -> Option<u32>
        ensures { result ≡ get_by_name self.now.numbers name.now }
    {
        self.numbers.get(name).copied()
    }

    // The number of a node's name, which is added where it has none.
    fn add(&mut self, node: &Node) -> Result<u32, AllocError>
        requires { self.old.count + 1 < 2 ^ 32 }
        ensures names { (names : List (List ℕ)) → HaveNumbers names self.old
            → OnOk result (HaveNumbers (with_name names node.now.label.defined.name) self.new) }
        ensures number { (names : List (List ℕ)) → HaveNumbers names self.old
            → IfOk result
            (λ number. number_in (with_name names node.now.label.defined.name)
            node.now.label.defined.name ≡ Some number) }
    {
        if let Some(number) = self.number(node.name()) {
            return Ok(number);
        }
        let number = self.count;
        self.numbers.insert(node.shared_name()?, number)?;
        self.count += 1;
        Ok(number)
    }

    // The number of the name of the next node, where those before it have these: the name isn't
    // read where it is known that the same is said of one of them.
    fn number_next(
        &mut self,
        nodes: &Nodes,
        of_nodes: &[u32],
        next: NodeId,
    ) -> Result<u32, AllocError>
        requires few { self.old.count + 1 < 2 ^ 32 }
        requires within { next.0 < length nodes.now.rows }
        ensures names { (names : List (List ℕ)) → HaveNumbers names self.old
            → AreNumbersOf names nodes.now.rows of_nodes.now
            → OnOk result
            (HaveNumbers (with_name names (untyped_at nodes.now.rows next.0).name) self.new) }
        ensures number { (names : List (List ℕ)) → HaveNumbers names self.old
            → AreNumbersOf names nodes.now.rows of_nodes.now
            → IfOk result
            (λ number. number_in (with_name names (untyped_at nodes.now.rows next.0).name)
            (untyped_at nodes.now.rows next.0).name ≡ Some number) }
    {
        let first = nodes.first_alike(next);
        if let Some(number) = of_nodes.get(first.number() as usize) {
            return Ok(*number);
        }
        self.add(nodes.get(next))
    }
}

/// Numbers the names of these nodes, each at its first use.
pub(crate) fn node_names(alloc: Global, nodes: &Nodes) -> Result<NodeNames, AllocError>
    requires { length nodes.now.rows < 2 ^ 32 }
    ensures names { IfOk result (λ found. HaveNumbers (names_of nodes.now.rows) found.names) }
    ensures numbers { IfOk result (λ found. AreOfNodes nodes.now.rows found.of_nodes.items) }
{
    let mut names = NameTable::new(alloc);
    let mut of_nodes = Vec::with_capacity(alloc, nodes.len() as usize)?;
    for number in 0..nodes.len() {
        let name = names.number_next(nodes, &of_nodes, NodeId(number))?;
        of_nodes.push(name)?;
    }
    Ok(NodeNames { names, of_nodes })
}
