//! What is read of nodes and leafrefs before paths are followed.
ghost use Rattle.std.specs.Prelude.{◌≡◌, ◌<◌, ◌^◌, length, IfOk};
ghost use Rattle.yv_node_leafrefs.specs.{Above.{AreBehind}, DefiningStatements.{AreNamed}, InnerOutline.{rows_in}, InnerIndex.{IsDraft, AreKeys, data_key}};

use crate::above::{operation_marks, places_above};
use crate::index::{Index, Key, rank};
use crate::names::{NameTable, number_names};
use crate::outline::Outline;
use crate::strides::{Stride, all_strides};
use std::alloc::{AllocError, Global};
use yv_nodes::Node;

/// For each node the closest place above it that is not a choice or case, and whether it is inside
/// an operation or a notification; the steps of each leafref; and the data nodes by their names.
#[derive(Drop)]
pub(crate) struct Draft<'n> {
    pub(crate) above: Vec<Option<u32>>,
    pub(crate) inside: Vec<bool>,
    pub(crate) names: NameTable<'n>,
    pub(crate) strides: Vec<Vec<Option<Stride>>>,
    pub(crate) index: Index,
}

// The key by which a data node is found.
fn data_key(place: Option<u32>, node: &Node, name: u32) -> Option<Key>
    ensures { result ≡ data_key place node.now name }
{
    if node.kind().is_data() {
        Some((rank(place), node.module_file(), name))
    } else {
        None
    }
}

// The keys of all nodes.
fn data_keys(
    alloc: Global,
    nodes: &[Node],
    above: &[Option<u32>],
    names: &[u32],
) -> Result<Vec<Option<Key>>, AllocError>
    requires each { length above.now ≡ length nodes.now }
    requires each_name { length names.now ≡ length nodes.now }
    ensures { IfOk result
        (λ keys. AreKeys nodes.now above.now names.now (length nodes.now) keys.items) }
{
    let mut keys = Vec::new(alloc);
    for (number, node) in nodes.iter().enumerate() {
        let key = data_key(above[number], node, names[number]);
        keys.push(key)?;
    }
    Ok(keys)
}

impl<'n> Draft<'n> {
    /// What is read of these.
    pub(crate) fn read(alloc: Global, outline: &Outline<'n>) -> Result<Draft<'n>, AllocError>
        requires behind { AreBehind (rows_in outline.now) }
        requires names { AreNamed (rows_in outline.now) outline.now.statements.now }
        requires few { length (rows_in outline.now) < 2 ^ 32 }
        ensures { IfOk result (IsDraft outline.now) }
    {
        let nodes = outline.nodes;
        let above = places_above(alloc, nodes)?;
        let inside = operation_marks(alloc, nodes)?;
        let mut names = NameTable::new(alloc);
        let numbers = number_names(alloc, nodes, outline.statements, &mut names)?;
        let keys = data_keys(alloc, nodes, &above, &numbers)?;
        let index = Index::of(alloc, &keys)?;
        let strides = all_strides(alloc, &names, outline.leafrefs)?;
        Ok(Draft {
            above,
            inside,
            names,
            strides,
            index,
        })
    }
}
