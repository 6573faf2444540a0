//! The directories of all nodes.
ghost use Rattle.std.specs.Prelude.{◌≡◌, All, length, IfOk};
ghost use Rattle.yv_text_statement.specs.Order.{Among, IsLeast};
ghost use Rattle.yv_schema_tables.specs.{InnerTables.{AreDirectories, Namesakes}, InnerNames.{AreOfNodes}, InnerSits.{HaveTrees, family_in}};

use crate::directory::Directory;
use crate::table::Family;
use std::alloc::{AllocError, Global};
use yv_nodes::Nodes;
use yv_text_statement::{Refusal, lesser};

/// A directory for each node, empty for choices and cases, and the least refusal of a node that has
/// the module and the name of an earlier one below one parent.
#[derive(Drop)]
pub(crate) struct NodeTables {
    pub(crate) directories: Vec<Directory>,
    pub(crate) duplicate: Option<Refusal>,
}

/// The directories of the nodes, whose names have these numbers.
pub(crate) fn node_tables(
    alloc: Global,
    nodes: &Nodes,
    names: &[u32],
) -> Result<NodeTables, AllocError>
    requires names { AreOfNodes nodes.now.rows names.now }
    requires trees { All (λ row. HaveTrees nodes.now.rows row.children) nodes.now.rows }
    ensures directories { IfOk result
        (λ found. AreDirectories nodes.now.rows found.directories.items) }
    ensures duplicates { IfOk result (λ found. IsLeast
        (Among nodes.now.rows (λ k row. Namesakes (family_in nodes.now.rows row))
        (length nodes.now.rows)) found.duplicate) }
{
    let mut directories = Vec::with_capacity(alloc, nodes.len() as usize)?;
    let mut duplicate = None;
    for node in nodes.all() {
        let family = Family::below(alloc, nodes, names, node)?;
        duplicate = lesser(duplicate, family.duplicate);
        directories.push(family.directory)?;
    }
    Ok(NodeTables {
        directories,
        duplicate,
    })
}
