//! The leafrefs of a schema tree.
ghost use Rattle.std.specs.{Prelude.{◌≡◌, ◌<◌, ◌↔◌, ◌^◌, All, ℕ, List, Option, Some, None, map, length, IfErr, IfOk, OnOk, slice_get}, List.{slice_index_or}, Option.{option_map}};
ghost use Rattle.yv_nodes.specs.{declared.node.NodeId.{NodeId}, Numbers.{rows_from}, Rows.{Row}, Tree.{Forest}};
ghost use Rattle.yv_node_leafrefs.specs.{Schema.{Referral, Schema, leafref_of_row}, Above.{AreBehind}, DefiningStatements.{AreNamed}};

use crate::draft::Draft;
use crate::graph::{cycles, origins};
use crate::leafref::Leafref;
use crate::outline::Outline;
use crate::refusals::first_refusal;
use crate::targets::targets;
use std::alloc::{AllocError, Global};
use yv_nodes::{NodeId, Nodes};
use yv_text_statement::Refusal;

/// What the leafrefs of a schema tree refer to, and the least that is wrong with them.
#[derive(Drop)]
pub struct Leafrefs {
    targets: Vec<Option<u32>>,
    fault: Option<Refusal>,
}

// The target of a node, if it has one.
fn target_at(targets: &[Option<u32>], number: u32) -> Option<u32>
    ensures { result ≡ slice_index_or targets.now number None }
{
    targets.get(number as usize).copied().unwrap_or(None)
}

// A number as that of a node.
fn node_id(number: Option<u32>) -> Option<NodeId>
    ensures { (x : NodeId) → (result ≡ Some x) ↔ (number ≡ Some x.0) }
{
    match number {
        Some(number) => Some(NodeId(number)),
        None => None,
    }
}

// Numbers as those of nodes.
fn all_numbered(alloc: Global, numbers: &[usize]) -> Result<Vec<NodeId>, AllocError>
    requires { All (λ n. n < 2 ^ 32) numbers.now }
    ensures { IfOk result (λ nodes. map (λ n. n.0) nodes.items ≡ numbers.now) }
{
    let mut nodes = Vec::new(alloc);
    for number in numbers {
        nodes.push(NodeId(*number as u32))?;
    }
    Ok(nodes)
}

impl Leafrefs {
    ghost use Rattle.yv_text_statement.specs.Order.{IsLeast};
    ghost use Rattle.yv_node_leafrefs.specs.{Targets.{RefersTo, HasTypesOf}, Bad.{BadLeafrefs}, Leafrefs.{AreLeafrefs}, Resolution.{IsTyped}};

    /// The leafrefs among these nodes. For each node `statements` has the number of the statement
    /// that defines it, so that a long name is compared once for all copies of a node, and `of`
    /// gives which of the leafrefs it is, if it is one. A name without prefix is of the module of
    /// the node that has the path. It takes time n log n in the nodes and in the steps of the
    /// leafrefs; at each node so many steps of its path are followed as nodes are nested, at most.
    /// Err only if memory runs out.
    pub fn read(
        alloc: Global,
        nodes: &Nodes,
        statements: &[usize],
        of: &[Option<usize>],
        leafrefs: &[Leafref],
    ) -> Result<Leafrefs, AllocError>
        // Each node comes after the one above it.
        requires behind { AreBehind nodes.now.rows }
        // Nodes of one statement have one name.
        requires names { AreNamed nodes.now.rows statements.now }
        // What is read is that of these nodes.
        ensures { IfOk result
            (AreLeafrefs
            (record { rows = nodes.now.rows; says = leafref_of_row of.now leafrefs.now })) }
    {
        // There are never more of them than numbers of 32 bits tell apart.
        let _count = nodes.len();
        let outline = Outline {
            nodes: nodes.all(),
            statements,
            of,
            leafrefs,
        };
        let draft = Draft::read(alloc, &outline)?;
        let targets = targets(alloc, &outline, &draft)?;
        let marks = cycles(alloc, &targets)?;
        let fault = first_refusal(&outline, &draft, &targets, &marks);
        Ok(Leafrefs { targets, fault })
    }

    /// The least that is wrong: BadPath at a leafref whose path leads to no leaf or leaf-list, or
    /// from configuration to none where an instance is required, and PathCycle at one that leads to
    /// itself along targets (RFC 7950, section 9.9).
    pub fn refusal(&self) -> Option<Refusal>
        ensures { (s : Schema) → AreLeafrefs s self.now → IsLeast (BadLeafrefs s) result }
    {
        self.fault
    }

    /// The node that a leafref refers to. None for other nodes, and inside operations and
    /// notifications.
    pub fn target(&self, node: NodeId) -> Option<NodeId>
        ensures { (s : Schema) → AreLeafrefs s self.now → (x : NodeId) → (result ≡ Some x)
            ↔ RefersTo s node.0 x.0 }
    {
        node_id(target_at(&self.targets, node.number()))
    }

    /// For each node the one whose types its values have: itself, or the node at the end of a chain
    /// of leafrefs. It takes time linear in the nodes, and nothing recurses along a chain.
    pub fn origins(&self, alloc: Global) -> Result<Vec<NodeId>, AllocError>
        // Nothing is refused of the leafrefs that were read.
        requires { (s : Schema) × AreLeafrefs s self.now × IsLeast (BadLeafrefs s) None }
        // There is a number for each node.
        ensures each { (s : Schema) → AreLeafrefs s self.now
            → IfOk result (λ origins. length origins.items ≡ length s.rows) }
        // It is the node whose types the node's values have: itself, or the one at the end of a
        // chain.
        ensures types { (s : Schema) → AreLeafrefs s self.now
            → IfOk result
            (λ origins. (n : ℕ) (e : NodeId) → slice_get origins.items n ≡ Some e
            → HasTypesOf s n e.0) }
    {
        let origins = origins(alloc, &self.targets)?;
        let nodes = all_numbered(alloc, &origins)?;
        Ok(nodes)
    }

    /// Gives each leafref among the nodes that were read the types of its target, where nothing is
    /// wrong with leafrefs (RFC 7950, section 9.9): else the nodes stay as they are. It takes time
    /// linear in the nodes. Err only if memory runs out.
    pub fn resolve(&self, alloc: Global, nodes: &mut Nodes) -> Result<(), AllocError>
        // The leafrefs were read from these nodes.
        requires { (s : Schema) × AreLeafrefs s self.now × (s.rows ≡ nodes.old.rows) }
        // The nodes are those of the resulting tree: with its leafrefs resolved if nothing is
        // refused, and otherwise as it was.
        ensures types { (s : Schema) (stated : Forest) → AreLeafrefs s self.now → s.rows
            ≡ nodes.old.rows → s.rows ≡ rows_from 0 stated
            → OnOk result
            ((tree : Forest) × IsTyped s stated tree × (nodes.new.rows ≡ rows_from 0 tree)) }
        // The limit stays.
        ensures limit { nodes.new.limit ≡ nodes.old.limit }
        // After an error the nodes are as before.
        ensures keeps { IfErr result (λ error. nodes.new.rows ≡ nodes.old.rows) }
    {
        match self.fault {
            Some(_) => Ok(()),
            None => {
                let origins = self.origins(alloc)?;
                nodes.resolve(alloc, &origins)?;
                Ok(())
            }
        }
    }
}
