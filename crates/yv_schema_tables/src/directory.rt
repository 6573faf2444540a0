//! The directory by which the nodes of an object are found.
ghost use Rattle.std.specs.Prelude.{◌≡◌, None, is_some, IfOk, OnOk};
ghost use Rattle.indexmap.specs.IndexMap.{get};
ghost use Rattle.yv_schema_tables.specs.{declared.member.Member.{Member}, InnerTables.{first_held, held_at, kept_first, same_member}};

use crate::member::Member;
use indexmap::IndexMap;
use std::alloc::{AllocError, Global};
use yv_nodes::NodeId;

/// Nodes by their members, in schema order: of several with one member the first.
type Table = IndexMap<Member, NodeId>;

/// A node and its member.
#[derive(Clone, Copy)]
pub(crate) struct HeldNode {
    pub(crate) member: Member,
    pub(crate) node: NodeId,
}

/// Nodes by what a JSON member calls them (RFC 7951, section 4): by the file of the module whose
/// name comes first, where one does, and by the numbers of their names. Most nodes have few
/// children, so a few are a list: it takes one piece of memory, a table several.
#[derive(Drop)]
pub(crate) enum Directory {
    Few(Vec<HeldNode>),
    Many(Box<Table>),
}

/// How many nodes are a list at most.
const FEW: usize = 8;

// The first of these nodes that has this member.
fn first_held(nodes: &[HeldNode], member: Member) -> Option<NodeId>
    ensures { result ≡ first_held nodes.now member }
{
    for held in nodes {
        if held.member == member {
            return Some(held.node);
        }
    }
    None
}

// Adds a node to a table if there is none of its member, and returns whether there was one.
fn keep_in_table(table: &mut Table, member: Member, child: NodeId) -> Result<bool, AllocError>
    ensures repeats { IfOk result
        (λ repeated. repeated ≡ is_some (get same_member table.old member)) }
    ensures keeps { OnOk result ((other : Member) → get same_member table.new other
        ≡ kept_first (same_member member other) child (get same_member table.old other)) }
{
    if table.contains_key(&member) {
        return Ok(true);
    }
    table.insert(member, child)?;
    Ok(false)
}

// The same where there are few.
fn keep_among_few(
    nodes: &mut Vec<HeldNode>,
    member: Member,
    node: NodeId,
) -> Result<bool, AllocError>
    ensures repeats { IfOk result
        (λ repeated. repeated ≡ is_some (first_held nodes.old.items member)) }
    ensures keeps { OnOk result ((other : Member) → first_held nodes.new.items other
        ≡ kept_first (same_member member other) node (first_held nodes.old.items other)) }
{
    if first_held(nodes, member).is_some() {
        return Ok(true);
    }
    nodes.push(HeldNode { member, node })?;
    Ok(false)
}

impl Directory {
    /// A directory of no nodes.
    pub(crate) fn new(alloc: Global) -> Directory
        ensures { (member : Member) → held_at result member ≡ None }
    {
        Directory::Few(Vec::new(alloc))
    }

    /// A directory of no nodes yet, with room for so many.
    pub(crate) fn with_room(alloc: Global, count: usize) -> Result<Directory, AllocError>
        ensures { IfOk result (λ directory. (member : Member) → held_at directory member ≡ None) }
    {
        if count <= FEW {
            return Ok(Directory::Few(Vec::with_capacity(alloc, count)?));
        }
        let table = IndexMap::with_capacity(alloc, count)?;
        Ok(Directory::Many(Box::new(alloc, table)?))
    }

    /// Adds a node if there is none of its member, and returns whether there was one.
    pub(crate) fn keep_first(&mut self, member: Member, child: NodeId) -> Result<bool, AllocError>
        ensures repeats { IfOk result
            (λ repeated. repeated ≡ is_some (held_at self.old member)) }
        ensures keeps { OnOk result ((other : Member) → held_at self.new other
            ≡ kept_first (same_member member other) child (held_at self.old other)) }
    {
        match self {
            Directory::Few(nodes) => keep_among_few(nodes, member, child),
            Directory::Many(table) => keep_in_table(table, member, child),
        }
    }

    /// Gives back the room that isn't needed: a table is made with more.
    pub(crate) fn settle(&mut self)
        ensures { (member : Member) → held_at self.new member ≡ held_at self.old member }
    {
        if let Directory::Many(table) = self {
            table.shrink_to_fit();
        }
    }

    /// The node of this member.
    pub(crate) fn get(&self, member: Member) -> Option<NodeId>
        ensures { result ≡ held_at self.now member }
    {
        match self {
            Directory::Few(nodes) => first_held(nodes, member),
            Directory::Many(table) => table.get(&member).copied(),
        }
    }
}
