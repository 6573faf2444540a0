//! Numbered nodes.
ghost use Rattle.std.specs.{Prelude.{◌≡◌, ◌≢◌, ◌<◌, ◌≤◌, ◌+◌, All, ℕ, [], ◌∷◌, ◌++◌, length, map, slice_get, IfErr, IfOk, OnErr, OnOk}, Option.{option_map}};
ghost use Rattle.yv_nodes.specs.{NodeTypes.{typed_row, types_at}, InnerTypes.{with_own_types, types_in}};

use crate::node::{Node, NodeId};
use std::alloc::{AllocError, Global};
use std::marker::Model;
use std::rc::RcSlice;
use yv_values::PlainType;

// The types of the nodes to which these numbers lead.
fn types_of(
    alloc: Global,
    nodes: &[Node],
    origins: &[NodeId],
) -> Result<Vec<RcSlice<PlainType>>, AllocError>
    requires { All (λ origin. origin.0 < length nodes.now) origins.now }
    ensures { IfOk result
        (λ lists. map types_in lists.items
        ≡ map (λ origin. types_at nodes.now origin.0) origins.now) }
{
    let mut lists = Vec::new(alloc);
    for origin in origins {
        let types = nodes[origin.number() as usize].shared_types()?;
        lists.push(types)?;
    }
    Ok(lists)
}

// Gives each node the types of its number, from the last one on.
fn set_types(nodes: &mut Vec<Node>, mut lists: Vec<RcSlice<PlainType>>)
    requires { length lists.items ≡ length nodes.now.items }
    ensures each { length nodes.new.items ≡ length nodes.old.items }
    ensures rows { (n : ℕ) → slice_get nodes.new.items n
        ≡ option_map (with_own_types (map types_in lists.items) n) (slice_get nodes.old.items n) }
{
    while let Some(types) = lists.pop() {
        retype(nodes, lists.len(), types);
    }
}

// Gives the node of a number, where there is one, these types.
fn retype(nodes: &mut Vec<Node>, number: usize, types: RcSlice<PlainType>)
    ensures each { length nodes.new.items ≡ length nodes.old.items }
    ensures here { slice_get nodes.new.items number
        ≡ option_map (typed_row (types_in types)) (slice_get nodes.old.items number) }
    ensures elsewhere { (n : ℕ) → n ≢ number → slice_get nodes.new.items n
        ≡ slice_get nodes.old.items n }
{
    if number < nodes.len() {
        nodes[number].set_types(types);
    }
}

/// Nodes with numbers from 0, each after the one above it, and never more than a limit, so that
/// none has the root's number.
#[derive(Drop)]
pub struct Nodes {
    limit: u32,
    nodes: Vec<Node>,
    // For each node the number of the first node of which the same is said, as far as that is
    // known.
    firsts: Vec<u32>,
}

impl Model for Nodes {
    ghost use Rattle.std.specs.Prelude.{◌≤◌, length, min, vec_capacity};
    ghost use Rattle.yv_nodes.specs.{InnerAlike.{AreFirsts}, Rows.{WithinLimit, StandBehind}};

    ghost Value = { WithinLimit };

    ghost view = { λ a. record { limit = a.limit; capacity = min (vec_capacity a.nodes) (vec_capacity a.firsts); rows = a.nodes.items } };

    ghost invariant = { λ a. (length a.nodes.items ≤ a.limit) × StandBehind a.nodes.items × AreFirsts a.nodes.items a.firsts.items };
}

impl Nodes {
    ghost use Rattle.std.specs.{List.{slice_index_or}, Str.{bytes_eq}};
    ghost use Rattle.yv_nodes.specs.{Rows.{StandBehind, blank_row, rank}, Alike.{untyped_at}, InnerAlike.{IsFirst}, NodeTypes.{typed_rows, types_from}};

    /// No nodes.
    pub fn new(alloc: Global, limit: u32) -> Nodes
        // No nodes, within this limit.
        ensures limit { result.limit ≡ limit }
        // There are no nodes.
        ensures rows { result.rows ≡ [] }
    {
        Nodes {
            limit,
            nodes: Vec::new(alloc),
            firsts: Vec::new(alloc),
        }
    }

    /// No nodes, with room for so many: they are added without more memory being allocated for
    /// their list.
    pub fn with_room(alloc: Global, limit: u32, count: usize) -> Result<Nodes, AllocError>
        // The same, with room for so many.
        ensures limit { IfOk result (λ made. made.limit ≡ limit) }
        // There are no nodes.
        ensures rows { IfOk result (λ made. made.rows ≡ []) }
        // There is room for so many.
        ensures room { IfOk result (λ made. count ≤ made.capacity) }
    {
        Ok(Nodes {
            limit,
            nodes: Vec::with_capacity(alloc, count)?,
            firsts: Vec::with_capacity(alloc, count)?,
        })
    }

    /// The most nodes that there may be.
    pub fn limit(&self) -> u32
        ensures { result ≡ self.now.limit }
    {
        self.limit
    }

    /// How many nodes there are.
    pub fn len(&self) -> u32
        // The number of nodes, which is at most the limit; each node is after the one above it.
        ensures count { result ≡ length self.now.rows }
        // There are no more than the limit.
        ensures within { length self.now.rows ≤ self.now.limit }
        // Each node comes after the one above it.
        ensures behind { StandBehind self.now.rows }
    {
        let _limit = self.limit;
        self.nodes.len() as u32
    }

    /// Adds a node after the others, of which there must be fewer than the limit, the one above it
    /// among them. An error, which changes nothing, occurs only where more memory had to be
    /// allocated.
    pub fn push(&mut self, node: Node) -> Result<(), AllocError>
        // There are fewer nodes than the limit.
        requires room { length self.old.rows < self.old.limit }
        // The one above the node is there.
        requires parent { rank node.parent ≤ length self.old.rows }
        // The node is appended.
        ensures rows { OnOk result (self.new.rows ≡ self.old.rows ++ node ∷ []) }
        // After an error the nodes are as before.
        ensures keeps { OnErr result (self.new.rows ≡ self.old.rows) }
        // An error is answered only where more memory had to be allocated.
        ensures full { OnErr result (self.old.capacity ≤ length self.old.rows) }
        // The limit stays.
        ensures limit { self.new.limit ≡ self.old.limit }
    {
        let first = self.nodes.len() as u32;
        self.add(node, first)
    }

    /// The same of a node of which the same is said as of an earlier one: the two share it, and
    /// `first_alike` gives the same node for both, unless as many nodes share it already as can be
    /// counted.
    pub fn push_alike(&mut self, node: Node, earlier: NodeId) -> Result<(), AllocError>
        // There are fewer nodes than the limit.
        requires room { length self.old.rows < self.old.limit }
        // The one above the node is there.
        requires parent { rank node.parent ≤ length self.old.rows }
        // The earlier node is there.
        requires earlier { earlier.0 < length self.old.rows }
        // If the same is said of the node as of the earlier one, it is appended.
        ensures rows { (slice_index_or self.old.rows earlier.0 blank_row).label.defined
            ≡ node.label.defined
            → OnOk result (self.new.rows ≡ self.old.rows ++ node ∷ []) }
        // Otherwise another one is.
        ensures count { OnOk result (length self.new.rows ≡ length self.old.rows + 1) }
        // After an error the nodes are as before.
        ensures keeps { OnErr result (self.new.rows ≡ self.old.rows) }
        // An error is answered only where more memory had to be allocated.
        ensures full { OnErr result (self.old.capacity ≤ length self.old.rows) }
        // The limit is unchanged.
        ensures limit { self.new.limit ≡ self.old.limit }
    {
        let mut copy = node;
        if copy.share_with(&self.nodes[earlier.0 as usize]) {
            let first = self.firsts[earlier.0 as usize];
            self.add(copy, first)
        } else {
            self.push(copy)
        }
    }

    // Adds a node, and the number of the first of which the same is said: its own, where it is the
    // first itself.
    fn add(&mut self, node: Node, first: u32) -> Result<(), AllocError>
        requires room { length self.old.rows < self.old.limit }
        requires parent { rank node.parent ≤ length self.old.rows }
        requires first { IsFirst (self.old.rows ++ node ∷ []) (length self.old.rows) first }
        ensures rows { OnOk result (self.new.rows ≡ self.old.rows ++ node ∷ []) }
        ensures keeps { OnErr result (self.new.rows ≡ self.old.rows) }
        ensures full { OnErr result (self.old.capacity ≤ length self.old.rows) }
        ensures limit { self.new.limit ≡ self.old.limit }
    {
        self.firsts.push(first)?;
        if let Err(failed) = self.nodes.push(node) {
            let _ = self.firsts.pop();
            return Err(failed.into());
        }
        Ok(())
    }

    /// Gives each node the types of the node to which these numbers, one for each in order, lead: a
    /// list of types is shared and not copied, so that it takes time and memory linear in the
    /// nodes. Err only if memory runs out, and then all is as before.
    pub fn resolve(&mut self, alloc: Global, origins: &[NodeId]) -> Result<(), AllocError>
        // There is a number for each node.
        requires each { length origins.now ≡ length self.now.rows }
        // Each is that of a node.
        requires within { All (λ origin. origin.0 < length self.now.rows) origins.now }
        // Each node has the types of the node given for it, and nothing else has changed.
        ensures rows { OnOk result
            (self.new.rows ≡ typed_rows (types_from self.old.rows origins.now) 0 self.old.rows) }
        // The limit stays.
        ensures limit { self.new.limit ≡ self.old.limit }
        // After an error the nodes are as before.
        ensures keeps { IfErr result (λ error. self.new.rows ≡ self.old.rows) }
    {
        let types = types_of(alloc, &self.nodes, origins)?;
        set_types(&mut self.nodes, types);
        Ok(())
    }

    /// The node of this number.
    pub fn get(&self, id: NodeId) -> &Node
        // The limit; the row of that number; all rows, in order.
        requires { id.0 < length self.now.rows }
        // The limit; the row of that number; all rows, in order.
        ensures { result.now ≡ slice_index_or self.now.rows id.0 blank_row }
    {
        &self.nodes[id.0 as usize]
    }

    /// The first node of which, as is known, the same is said as of the node of this number, but
    /// for their types: it may be this node.
    pub fn first_alike(&self, id: NodeId) -> NodeId
        // The number is that of a node.
        requires { id.0 < length self.now.rows }
        // No later node, of which the same is said, but for types.
        ensures before { result.0 ≤ id.0 }
        // The same is said of both, but for their types.
        ensures alike { untyped_at self.now.rows result.0 ≡ untyped_at self.now.rows id.0 }
    {
        NodeId(self.firsts[id.0 as usize])
    }

    /// Whether two nodes have one name, whatever their modules. Names are read only where it is not
    /// known that the same is said of both.
    pub fn have_one_name(&self, one: NodeId, other: NodeId) -> bool
        // The first number is that of a node.
        requires one { one.0 < length self.now.rows }
        // So is the other.
        requires other { other.0 < length self.now.rows }
        // Whether the names of two nodes are the same.
        ensures { result
            ≡ bytes_eq (untyped_at self.now.rows one.0).name
            (untyped_at self.now.rows other.0).name }
    {
        if self.first_alike(one) == self.first_alike(other) {
            return true;
        }
        self.get(one).name() == self.get(other).name()
    }

    /// The nodes, in the order of their numbers.
    pub fn all(&self) -> &[Node]
        ensures { result.now ≡ self.now.rows }
    {
        self.nodes.as_slice()
    }
}
