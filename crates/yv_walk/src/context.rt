//! One object of a document, its members looked up once.
ghost use Rattle.std.specs.{Prelude.{◌≡◌, ◌<◌, ◌≤◌, ◌+◌, ◌∷◌, [], ◌++◌, ◌&&◌, ℕ, false, length, map, true, IfOk, IfSome, OnErr, OnOk}, List.{slice_index_or}, Option.{option_map, unwrap_or}};
ghost use Rattle.serde_json.specs.{Data.{no_members}, Find.{get_member}, View.{view, members_view}};
ghost use Rattle.yv_node_content.specs.Kinds.{is_data};
ghost use Rattle.yv_values.specs.Count.{count_up};
ghost use Rattle.yv_nodes.specs.{declared.node.NodeId.{NodeId}, Rows.{Rows, below, children_of, rank, row_at, tree_of}};
ghost use Rattle.yv_schema_tables.specs.Sound.{object_trees};
ghost use Rattle.yv_walk.specs.{InnerNextExisting.{Ascend, IsCount, IsUnkept, is_before}, Marks.{with_node, mark_at}, Existence.{ChildrenStand, child_exists, count_standing, holds, is_there as exists, passes, row_standing, stands_in, tree_standing}};

use crate::existence::Existence;
use crate::exists::is_there;
use crate::marks::Marks;
use crate::written_values::WrittenValues;
use serde_json::{Map, Value};
use std::alloc::{AllocError, Global};
use yv_node_content::NodeKind;
use yv_nodes::NodeId;
use yv_schema_tables::Schema;
use yv_values::Meter;

// So many children of a choice or case are few.
const FEW_CHILDREN: usize = 16;

/// The context of an object: what its members write: the values of its data nodes, the data nodes
/// that exist in its choices and cases, and the members that name no node.
#[derive(Drop)]
pub struct Context<'v> {
    parent: NodeId,
    members: Option<&'v Map<String, Value>>,
    values: WrittenValues<'v>,
    marks: Marks,
    unknown: Vec<&'v str>,
}

impl<'v> Context<'v> {
    ghost use Rattle.yv_walk.specs.Context.{IsContext, members_len, members_of, parent_of, unknown_names};

    /// An object that isn't written, of this node: it has no members.
    pub fn empty(alloc: Global, parent: NodeId) -> Context<'v>
        // The same for an object without members, under every schema.
        ensures context { (s : Rows) → IsContext s result }
        // It is an object of this node.
        ensures parent { parent_of result ≡ parent }
        // It has no members.
        ensures members { members_of result ≡ no_members }
    {
        Context {
            parent,
            members: None,
            values: WrittenValues::new(alloc),
            marks: Marks::new(alloc),
            unknown: Vec::new(alloc),
        }
    }

    /// Looks up each member of an object of this node, or of the root's, once. The meter counts the
    /// members. It fails only if memory runs out, and then the meter is as it was.
    pub fn read(
        alloc: Global,
        schema: &Schema,
        meter: &mut Meter,
        parent: NodeId,
        members: &'v Map<String, Value>,
    ) -> Result<Context<'v>, AllocError>
        // The number is that of a node, or the root.
        requires { rank parent ≤ length schema.now.nodes }
        // What was looked up is what these members write in an object of this node: values, what
        // exists in choices and cases, and unknown names.
        ensures context { IfOk result (IsContext schema.now) }
        // It is an object of this node.
        ensures parent { IfOk result (λ c. parent_of c ≡ parent) }
        // It has these members.
        ensures members { IfOk result (λ c. members_of c ≡ members_view members.now.entries) }
        // A step is counted for each member.
        ensures steps { OnOk result
            (count_up meter.new
            ≡ count_up (meter.old + members_len (members_view members.now.entries))) }
        // After an error the meter is as it was.
        ensures same { OnErr result (meter.new ≡ meter.old) }
    {
        // each reading of a schema tells what holds of it: that its rows are those of its tree, and
        // its nodes are found by their members
        let _children = schema.children(parent);
        let mut lookups = Meter::new();
        let mut values = WrittenValues::new(alloc);
        let mut marks = Marks::new(alloc);
        let mut unknown = Vec::new(alloc);
        for (key, value) in members.iter() {
            match schema.find(&mut lookups, parent, key.as_str()) {
                Some(id) => {
                    values.keep(id.number(), value)?;
                    mark_member(&mut marks, schema, id, value)?;
                }
                None => note(&mut unknown, key.as_str())?,
            }
        }
        meter.visit_all(lookups.steps());
        Ok(Context {
            parent,
            members: Some(members),
            values,
            marks,
            unknown,
        })
    }

    /// The node whose object it is.
    pub fn parent(&self) -> NodeId
        ensures { result ≡ parent_of self.now }
    {
        self.parent
    }

    /// The value that is written for a data node in the object.
    pub fn value(&self, id: NodeId) -> Option<&'v Value>
        ensures { (s : Rows) → IsContext s self.now → stands_in s (parent_of self.now) id ≡ true
            → is_data (row_at s id).label.defined.kind ≡ true
            → option_map (λ v. view v.now) result
            ≡ get_member (row_at s id).label.member (members_of self.now) }
    {
        self.values.get(id.number())
    }

    /// Which data nodes exist of a node in the object: the node itself, or what is in it where it
    /// is a choice or case.
    pub fn existence_of(&self, schema: &Schema, id: NodeId) -> Existence
        // Which data nodes exist of a node in the object.
        requires { id.0 < length schema.now.nodes }
        // Which data nodes exist of a node in the object.
        ensures { IsContext schema.now self.now → stands_in schema.now (parent_of self.now) id
            ≡ true
            → result ≡ tree_standing id.0 (tree_of schema.now id) (members_of self.now) }
    {
        let kind = schema.node(id).kind();
        if kind.is_passed() {
            self.marks.existence_at(id.number())
        } else {
            written_standing(kind, id, self.values.get(id.number()))
        }
    }

    /// How many children of a choice or case in the object exist: of a choice its cases, of which
    /// one may (RFC 7950, section 7.9).
    pub fn count(&self, schema: &Schema, id: NodeId) -> usize
        // How many children of a choice or case in the object exist.
        requires { id.0 < length schema.now.nodes }
        // How many children of a choice or case in the object exist.
        ensures { IsContext schema.now self.now → stands_in schema.now (parent_of self.now) id
            ≡ true
            → passes schema.now id ≡ true → result
            ≡ count_standing (rank id) (below schema.now id) (members_of self.now) }
    {
        if schema.children(id).len() <= FEW_CHILDREN {
            self.count_each(schema, id)
        } else {
            self.count_existing(schema, id)
        }
    }

    // Asks each child: where there are few, this takes the least time.
    fn count_each(&self, schema: &Schema, id: NodeId) -> usize
        requires { id.0 < length schema.now.nodes }
        ensures { IsCount schema.now self.now id result }
    {
        let mut total = 0;
        for child in schema.children(id) {
            if self.existence_of(schema, *child).any() {
                total += 1;
            }
        }
        total
    }

    // Goes from one that exists to the next.
    fn count_existing(&self, schema: &Schema, id: NodeId) -> usize
        requires { id.0 < length schema.now.nodes }
        ensures { IsCount schema.now self.now id result }
    {
        let _children = schema.children(id);
        let mut total = 0;
        let mut from = 0;
        while let Some(place) = self.next_existing(schema, id, from) {
            total += 1;
            from = place + 1;
        }
        total
    }

    /// The place, from 0, of the first child of a choice or case in the object that exists, from
    /// this place on. A child of which nothing is written takes no time, and any other that is
    /// passed takes time log n.
    pub fn next_existing(&self, schema: &Schema, id: NodeId, from: usize) -> Option<usize>
        // The number is that of a node.
        requires { id.0 < length schema.now.nodes }
        // The place is `from` or after it, it is that of a child of the choice or case, and that
        // child exists.
        ensures behind { IfSome result (λ place. from ≤ place) }
        // It is a place among the children.
        ensures within { IfSome result (λ place. place < length (children_of schema.now id)) }
        // The child there exists.
        ensures exists { IsContext schema.now self.now
            → stands_in schema.now (parent_of self.now) id ≡ true
            → passes schema.now id ≡ true
            → IfSome result
            (λ place. child_exists schema.now id (members_of self.now) place ≡ true) }
        // No child from this place up to it exists.
        ensures others { IsContext schema.now self.now
            → stands_in schema.now (parent_of self.now) id ≡ true
            → passes schema.now id ≡ true → (place : ℕ) → from ≤ place
            → place < unwrap_or result (length (children_of schema.now id))
            → child_exists schema.now id (members_of self.now) place ≡ false }
    {
        let children = schema.children(id);
        let mut place = self.pass_unkept(children, from);
        while place < children.len() {
            if self.existence_of(schema, children[place]).any() {
                return Some(place);
            }
            place = self.pass_unkept(children, place + 1);
        }
        None
    }

    /// Passes over children of a node, from this place on, of which nothing is written, where its
    /// children are in the object: none of them exists. The place after them, which is this one
    /// where there are none. It takes time log n.
    pub fn pass_absent(&self, schema: &Schema, parent: NodeId, from: usize) -> usize
        // The number is that of a node, or the root.
        requires { rank parent ≤ length schema.now.nodes }
        // The place is `from` or after it, and not past the end of the children where `from` is
        // not.
        ensures behind { from ≤ result }
        // It is not past the end of the children, unless the first place is.
        ensures within { from ≤ length (children_of schema.now parent)
            → result ≤ length (children_of schema.now parent) }
        // None of the children that are passed exists.
        ensures absent { IsContext schema.now self.now
            → ChildrenStand schema.now (parent_of self.now) parent
            → (place : ℕ) → from ≤ place → place < result
            → place < length (children_of schema.now parent)
            → child_exists schema.now parent (members_of self.now) place ≡ false }
    {
        self.pass_unkept(schema.children(parent), from)
    }

    // The first place from this one on where something may be kept of the node.
    fn pass_unkept(&self, nodes: &[NodeId], from: usize) -> usize
        requires { Ascend nodes.now }
        ensures behind { from ≤ result }
        ensures within { from ≤ length nodes.now → result ≤ length nodes.now }
        ensures unkept { (place : ℕ) (d : NodeId) → from ≤ place → place < result → place
            < length nodes.now
            → IsUnkept self.now (slice_index_or nodes.now place d).0 }
    {
        let Some(first) = nodes.get(from) else {
            return from;
        };
        match self.next_kept(first.number()) {
            Some(number) => count_below(nodes, number),
            None => nodes.len(),
        }
    }

    // The least number from this one on at which something is kept.
    fn next_kept(&self, from: u32) -> Option<u32>
        ensures behind { IfSome result (λ next. from ≤ next) }
        ensures unkept { (n : ℕ) → from ≤ n → is_before n result ≡ true → IsUnkept self.now n }
    {
        let value = self.values.next(from);
        let mark = self.marks.next(from);
        match (value, mark) {
            (Some(one), Some(other)) => Some(one.min(other)),
            (one, None) => one,
            (None, other) => other,
        }
    }

    /// The names of the members that name no node, in the order of the object.
    pub fn unknown(&self) -> &[&'v str]
        ensures { (s : Rows) → IsContext s self.now
            → map (λ k. k.now) result.now
            ≡ unknown_names (object_trees s (parent_of self.now)) (members_of self.now) }
    {
        self.unknown.as_slice()
    }
}

// Whether a node exists that isn't a choice or case, by what is written for it.
fn written_standing(kind: NodeKind, id: NodeId, written: Option<&Value>) -> Existence
    ensures { result ≡ row_standing kind id (option_map (λ v. view v.now) written.entry) }
{
    match written {
        Some(value) if is_there(kind, value) => Existence::Only(id),
        _ => Existence::Nothing,
    }
}

// Marks what a member makes exist that writes the node.
fn mark_member(
    marks: &mut Marks,
    schema: &Schema,
    id: NodeId,
    value: &Value,
) -> Result<(), AllocError>
    requires { id.0 < length schema.now.nodes }
    ensures { OnOk result ((a : NodeId) → a.0 < length schema.now.nodes → passes schema.now a ≡ true
        → mark_at marks.new a.0
        ≡ with_node
        (exists (row_at schema.now id).label.defined.kind (view value.now)
        && holds (rank a) (below schema.now a) id)
        (mark_at marks.old a.0) id) }
{
    if is_there(schema.node(id).kind(), value) {
        marks.mark(schema, id)?;
    }
    Ok(())
}

// How many of the nodes, which ascend, have numbers below this one.
fn count_below(nodes: &[NodeId], number: u32) -> usize
    requires { Ascend nodes.now }
    ensures bound { result ≤ length nodes.now }
    ensures below { (place : ℕ) (d : NodeId) → place < result → (slice_index_or nodes.now place d).0
        < number }
    ensures others { (place : ℕ) (d : NodeId) → result ≤ place → place < length nodes.now → number
        ≤ (slice_index_or nodes.now place d).0 }
{
    nodes.partition_point(|node| node.0 < number)
}

fn note<'v>(unknown: &mut Vec<&'v str>, key: &'v str) -> Result<(), AllocError>
    ensures { OnOk result
        (map (λ k. k.now) unknown.new.items ≡ map (λ k. k.now) unknown.old.items ++ key.now ∷ []) }
{
    unknown.push(key)?;
    Ok(())
}
