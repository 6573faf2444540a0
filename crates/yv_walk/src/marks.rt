//! The data nodes that exist in each choice and case of an object.
ghost use Rattle.std.specs.Prelude.{◌≡◌, ◌==◌, ◌<◌, ◌≤◌, ℕ, length, IfSome, OnErr, OnOk, true};
ghost use Rattle.yv_nodes.specs.{declared.node.NodeId.{NodeId}, Rows.{below, rank}};
ghost use Rattle.yv_walk.specs.{InnerNextExisting.{is_before}, InnerMarks.{has_room, HasRoomAround}, Marks.{with_node, mark_at}, Existence.{holds, passes}, declared.existence.Existence.TheVariants.{Nothing}};

use crate::existence::Existence;
use std::alloc::{AllocError, Global};
use std::collections::BTreeMap;
use yv_nodes::NodeId;
use yv_schema_tables::Schema;

/// A mark for each choice and case in which a data node exists.
#[derive(Drop)]
pub struct Marks {
    rows: BTreeMap<u32, Existence>,
}

impl Marks {
    /// No node exists.
    pub fn new(alloc: Global) -> Marks
        ensures { (n : ℕ) → mark_at result n ≡ Nothing }
    {
        Marks {
            rows: BTreeMap::new(alloc),
        }
    }

    /// The nodes that exist in the choice or case of this number.
    pub fn existence_at(&self, number: u32) -> Existence
        ensures { result ≡ mark_at self.now number }
    {
        match self.rows.get(&number) {
            Some(standing) => *standing,
            None => Existence::Nothing,
        }
    }

    /// The least number from this one on that has a mark.
    pub(crate) fn next(&self, from: u32) -> Option<u32>
        ensures behind { IfSome result (λ next. from ≤ next) }
        ensures none { (n : ℕ) → from ≤ n → is_before n result ≡ true → mark_at self.now n
            ≡ Nothing }
    {
        let (number, _) = self.rows.range(from..).next()?;
        Some(*number)
    }

    /// Marks the choices and cases that contain a node that exists. It fails only if memory runs
    /// out, and then each mark is as before.
    pub fn mark(&mut self, schema: &Schema, id: NodeId) -> Result<(), AllocError>
        // The number is that of a node.
        requires { id.0 < length schema.now.nodes }
        // Each choice and case that contains the node has it in addition, and each other one has
        // what it had.
        ensures marks { OnOk result
            ((a : NodeId) → a.0 < length schema.now.nodes → passes schema.now a ≡ true
            → mark_at self.new a.0
            ≡ with_node (holds (rank a) (below schema.now a) id) (mark_at self.old a.0) id) }
        // Where memory runs out, each mark is as before.
        ensures same { OnErr result ((n : ℕ) → mark_at self.new n ≡ mark_at self.old n) }
    {
        self.make_room(schema, id)?;
        self.mark_all(schema, id);
        Ok(())
    }

    // Makes room for the marks of the choices and cases that contain a node, so that none of them
    // can fail.
    fn make_room(&mut self, schema: &Schema, id: NodeId) -> Result<(), AllocError>
        requires { id.0 < length schema.now.nodes }
        ensures same { (n : ℕ) → mark_at self.new n ≡ mark_at self.old n }
        ensures room { OnOk result (HasRoomAround schema.now self.new id) }
    {
        let mut here = schema.node(id).parent();
        while is_passed(schema, here) {
            self.make_room_at(here.number())?;
            here = schema.node(here).parent();
        }
        Ok(())
    }

    fn make_room_at(&mut self, number: u32) -> Result<(), AllocError>
        ensures same { (n : ℕ) → mark_at self.new n ≡ mark_at self.old n }
        ensures keeps { (n : ℕ) → has_room self.old n ≡ true → has_room self.new n ≡ true }
        ensures room { OnOk result (has_room self.new number ≡ true) }
    {
        if !self.rows.contains_key(&number) {
            self.rows.insert(number, Existence::Nothing)?;
        }
        Ok(())
    }

    // Marks the choices and cases that contain a node, where there is room.
    fn mark_all(&mut self, schema: &Schema, id: NodeId)
        requires node { id.0 < length schema.now.nodes }
        requires room { HasRoomAround schema.now self.old id }
        ensures { (a : NodeId) → a.0 < length schema.now.nodes → passes schema.now a ≡ true
            → mark_at self.new a.0
            ≡ with_node (holds (rank a) (below schema.now a) id) (mark_at self.old a.0) id }
    {
        let mut here = schema.node(id).parent();
        while is_passed(schema, here) {
            self.mark_number(here.number(), id);
            here = schema.node(here).parent();
        }
    }

    fn mark_number(&mut self, number: u32, id: NodeId)
        requires { has_room self.old number ≡ true }
        ensures marks { (n : ℕ) → mark_at self.new n
            ≡ with_node (number == n) (mark_at self.old n) id }
        ensures keeps { (n : ℕ) → has_room self.old n ≡ true → has_room self.new n ≡ true }
    {
        if let Some(mark) = self.rows.get_mut(&number) {
            *mark = mark.and(Existence::Only(id));
        }
    }
}

fn is_passed(schema: &Schema, id: NodeId) -> bool
    requires { rank id ≤ length schema.now.nodes }
    ensures { result ≡ passes schema.now id }
{
    id != Schema::ROOT && schema.node(id).kind().is_passed()
}
