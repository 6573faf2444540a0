//! The values of leafs that were met.
ghost use Rattle.std.specs.Prelude.{◌≡◌, ◌==◌, ◌<◌, ℕ, length, map, Some, None, IfOk, OnOk, if◌then◌else◌};
ghost use Rattle.yv_nodes.specs.Rows.{Rows, row_at};
ghost use Rattle.yv_validate.specs.{InnerNotes.{default_value, Gains, noted_at}, Values.{all_values, tuple_of}};

use std::alloc::{AllocError, Global};
use std::collections::BTreeMap;
use yv_nodes::NodeId;
use yv_schema_tables::Schema;
use yv_values::{Tuple, Value};

/// The values of leafs, by the leafs' numbers. A default in use is only in the schema, and is
/// copied only where it is wanted.
#[derive(Drop)]
pub(crate) struct Notes {
    alloc: Global,
    values: BTreeMap<u32, Option<Value>>,
}

impl Notes {
    /// No values.
    pub(crate) fn new(alloc: Global) -> Notes
        ensures { (s : Rows) (n : ℕ) → noted_at s result n ≡ None }
    {
        Notes {
            alloc,
            values: BTreeMap::new(alloc),
        }
    }

    /// Notes a value that was read.
    pub(crate) fn keep(&mut self, id: NodeId, value: Value) -> Result<(), AllocError>
        ensures { OnOk result
            ((s : Rows) → Gains s self.old self.new (λ n. if id.0 == n then Some value else None)) }
    {
        self.values.insert(id.0, Some(value))?;
        Ok(())
    }

    /// Notes that the default of a leaf is in use, where it has one.
    pub(crate) fn keep_default(&mut self, schema: &Schema, id: NodeId) -> Result<(), AllocError>
        requires { id.0 < length schema.now.nodes }
        ensures { OnOk result (Gains schema.now self.old self.new
            (λ n. if id.0 == n then default_value (row_at schema.now id).label else None)) }
    {
        if schema.node(id).defaults().is_empty() {
            return Ok(());
        }
        self.values.insert(id.0, None)?;
        Ok(())
    }

    /// The value of a leaf, once more.
    pub(crate) fn value(&self, schema: &Schema, id: NodeId) -> Result<Option<Value>, AllocError>
        ensures { IfOk result (λ v. v ≡ noted_at schema.now self.now id.0) }
    {
        match self.values.get(&id.0) {
            None => Ok(None),
            Some(Some(value)) => Ok(Some(value.copy(self.alloc)?)),
            Some(None) => default_of(self.alloc, schema, id),
        }
    }

    /// The values of leafs, where there are some and each has one.
    pub(crate) fn tuple(
        &self,
        schema: &Schema,
        leafs: &[NodeId],
    ) -> Result<Option<Tuple>, AllocError>
        ensures { IfOk result
            (λ t. t ≡ tuple_of (noted_at schema.now self.now) (map (λ n. Some n) leafs.now)) }
    {
        if leafs.is_empty() {
            return Ok(None);
        }
        self.values(schema, leafs)
    }

    fn values(&self, schema: &Schema, leafs: &[NodeId]) -> Result<Option<Tuple>, AllocError>
        ensures { IfOk result
            (λ t. t ≡ all_values (noted_at schema.now self.now) (map (λ n. Some n) leafs.now)) }
    {
        let mut tuple = Tuple::new(self.alloc);
        for leaf in leafs {
            match self.value(schema, *leaf)? {
                Some(value) => tuple.push(value)?,
                None => return Ok(None),
            }
        }
        Ok(Some(tuple))
    }
}

#[tactic(auto, using(crate::proofs::NoteGrowth::last_is))]
fn default_of(alloc: Global, schema: &Schema, id: NodeId) -> Result<Option<Value>, AllocError>
    ensures { IfOk result (λ v. v ≡ default_value (row_at schema.now id).label) }
{
    if id.number() >= schema.len() {
        return Ok(None);
    }
    match schema.node(id).defaults().last() {
        Some(default) => Ok(Some(default.copy(alloc)?)),
        None => Ok(None),
    }
}
