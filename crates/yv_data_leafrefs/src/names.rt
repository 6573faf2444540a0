//! What nodes are called in paths.
ghost use Rattle.std.specs.Prelude.{◌≡◌, None, IfOk, OnOk};
ghost use Rattle.yv_nodes.specs.Rows.{Rows};
ghost use Rattle.yv_data_leafrefs.specs.{InnerAnswers.{place_at}, InnerNames.{AreNames}};

use crate::place::Step;
use std::alloc::{AllocError, Global};
use std::collections::BTreeMap;
use std::rc::{Rc, RcStr};
use yv_nodes::NodeId;
use yv_schema_tables::Schema;

/// What nodes are called, each made once.
#[derive(Drop)]
pub(crate) struct StepNames {
    alloc: Global,
    steps: BTreeMap<u32, Rc<Step>>,
}

impl StepNames {
    /// No names.
    pub(crate) fn new(alloc: Global) -> StepNames
        ensures { (s : Rows) → AreNames s result }
    {
        StepNames {
            alloc,
            steps: BTreeMap::new(alloc),
        }
    }

    /// The name of a node.
    pub(crate) fn name_of(&mut self, schema: &Schema, node: NodeId) -> Result<Rc<Step>, AllocError>
        requires { AreNames schema.now self.old }
        ensures names { OnOk result (AreNames schema.now self.new) }
        ensures name { IfOk result
            (λ name. name.value.member ≡ (place_at schema.now node.0 None).member) }
    {
        if let Some(name) = self.steps.get(&node.0) {
            return name.clone();
        }
        let name = Rc::new(self.alloc, step_of(self.alloc, schema, node)?)?;
        self.steps.insert(node.0, name.clone()?)?;
        Ok(name)
    }
}

// A node as a step. What the schema doesn't have, and no walk notes, has no name.
fn step_of(alloc: Global, schema: &Schema, node: NodeId) -> Result<Step, AllocError>
    ensures { IfOk result (λ step. step ≡ place_at schema.now node.0 None) }
{
    if node.number() < schema.len() {
        Step::of(schema.node(node), None)
    } else {
        Ok(Step::of_name(RcStr::from_str(alloc, "")?, None))
    }
}
