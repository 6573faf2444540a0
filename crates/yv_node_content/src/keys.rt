//! The keys of a list.
ghost use Rattle.std.specs.{Prelude.{◌≡◌, ◌||◌, ℕ, List, Option, Some, IfOk, OnOk}, Rc.{rc_str_bytes}};
ghost use Rattle.yv_node_content.specs.{Steps.{has_step, is_step}, InnerNames.{has}};

use crate::step::PathStep;
use std::alloc::{AllocError, Global};
use std::collections::BTreeSet;
use std::marker::Model;
use std::rc::RcStr;

/// The keys that the `key` statement of a list names, each name being the one step of a path, in
/// order (RFC 7950, section 7.8.2): None where a prefix identifies no module. Contracts see the
/// list of steps.
#[derive(Drop)]
pub struct Keys {
    steps: Vec<Option<PathStep>>,
    set: BTreeSet<(RcStr, Option<u32>)>,
}

impl Model for Keys {
    ghost use Rattle.std.specs.Prelude.{◌≡◌, ℕ, List, Option};
    ghost use Rattle.yv_node_content.specs.{Steps.{Step, has_step}, InnerNames.{has}};

    ghost Value = { List (Option Step) };

    ghost view = { λ k. k.steps.items };

    ghost invariant = { λ k. (module_file : Option ℕ) (name : List ℕ) → has k.set module_file name ≡ has_step module_file name k.steps.items };
}

impl Keys {
    /// These steps.
    pub fn of(alloc: Global, steps: Vec<Option<PathStep>>) -> Result<Keys, AllocError>
        ensures { IfOk result (λ keys. keys ≡ steps.items) }
    {
        let set = set_of(alloc, &steps)?;
        Ok(Keys { steps, set })
    }

    /// The steps, in order.
    pub fn steps(&self) -> &[Option<PathStep>]
        ensures { result.now ≡ self.now }
    {
        self.steps.as_slice()
    }

    /// Whether one of the steps is written with this module, or without one, and this name. Takes
    /// time log n in the steps.
    pub fn contains(&self, module_file: Option<u32>, name: RcStr) -> bool
        ensures { result ≡ has_step module_file (rc_str_bytes name) self.now }
    {
        let step = (name, module_file);
        self.set.contains(&step)
    }
}

// These steps as a set.
fn set_of(
    alloc: Global,
    steps: &[Option<PathStep>],
) -> Result<BTreeSet<(RcStr, Option<u32>)>, AllocError>
    ensures { IfOk result
        (λ set. (module_file : Option ℕ) (name : List ℕ) → has set module_file name
        ≡ has_step module_file name steps.now) }
{
    let mut set = BTreeSet::new(alloc);
    for step in steps {
        add(&mut set, step)?;
    }
    Ok(set)
}

// Adds a step.
fn add(set: &mut BTreeSet<(RcStr, Option<u32>)>, step: &Option<PathStep>) -> Result<(), AllocError>
    ensures { OnOk result ((module_file : Option ℕ) (name : List ℕ)
        → has set.new module_file name
        ≡ (is_step module_file name step.now || has set.old module_file name)) }
{
    match step {
        Some(step) => insert(set, step.module_file, step.name.clone()?),
        None => Ok(()),
    }
}

// Adds the step of a module, or without one, and a name.
fn insert(
    set: &mut BTreeSet<(RcStr, Option<u32>)>,
    module_file: Option<u32>,
    name: RcStr,
) -> Result<(), AllocError>
    ensures { OnOk result ((h : Option ℕ) (n : List ℕ)
        → has set.new h n
        ≡ (is_step h n (Some (record { module_file = module_file; name = rc_str_bytes name }))
        || has set.old h n)) }
{
    set.insert((name, module_file))?;
    Ok(())
}
