//! What grows in a walk.
ghost use Rattle.std.specs.Prelude.{◌≡◌, [], IfOk, OnOk};
ghost use Rattle.yv_data_leafrefs.specs.Findings.{Finds, none_found};
ghost use Rattle.yv_validate.specs.InnerWalk.{value_found};

use crate::walk::Visit;
use std::alloc::{AllocError, Global};
use yv_data_faults::Faults;
use yv_data_leafrefs::Findings;
use yv_schema_tables::Schema;
use yv_values::{Matchers, Meter, Value};

/// What a walk has reported so far, what it has found of references and of their targets, the steps
/// that it took, and the matchers of patterns that it keeps.
#[derive(Drop)]
pub(crate) struct Progress<'a> {
    pub(crate) faults: Faults,
    pub(crate) found: Findings,
    pub(crate) meter: Meter,
    pub(crate) matchers: Matchers<'a>,
}

impl<'a> Progress<'a> {
    /// Nothing.
    pub(crate) fn new(alloc: Global) -> Result<Progress<'a>, AllocError>
        ensures faults { IfOk result (λ p. p.faults.items ≡ []) }
        ensures finds { IfOk result (λ p. p.found ≡ none_found) }
        ensures meter { IfOk result (λ p. p.meter ≡ 0) }
    {
        Ok(Progress {
            faults: Faults::new(alloc)?,
            found: Findings::new(alloc),
            meter: Meter::new(),
            matchers: Matchers::new(alloc),
        })
    }
}

/// Keeps a value of a leaf or an item in the object with this number, where the node is a target,
/// and notes it, where the node is a leafref with a link; with its number from 1, where it is an
/// item. Nothing is kept of what wasn't read.
pub(crate) fn meet(
    schema: &Schema,
    at: Visit<'_>,
    item: Option<u64>,
    read: &Option<Value>,
    found: &mut Findings,
) -> Result<(), AllocError>
    ensures { OnOk result (Finds found.old found.new
        (value_found schema.now at.entry.id at.entry.position item read.now)) }
{
    match read {
        Some(value) => {
            let links = schema.links();
            found.keep(links, at.id, value, at.position)?;
            found.note(links, at.id, item, value, at.position)
        }
        None => Ok(()),
    }
}
