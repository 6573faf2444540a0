//! Faults as they are reported, with the way to their place.
ghost use Rattle.std.specs.Prelude.{◌≡◌, ◌&&◌, ◌∷◌, [], ◌++◌, map, OnOk};
ghost use Rattle.yv_data_faults.specs.Trails.{places, IsWithin};
ghost use Rattle.yv_data_leafrefs.specs.InUse.{enforces};
ghost use Rattle.yv_validate.specs.{Faults.{flaw, flaw_if, reference_faults, repeat_faults}, InnerPromises.{Reports, unknown_at}};

use crate::walk::Walk;
use std::alloc::AllocError;
use yv_data_faults::{Fault, FaultKind, Faults, Path, Trail};
use yv_data_leafrefs::{RuleScope, ValuePath};
use yv_nodes::Node;

/// Reports the references that reach nothing, which are at these paths.
pub(crate) fn tell_references(paths: Vec<ValuePath>, faults: &mut Faults) -> Result<(), AllocError>
    ensures { OnOk result (faults.new.items ≡ faults.old.items ++ reference_faults paths.items) }
{
    for path in paths {
        faults.push(plain(FaultKind::Reference, Path::to_value(path)))?;
    }
    Ok(())
}

// A fault that is not about a `unique` statement, and does not repeat an earlier entry.
fn plain(kind: FaultKind, path: Path) -> Fault
    ensures { result ≡ flaw kind path }
{
    Fault {
        kind,
        path,
        number: 0,
        earlier: None,
    }
}

impl Walk<'_> {
    /// Reports a fault at the end of a way.
    pub(crate) fn tell(
        &self,
        kind: FaultKind,
        trail: &Trail<'_>,
        faults: &mut Faults,
    ) -> Result<(), AllocError>
        requires { IsWithin self.now.schema.now trail.now }
        ensures { OnOk result (Reports faults.old faults.new
            (flaw kind (places self.now.schema.now trail.now) ∷ [])) }
    {
        let path = faults.path(self.alloc, self.schema, trail)?;
        faults.push(plain(kind, path))
    }

    /// Reports that an entry or an item repeats an earlier one, if there is one, which has this
    /// place. A `unique` statement is given by its number.
    pub(crate) fn tell_repeat(
        &self,
        first: Option<u64>,
        kind: FaultKind,
        number: u32,
        trail: &Trail<'_>,
        faults: &mut Faults,
    ) -> Result<(), AllocError>
        requires { IsWithin self.now.schema.now trail.now }
        ensures { OnOk result (Reports faults.old faults.new
            (repeat_faults first kind (places self.now.schema.now trail.now) number)) }
    {
        let Some(place) = first else {
            return Ok(());
        };
        let path = faults.path(self.alloc, self.schema, trail)?;
        faults.push(Fault {
            kind,
            path,
            number,
            earlier: Some(place.min(4294967295) as u32),
        })
    }

    /// Reports members of an object that name no node.
    pub(crate) fn tell_unknowns(
        &self,
        names: &[&str],
        trail: &Trail<'_>,
        faults: &mut Faults,
    ) -> Result<(), AllocError>
        requires { IsWithin self.now.schema.now trail.now }
        ensures { OnOk result (Reports faults.old faults.new
            (map (λ key. unknown_at self.now trail.now key) (map (λ k. k.now) names.now))) }
    {
        for name in names {
            self.tell_unknown(name, trail, faults)?;
        }
        Ok(())
    }

    fn tell_unknown(
        &self,
        key: &str,
        trail: &Trail<'_>,
        faults: &mut Faults,
    ) -> Result<(), AllocError>
        requires { IsWithin self.now.schema.now trail.now }
        ensures { OnOk result (Reports faults.old faults.new
            (unknown_at self.now trail.now key.now ∷ [])) }
    {
        let path = faults.path_under(self.alloc, self.schema, trail, key)?;
        faults.push(plain(FaultKind::Unknown, path))
    }

    /// Reports a node that is missing, where it must be there.
    pub(crate) fn report_missing(
        &self,
        node: &Node,
        scope: RuleScope,
        trail: &Trail<'_>,
        faults: &mut Faults,
    ) -> Result<(), AllocError>
        requires { IsWithin self.now.schema.now trail.now }
        ensures { OnOk result (Reports faults.old faults.new
            (flaw_if (node.now.label.defined.is_mandatory && enforces scope)
            FaultKind.Mandatory (places self.now.schema.now trail.now))) }
    {
        if node.mandatory() && scope.enforces() {
            self.tell(FaultKind::Mandatory, trail, faults)?;
        }
        Ok(())
    }
}
