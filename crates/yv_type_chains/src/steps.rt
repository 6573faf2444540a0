//! For each type those from which it takes its values.
ghost use Rattle.std.specs.{Prelude.{◌≡◌, ◌↔◌, ℕ, Some, IfOk, slice_get}, List.{Contains}};
ghost use Rattle.yv_link_scopes.specs.{Rows.{row}, Views.{rows_in}};
ghost use Rattle.yv_type_chains.specs.{Types.{is_kind}, InnerSteps.{AreEdges, AreSteps}};

use crate::draft::Draft;
use crate::inside::is_type;
use std::alloc::{AllocError, Global};
use yv_base_tables::slots;
use yv_link_scopes::{Entry, name_of};

/// Whether a statement is a type that names this built-in type.
pub(crate) fn is_kind(name: &str, entry: &Entry<'_, '_>) -> bool
    ensures { result ≡ is_kind name.now (row entry.now) }
{
    is_type(entry) && name_of(entry.statement) == name
}

// The number that there is, as a list.
fn one_or_none(alloc: Global, number: Option<usize>) -> Result<Vec<usize>, AllocError>
    ensures { IfOk result (λ list. (j : ℕ) → Contains list.items j ↔ (number ≡ Some j)) }
{
    let mut list = Vec::new(alloc);
    if let Some(number) = number {
        list.push(number)?;
    }
    Ok(list)
}

impl<'a, 'b> Draft<'_, 'a, 'b> {
    // The types from which a statement takes its values.
    fn edges(
        &self,
        alloc: Global,
        number: usize,
        entry: &Entry<'a, 'b>,
    ) -> Result<Vec<usize>, AllocError>
        requires { slice_get (rows_in self.now.rows.now) number ≡ Some (row entry.now) }
        ensures { IfOk result
            (λ list. AreEdges (rows_in self.now.rows.now) self.now.follows.items number
            (row entry.now) list.items) }
    {
        if is_kind("union", entry) {
            self.inside.at(number).to_vec(alloc)
        } else {
            let followed = slots::get(&self.follows, number);
            let list = one_or_none(alloc, followed)?;
            Ok(list)
        }
    }

    /// For each statement the types from which it takes its values.
    pub(crate) fn steps(&self, alloc: Global) -> Result<Vec<Vec<usize>>, AllocError>
        ensures { IfOk result
            (λ steps. AreSteps (rows_in self.now.rows.now) self.now.follows.items steps.items) }
    {
        let entries = self.rows.entries();
        let mut steps = Vec::with_capacity(alloc, entries.len())?;
        for (number, entry) in entries.iter().enumerate() {
            steps.push(self.edges(alloc, number, entry)?)?;
        }
        Ok(steps)
    }
}
