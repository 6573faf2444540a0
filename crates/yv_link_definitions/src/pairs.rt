//! For each definition those to which it leads in one step.
ghost use Rattle.std.specs.Prelude.{◌≡◌, ◌↔◌, ℕ, Some, length, slice_get, IfOk};
ghost use Rattle.yv_link_scopes.specs.{Rows.{row}, Views.{files_in, rows_in}};
ghost use Rattle.yv_link_definitions.specs.{Leads.{Joins}, InnerGraph.{AreSteps, HasNoEdge}, InnerAnswers.{AreMeant}};

use crate::draft::Draft;
use crate::meanings::{meant_at, meant_kind};
use std::alloc::{AllocError, Global};
use yv_link_scopes::Entry;

// So many nodes, none with an edge.
fn no_steps(alloc: Global, count: usize) -> Result<Vec<Vec<usize>>, AllocError>
    ensures { IfOk result (λ steps. (length steps.items ≡ count) × HasNoEdge steps.items) }
{
    let mut steps = Vec::with_capacity(alloc, count)?;
    for _ in 0..count {
        steps.push(Vec::new(alloc))?;
    }
    Ok(steps)
}

impl<'a, 'b> Draft<'_, 'a, 'b> {
    // The definition for which a statement counts, and that which it means.
    fn pair(
        &self,
        meanings: &[Option<u32>],
        number: usize,
        entry: &Entry<'a, 'b>,
    ) -> Option<(usize, usize)>
        requires at { slice_get (rows_in self.now.rows.now) number ≡ Some (row entry.now) }
        requires meant { let rows = self.now.rows.now
            in AreMeant (files_in rows) (rows_in rows) meanings.now }
        ensures { let rows = self.now.rows.now
            in (a b : ℕ)
            → (result ≡ Some (a, b)) ↔ Joins (files_in rows) (rows_in rows) number a b }
    {
        let meant = meant_at(meanings, number)?;
        let own = self.owner(meant_kind(entry), number)?;
        Some((own, meant))
    }

    /// For each statement the definitions to which it leads in one step.
    pub(crate) fn steps(
        &self,
        alloc: Global,
        meanings: &[Option<u32>],
    ) -> Result<Vec<Vec<usize>>, AllocError>
        requires { let rows = self.now.rows.now
            in AreMeant (files_in rows) (rows_in rows) meanings.now }
        ensures { let rows = self.now.rows.now
            in IfOk result (λ steps. AreSteps (files_in rows) (rows_in rows) steps.items) }
    {
        let entries = self.rows.entries();
        let mut steps = no_steps(alloc, entries.len())?;
        for (number, entry) in entries.iter().enumerate() {
            if let Some((own, meant)) = self.pair(meanings, number, entry) {
                steps[own].push(meant)?;
            }
        }
        Ok(steps)
    }
}
