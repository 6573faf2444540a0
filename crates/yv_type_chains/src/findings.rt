//! What is found on the types before they are judged.
ghost use Rattle.std.specs.Prelude.{◌≡◌, IfOk};
ghost use Rattle.yv_link_scopes.specs.Views.{files_in, rows_in};
ghost use Rattle.yv_type_chains.specs.{Types.{IsOrderOfTypes}, InnerTables.{AreFollowed}, InnerFindings.{AreFound}};

use crate::draft::Draft;
use std::alloc::{AllocError, Global};

/// The base and the count of each type, and marks on those with a substatement that they don't
/// take, or that they need.
#[derive(Drop)]
pub(crate) struct Findings {
    pub bases: Vec<Option<usize>>,
    pub counts: Vec<Option<usize>>,
    pub misfits: Vec<bool>,
    pub met: Vec<bool>,
}

impl Findings {
    /// Looks at the types, this being an order of them.
    pub(crate) fn read(
        alloc: Global,
        draft: &Draft<'_, '_, '_>,
        order: &[usize],
    ) -> Result<Findings, AllocError>
        ensures { IfOk result
            (λ found. AreFollowed (files_in draft.now.rows.now) (rows_in draft.now.rows.now)
            draft.now.follows.items
            → IsOrderOfTypes (files_in draft.now.rows.now) (rows_in draft.now.rows.now) order.now
            → AreFound (files_in draft.now.rows.now) (rows_in draft.now.rows.now) found) }
    {
        let bases = draft.bases(alloc, order)?;
        let counts = draft.counts(alloc, order)?;
        let misfits = draft.misfits(alloc, &bases)?;
        let met = draft.mark_satisfied(alloc)?;
        Ok(Findings {
            bases,
            counts,
            misfits,
            met,
        })
    }
}
