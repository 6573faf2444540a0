//! For each identity the bases that it names, by their numbers among the identities.
ghost use Rattle.std.specs.Prelude.{◌≡◌, length, IfOk};
ghost use Rattle.yv_link_scopes.specs.{Rows.{row}, Views.{files_in, rows_in}};
ghost use Rattle.yv_link_identities.specs.InnerPairs.{AreBases, HasNoEdge, pair_of};

use crate::draft::{Draft, is_base};
use std::alloc::{AllocError, Global};
use yv_link_scopes::Entry;

// An identity and a base that a statement gives it.
fn pair<'a, 'b>(draft: &Draft<'_, 'a, 'b>, entry: &Entry<'a, 'b>) -> Option<(usize, usize)>
    ensures { result
        ≡ pair_of (files_in draft.now.rows.now) (rows_in draft.now.rows.now) (row entry.now) }
{
    if !is_base(entry) {
        return None;
    }
    let own = draft.numbers.node(entry.scope)?;
    let meant = draft.meaning(entry)?;
    let base = draft.numbers.node(meant)?;
    Some((own, base))
}

/// So many identities, none with a base.
pub(crate) fn no_bases(alloc: Global, count: usize) -> Result<Vec<Vec<usize>>, AllocError>
    ensures { IfOk result (λ bases. (length bases.items ≡ count) × HasNoEdge bases.items) }
{
    let mut bases = Vec::new(alloc);
    for _ in 0..count {
        bases.push(Vec::new(alloc))?;
    }
    Ok(bases)
}

/// The bases of each identity.
pub(crate) fn read_bases(
    alloc: Global,
    draft: &Draft<'_, '_, '_>,
) -> Result<Vec<Vec<usize>>, AllocError>
    ensures { IfOk result
        (λ bases. AreBases (files_in draft.now.rows.now) (rows_in draft.now.rows.now) bases.items) }
{
    let mut bases = no_bases(alloc, draft.numbers.identities.len())?;
    for entry in draft.rows.entries() {
        if let Some((own, base)) = pair(draft, entry) {
            bases[own].push(base)?;
        }
    }
    Ok(bases)
}
