//! Reading the identities of files.
ghost use Rattle.std.specs.Prelude.{◌≡◌, ◌≢◌, IfOk, OnOk};
ghost use Rattle.yv_text_statement.specs.{Order.{IsLeast}, declared.refusal.Refusal.{Refusal}, declared.refusal.Stop.TheVariants.{Fault, PatternBuild}};
ghost use Rattle.yv_link_scopes.specs.Views.{lent_in, files_in, rows_in};
ghost use Rattle.yv_link_identities.specs.{Refusals.{BadIdentities}, InnerPairs.{AreBases}, Tables.{AreIdentities}};

use crate::draft::Draft;
use crate::hierarchy::Hierarchy;
use crate::identity_table::Identities;
use crate::pairs::read_bases;
use crate::references::References;
use crate::refusals::first_refusal;
use crate::reverse::reverse;
use std::alloc::Global;
use yv_base_graph::{Ranking, nodes_on_cycles, rank};
use yv_link_scopes::Rows;
use yv_text_statement::Stop;

// The bases of all identities, and an order in which each comes after its bases; or the least
// refusal.
fn read_hierarchy(alloc: Global, draft: &Draft<'_, '_, '_>) -> Result<Hierarchy, Stop>
    ensures makes { IfOk result
        (λ h. AreBases (files_in draft.now.rows.now) (rows_in draft.now.rows.now) h.bases.items) }
    ensures clear { OnOk result
        (IsLeast (BadIdentities (files_in draft.now.rows.now) (rows_in draft.now.rows.now)) None) }
    ensures refusal { (r : Refusal) → result ≡ Err (Fault r)
        → IsLeast (BadIdentities (files_in draft.now.rows.now) (rows_in draft.now.rows.now))
        (Some r) }
    ensures builds { result ≢ Err PatternBuild }
{
    let bases = read_bases(alloc, draft)?;
    let cycles = nodes_on_cycles(alloc, &bases)?;
    if let Some(refusal) = first_refusal(draft, &cycles) {
        return Err(Stop::Fault(refusal));
    }
    let Ranking::Ranks { ranks, order } = rank(alloc, &bases)? else {
        unreachable!();
    };
    let derived = reverse(alloc, &bases)?;
    Ok(Hierarchy {
        bases,
        derived,
        ranks,
        order,
    })
}

/// The identities of these statements, or the least refusal of a base whose name means nothing and
/// of an identity that is derived from itself.
pub fn identities<'a, 'b>(alloc: Global, rows: &Rows<'a, 'b>) -> Result<Identities<'a>, Stop>
    // They are the identities of these files.
    ensures makes { IfOk result (AreIdentities (lent_in rows.now)) }
    // Identities are returned only if no base is unknown and no identity is derived from itself.
    ensures clear { OnOk result
        (IsLeast (BadIdentities (files_in rows.now) (rows_in rows.now)) None) }
    // A refusal is the least `UnknownIdentity` or `IdentityCycle`.
    ensures refusal { (r : Refusal) → result ≡ Err (Fault r)
        → IsLeast (BadIdentities (files_in rows.now) (rows_in rows.now)) (Some r) }
    // `PatternBuild` is never returned.
    ensures builds { result ≢ Err PatternBuild }
{
    let draft = Draft::read(alloc, rows)?;
    let hierarchy = match read_hierarchy(alloc, &draft) {
        Ok(hierarchy) => hierarchy,
        Err(stop) => return Err(stop),
    };
    let places = References::read(alloc, &draft.numbers.identities)?;
    Ok(Identities {
        names: draft.names,
        identities: draft.numbers.identities,
        places,
        hierarchy,
    })
}
