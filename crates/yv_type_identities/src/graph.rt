//! What is directly derived from each identity.
ghost use Rattle.std.specs.Prelude.{◌≡◌, ◌↔◌, ◌<◌, ℕ, None, Some, true, length, map, IfOk, IfSome};
ghost use Rattle.yv_base_graph.specs.Graph.{IsGraph};
ghost use Rattle.yv_text_statement.specs.Selection.{ModuleChoice};
ghost use Rattle.yv_link_scopes.specs.{Files.{Files, brief_of}, RowList.{rows_of}, Rows.{row}};
ghost use Rattle.yv_link_identities.specs.InnerPairs.{HasNoEdge};
ghost use Rattle.yv_link.specs.LinkedFiles.{AreLinked};
ghost use Rattle.yv_type_identities.specs.InnerRuns.{AreDerived, AreIdentityPlaces, is_identity_in, pair_of};

use crate::candidates::is_identity;
use crate::identities::bases_of;
use crate::identity_places::IdentityPlaces;
use crate::inside::base_of;
use std::alloc::{AllocError, Global};
use yv_link::{IdentityRef, Linked};
use yv_link_scopes::Entry;

// Whether the numbered statement is an identity.
fn is_identity_at(entries: &[Entry<'_, '_>], number: usize) -> bool
    ensures { result ≡ is_identity_in (map row entries.now) number }
{
    match entries.get(number) {
        Some(entry) => is_identity(entry),
        None => false,
    }
}

// The numbers of a base and of the identity to which a statement gives it.
fn pair<'a, 'b>(
    linked: &Linked<'a, 'b>,
    entries: &[Entry<'a, 'b>],
    places: &IdentityPlaces,
    entry: &Entry<'a, 'b>,
) -> Option<(usize, usize)>
    ensures within { IfSome result
        (λ p. (p.0 < length entries.now) × (p.1 < length entries.now)) }
    ensures gives { (files : Files) (choice : ModuleChoice) → AreLinked files choice linked.now
        → result
        ≡ pair_of (map brief_of files) (rows_of files) (map row entries.now) places.now
        (row entry.now) }
{
    let base = places.get(base_of(linked, entry)?)?;
    if base < entries.len() && is_identity_at(entries, entry.scope) && entry.scope < entries.len() {
        Some((base, entry.scope))
    } else {
        None
    }
}

// An edge that a numbered statement gives: from a base to what is directly derived from it, and
// from the first statement, which isn't an identity, to each identity without a base. So a search
// of the graph begins with these, and meets all others from their bases.
fn edge<'a, 'b>(
    linked: &Linked<'a, 'b>,
    entries: &[Entry<'a, 'b>],
    inside: &[Vec<IdentityRef>],
    places: &IdentityPlaces,
    number: usize,
    entry: &Entry<'a, 'b>,
) -> Option<(usize, usize)>
    requires { number < length entries.now }
    ensures within { IfSome result
        (λ p. (p.0 < length entries.now) × (p.1 < length entries.now)) }
    ensures sound { (files : Files) (choice : ModuleChoice) → AreLinked files choice linked.now
        → (base own : ℕ) → result ≡ Some (base, own)
        → is_identity_in (map row entries.now) base ≡ true
        → pair_of (map brief_of files) (rows_of files) (map row entries.now) places.now
        (row entry.now)
        ≡ Some (base, own) }
    ensures full { (files : Files) (choice : ModuleChoice) → AreLinked files choice linked.now
        → (base own : ℕ)
        → pair_of (map brief_of files) (rows_of files) (map row entries.now) places.now
        (row entry.now)
        ≡ Some (base, own)
        → result ≡ Some (base, own) }
{
    if let Some(pair) = pair(linked, entries, places, entry) {
        return Some(pair);
    }
    let is_first = is_identity(entry) && bases_of(inside, number).is_empty();
    if is_first && !is_identity_at(entries, 0) {
        Some((0, number))
    } else {
        None
    }
}

// So many nodes, and no edge.
fn no_edges(alloc: Global, count: usize) -> Result<Vec<Vec<usize>>, AllocError>
    ensures { IfOk result (λ graph. (length graph.items ≡ count) × HasNoEdge graph.items) }
{
    let mut graph = Vec::new(alloc);
    for _ in 0..count {
        graph.push(Vec::new(alloc))?;
    }
    Ok(graph)
}

/// For each identity the numbers of those that have it as a base.
pub(crate) fn read_graph(
    alloc: Global,
    linked: &Linked<'_, '_>,
    inside: &[Vec<IdentityRef>],
    places: &IdentityPlaces,
) -> Result<Vec<Vec<usize>>, AllocError>
    ensures graph { IfOk result (λ graph. IsGraph graph.items) }
    ensures exact { IfOk result
        (λ graph. (files : Files) (choice : ModuleChoice) → AreLinked files choice linked.now
        → AreIdentityPlaces (rows_of files) places.now
        → AreDerived (map brief_of files) (rows_of files) graph.items) }
{
    let entries = linked.rows().entries();
    let mut graph = no_edges(alloc, entries.len())?;
    for (number, entry) in entries.iter().enumerate() {
        if let Some((base, own)) = edge(linked, entries, inside, places, number, entry) {
            graph[base].push(own)?;
        }
    }
    Ok(graph)
}
