//! Which augments give something, and in which order.
ghost use Rattle.std.specs.Prelude.{◌≡◌, ◌<◌, ◌+◌, ◌^◌, ◌==◌, ◌&&◌, not, ℕ, List, None, Some, map, length, slice_get, slice_index_or, if◌then◌else◌, IfOk};
ghost use Rattle.yv_link_scopes.specs.{Views.{rows_in}, Rows.{Row, row}};
ghost use Rattle.yv_base_tables.specs.Families.{by_place, numbers_at};
ghost use Rattle.yv_expand_uses.specs.{InnerCounts.{count_at, count_more}, AugmentOrder.{gives, giving_from, giving_places, is_in, is_node_or_uses, item_places, place_before, place_of}};
ghost use Rattle.yv_expand_statements.specs.StatementBlocks.{is_augment};
ghost use Rattle.yv_expand_statements.specs.StatementBlocks.{is_refine};

use crate::if_features::is_augment;
use crate::kinds::kind_given;
use std::alloc::{AllocError, Global};
use yv_base_tables::Families;
use yv_link_scopes::{Entry, Rows};
use yv_text_statement::Keyword;

// The block in which a statement is that is an item.
fn item_place(entry: &Entry<'_, '_>) -> Option<usize>
    ensures { result
        ≡ (if is_node_or_uses (row entry.now) then Some (row entry.now).scope else None) }
{
    if kind_given(entry).is_some() {
        Some(entry.scope)
    } else {
        None
    }
}

// The block in which a statement is that is an augment.
fn augment_place(entry: &Entry<'_, '_>) -> Option<usize>
    ensures { result ≡ (if is_augment (row entry.now) then Some (row entry.now).scope else None) }
{
    if is_augment(entry) {
        Some(entry.scope)
    } else {
        None
    }
}

/// For each augment the block that contains it.
pub(crate) fn augment_places(
    alloc: Global,
    rows: &Rows<'_, '_>,
) -> Result<Vec<Option<usize>>, AllocError>
    ensures { IfOk result
        (λ places. map (λ r. if is_augment r then Some r.scope else None) (rows_in rows.now)
        ≡ places.items) }
{
    let mut places = Vec::new(alloc);
    for entry in rows.entries() {
        places.push(augment_place(entry))?;
    }
    Ok(places)
}

// The block in which a statement is that is a refine.
fn refine_place(entry: &Entry<'_, '_>) -> Option<usize>
    ensures { result ≡ (if is_refine (row entry.now) then Some (row entry.now).scope else None) }
{
    if entry.is(Keyword::Refine) {
        Some(entry.scope)
    } else {
        None
    }
}

/// For each refine the block that contains it.
pub(crate) fn refine_places(
    alloc: Global,
    rows: &Rows<'_, '_>,
) -> Result<Vec<Option<usize>>, AllocError>
    ensures { IfOk result
        (λ places. map (λ r. if is_refine r then Some r.scope else None) (rows_in rows.now)
        ≡ places.items) }
{
    let mut places = Vec::new(alloc);
    for entry in rows.entries() {
        places.push(refine_place(entry))?;
    }
    Ok(places)
}

// That of each statement.
fn item_places(alloc: Global, rows: &Rows<'_, '_>) -> Result<Vec<Option<usize>>, AllocError>
    ensures { IfOk result
        (λ places. map (λ r. if is_node_or_uses r then Some r.scope else None) (rows_in rows.now)
        ≡ places.items) }
{
    let mut places = Vec::new(alloc);
    for entry in rows.entries() {
        places.push(item_place(entry))?;
    }
    Ok(places)
}

// Whether a numbered statement is an augment in whose block an item is.
fn gives(items: &Families, number: usize, entry: &Entry<'_, '_>) -> bool
    ensures { (rows : List Row) → items.now ≡ by_place (item_places rows) (length rows) → number
        < length rows
        → result ≡ gives rows number (row entry.now) }
{
    yv_base_tables::laws::each_place_has_its_numbers();
    is_augment(entry) && !items.at(number).is_empty()
}

// The block in which such an augment is.
fn giving_place(items: &Families, number: usize, entry: &Entry<'_, '_>) -> Option<usize>
    ensures { (rows : List Row) → items.now ≡ by_place (item_places rows) (length rows) → number
        < length rows
        → result
        ≡ (if gives rows number (row entry.now) then Some (row entry.now).scope else None) }
{
    if gives(items, number, entry) {
        Some(entry.scope)
    } else {
        None
    }
}

// That of each statement, of whose blocks these are the items.
fn places_of(
    alloc: Global,
    rows: &Rows<'_, '_>,
    items: &Families,
) -> Result<Vec<Option<usize>>, AllocError>
    requires { items.now ≡ by_place (item_places (rows_in rows.now)) (length (rows_in rows.now)) }
    ensures { IfOk result
        (λ places. places.items ≡ giving_from (rows_in rows.now) 0 (rows_in rows.now)) }
{
    let mut places = Vec::new(alloc);
    for (number, entry) in rows.entries().iter().enumerate() {
        places.push(giving_place(items, number, entry))?;
    }
    Ok(places)
}

/// For each augment that gives something the block that contains it.
#[tactic(auto, unfolding(crate::specs::AugmentOrder::giving_places))]
pub(crate) fn giving_places(
    alloc: Global,
    rows: &Rows<'_, '_>,
) -> Result<Vec<Option<usize>>, AllocError>
    ensures { IfOk result (λ places. places.items ≡ giving_places (rows_in rows.now)) }
{
    let stand = item_places(alloc, rows)?;
    let items = Families::new(alloc, &stand, stand.len())?;
    places_of(alloc, rows, &items)
}

// How many numbers of a place were known, of which one more is now.
fn next(counts: &mut Vec<usize>, place: Option<usize>) -> usize
    requires within { (k : ℕ) → place ≡ Some k → k < length counts.old.items }
    requires room { (k : ℕ) → place ≡ Some k → slice_index_or counts.old.items k 0 + 1 < 2 ^ 64 }
    ensures value { result ≡ count_at counts.old.items place }
    ensures counts { counts.new.items ≡ count_more counts.old.items place }
{
    let Some(block) = place else { return 0 };
    let count = counts[block];
    counts[block] = count + 1;
    count
}

/// For each number that has a place how many numbers of this place come before it.
pub(crate) fn ordinals(alloc: Global, places: &[Option<usize>]) -> Result<Vec<usize>, AllocError>
    requires { (a block : ℕ) → slice_get places.now a ≡ Some (Some block) → block
        < length places.now }
    ensures { IfOk result
        (λ ordinals. (a : ℕ) → slice_index_or ordinals.items a 0
        ≡ place_before places.now a (slice_get places.now a)) }
{
    let mut counts = vec![in alloc; 0; places.len()]?;
    let mut ordinals = Vec::new(alloc);
    for place in places {
        ordinals.push(next(&mut counts, *place))?;
    }
    Ok(ordinals)
}

/// For each of so many numbers its place in a list.
pub(crate) fn places_in(
    alloc: Global,
    numbers: &[usize],
    count: usize,
) -> Result<Vec<Option<usize>>, AllocError>
    ensures { IfOk result
        (λ places. (a : ℕ) → a < count → slice_index_or places.items a None
        ≡ place_of numbers.now a) }
{
    let mut places = vec![in alloc; None; count]?;
    let mut left = numbers.len();
    while left > 0 {
        left -= 1;
        let number = numbers[left];
        if number < places.len() {
            places[number] = Some(left);
        }
    }
    Ok(places)
}

/// Whether a numbered statement is an augment of this block that gives something.
pub(crate) fn is_in(block: usize, place: Option<Option<usize>>) -> bool
    ensures { result ≡ is_in block place }
{
    match place {
        Some(Some(other)) => other == block,
        _ => false,
    }
}
