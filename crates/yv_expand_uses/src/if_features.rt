//! Which items are there by their conditions.
ghost use Rattle.std.specs.Prelude.{◌≡◌, ◌&&◌, Some, slice_get, IfOk};
ghost use Rattle.yv_link_scopes.specs.{Views.{rows_in}, Rows.{row}};
ghost use Rattle.yv_expand.specs.ItemLimit.{ParentsComeFirst};
ghost use Rattle.yv_expand_statements.specs.Origin.{number_of};
ghost use Rattle.yv_base_graph.specs.Marks.{is_marked};
ghost use Rattle.yv_expand_uses.specs.On.{AreOn, above_on, augment_on, block_on, uses_on};
ghost use Rattle.yv_expand_statements.specs.StatementBlocks.{is_augment};

use crate::kinds::is_uses;
use crate::spot::Spot;
use std::alloc::{AllocError, Global};
use yv_base_graph::is_marked;
use yv_expand::Item;
use yv_link_scopes::{Entry, Rows};
use yv_text_statement::Keyword;

// Whether what is in an item is there by the conditions of the item, if that is a uses.
fn uses_on(spot: Option<Spot>, mark: bool) -> bool
    ensures { result ≡ uses_on spot mark }
{
    match spot {
        Some(spot) => { if is_uses(spot.label.kind) { mark } else { true } }
        None => true,
    }
}

// The same of what is below the item of a number, if there is one.
fn above_on(spots: &[Spot], marks: &[bool], parent: Option<usize>) -> bool
    ensures { result ≡ above_on spots.now marks.now parent }
{
    match parent {
        Some(parent) => uses_on(spots.get(parent).copied(), is_marked(marks, parent)),
        None => true,
    }
}

/// Whether a statement is an augment.
pub fn is_augment(entry: &Entry<'_, '_>) -> bool
    ensures { result ≡ is_augment (row entry.now) }
{
    entry.is(Keyword::Augment)
}

// Whether what is in a block is there by the conditions of the block, if that is an augment.
fn block_on(rows: &Rows<'_, '_>, statements: &[bool], block: usize) -> bool
    ensures { result
        ≡ block_on (is_marked statements.now) block (slice_get (rows_in rows.now) block) }
{
    match rows.entries().get(block) {
        Some(entry) => {
            if is_augment(entry) {
                is_marked(statements, block)
            } else {
                true
            }
        }
        None => true,
    }
}

// The same of the block in which a numbered statement is.
fn augment_on(rows: &Rows<'_, '_>, statements: &[bool], statement: usize) -> bool
    ensures { result
        ≡ augment_on (rows_in rows.now) (is_marked statements.now)
        (slice_get (rows_in rows.now) statement) }
{
    match rows.entries().get(statement) {
        Some(entry) => block_on(rows, statements, entry.scope),
        None => true,
    }
}

// Whether an item is there, by its own mark and those of what gave it.
fn item_on(
    rows: &Rows<'_, '_>,
    spots: &[Spot],
    statements: &[bool],
    marks: &[bool],
    own: bool,
    item: &Item,
) -> bool
    ensures { result ≡ (own && (above_on spots.now marks.now item.now.parent
        && augment_on (rows_in rows.now) (is_marked statements.now)
        (slice_get (rows_in rows.now) (number_of item.now.origin)))) }
{
    own && above_on(spots, marks, item.parent) && augment_on(rows, statements, item.origin.number())
}

/// A mark for each item that is there by its own mark and those of what gave it: the conditions of
/// each uses above it, and of the augment whose block contains its statement. The final tree
/// (`left`) says whether the nodes above it are there too.
pub fn items_on(
    alloc: Global,
    rows: &Rows<'_, '_>,
    spots: &[Spot],
    items: &[Item],
    statements: &[bool],
    own: &[bool],
) -> Result<Vec<bool>, AllocError>
    // A mark for each item that has one of its own, if each uses above it has one, and the augment
    // in whose block its statement is has one. Precondition: each item comes after its parent.
    requires { ParentsComeFirst items.now }
    // A mark for each item that has one of its own, if each uses above it has one, and the augment
    // in whose block its statement is has one. Precondition: each item comes after its parent.
    ensures { IfOk result
        (λ marks. AreOn (rows_in rows.now) spots.now items.now (is_marked statements.now)
        (is_marked own.now)
        marks.items) }
{
    let mut marks = Vec::with_capacity(alloc, items.len())?;
    for (number, item) in items.iter().enumerate() {
        let mark = item_on(
            rows,
            spots,
            statements,
            &marks,
            is_marked(own, number),
            item,
        );
        marks.push(mark)?;
    }
    Ok(marks)
}
