//! What augments put where it is not allowed.
ghost use Rattle.std.specs.Prelude.{◌≡◌, Some, slice_get};
ghost use Rattle.yv_text_statement.specs.Order.{IsLeast};
ghost use Rattle.yv_link_scopes.specs.Views.{rows_in};
ghost use Rattle.yv_expand_augments.specs.{InnerPlacement.{placement_refusal, refusal_of_augment}, Placement.{PutsMisplaced, augment_around, augment_at}};
ghost use Rattle.yv_expand_statements.specs.Kinds.{is_action_or_notification, is_case, is_data, is_part, takes};
ghost use Rattle.yv_expand_uses.specs.Spots.{spot_at};

use crate::refusals::refused_at;
use yv_expand_rounds::ItemRow;
use yv_expand_statements::StatementKind;
use yv_expand_uses::{Spot, is_augment, is_uses, spot_at};
use yv_link_scopes::Rows;
use yv_text_statement::{Code, Refusal, lesser};

// Whether an item is a case.
fn is_case(kind: StatementKind) -> bool
    ensures { result ≡ is_case kind }
{
    match kind {
        StatementKind::Case => true,
        _ => false,
    }
}

// Whether it is a data definition, but no uses.
fn is_data(kind: StatementKind) -> bool
    ensures { result ≡ is_data kind }
{
    match kind {
        StatementKind::Container
        | StatementKind::Leaf
        | StatementKind::LeafList
        | StatementKind::List
        | StatementKind::Choice
        | StatementKind::Anydata
        | StatementKind::Anyxml => true,
        _ => false,
    }
}

fn is_action_or_notification(kind: StatementKind) -> bool
    ensures { result ≡ is_action_or_notification kind }
{
    match kind {
        StatementKind::Action | StatementKind::Notification => true,
        _ => false,
    }
}

// Whether it is the input or output of an operation.
fn is_part(kind: StatementKind) -> bool
    ensures { result ≡ is_part kind }
{
    match kind {
        StatementKind::Input | StatementKind::Output => true,
        _ => false,
    }
}

// Whether an item may be below a node by an augment of the node.
fn takes(node: StatementKind, given: StatementKind) -> bool
    ensures { result ≡ takes node given }
{
    match node {
        StatementKind::Choice => is_data(given) || is_case(given),
        StatementKind::Container | StatementKind::List => {
            is_data(given) || (is_uses(given) || is_action_or_notification(given))
        }
        StatementKind::Case
        | StatementKind::Input
        | StatementKind::Output
        | StatementKind::Notification => { is_data(given) || is_uses(given) }
        StatementKind::Rpc | StatementKind::Action => is_part(given),
        _ => false,
    }
}

// A block, if it is that of an augment.
fn augment_at(rows: &Rows<'_, '_>, block: usize) -> Option<usize>
    ensures { result ≡ augment_at block (slice_get (rows_in rows.now) block) }
{
    match rows.entries().get(block) {
        Some(entry) => { if is_augment(entry) { Some(block) } else { None } }
        None => None,
    }
}

// The augment in whose block a numbered statement is.
fn augment_around(rows: &Rows<'_, '_>, statement: usize) -> Option<usize>
    ensures { result ≡ augment_around (rows_in rows.now) (slice_get (rows_in rows.now) statement) }
{
    match rows.entries().get(statement) {
        Some(entry) => augment_at(rows, entry.scope),
        None => None,
    }
}

/// The refusal of an augment, if there is one and it is bad.
pub(crate) fn refusal_of_augment(
    rows: &Rows<'_, '_>,
    bad: bool,
    augment: Option<usize>,
) -> Option<Refusal>
    ensures { result ≡ refusal_of_augment (rows_in rows.now) bad augment }
{
    match augment {
        Some(augment) => refused_at(rows, Code::BadAugment, bad, augment),
        None => None,
    }
}

// The refusal of the augment that gives an item to a node, if the node doesn't take it.
fn refuse_placement(rows: &Rows<'_, '_>, item: Spot, node: Spot) -> Option<Refusal>
    ensures { result ≡ placement_refusal (rows_in rows.now) (Some item) (Some node) }
{
    // Of most items the block isn't looked at.
    if takes(node.label.kind, item.label.kind) {
        return None;
    }
    refusal_of_augment(rows, true, augment_around(rows, item.statement))
}

// The same, where there is an item and a node.
fn placement_refusal(rows: &Rows<'_, '_>, item: Option<Spot>, node: Option<Spot>) -> Option<Refusal>
    ensures { result ≡ placement_refusal (rows_in rows.now) item node }
{
    match (item, node) {
        (Some(item), Some(node)) => refuse_placement(rows, item, node),
        _ => None,
    }
}

// The same, by the place of the item.
fn placement_refusal_at(rows: &Rows<'_, '_>, spots: &[Spot], row: &ItemRow) -> Option<Refusal>
    ensures { result
        ≡ placement_refusal (rows_in rows.now) (slice_get spots.now row.now.number)
        (spot_at spots.now row.now.parent) }
{
    placement_refusal(
        rows,
        spots.get(row.number).copied(),
        spot_at(spots, row.parent),
    )
}

/// The least `BadAugment` of an augment that gives an item to a node that doesn't take it: of a
/// `uses` or of a module, if it is there in the end and has a target. These are the items of the
/// final tree and the spots of all items. Takes time linear in items.
pub fn first_misplaced(rows: &Rows<'_, '_>, spots: &[Spot], tree: &[ItemRow]) -> Option<Refusal>
    ensures { IsLeast (PutsMisplaced (rows_in rows.now) spots.now tree.now) result }
{
    let mut least = None;
    for row in tree {
        least = lesser(least, placement_refusal_at(rows, spots, row));
    }
    least
}
