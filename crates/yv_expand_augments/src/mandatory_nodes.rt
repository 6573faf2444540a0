//! Augments of modules that add mandatory nodes to nodes of other modules.
ghost use Rattle.std.specs.{Prelude.{◌≡◌, ◌<◌, ◌+◌, ◌^◌, ◌==◌, ◌&&◌, ◌||◌, not, ℕ, length, if◌then◌else◌, slice_get, slice_index_or, IfOk, OnOk, None}, Option.{unwrap_or}};
ghost use Rattle.yv_text_statement.specs.Order.{IsLeast};
ghost use Rattle.yv_link_scopes.specs.Views.{rows_in};
ghost use Rattle.yv_expand_rounds.specs.Tree.{Tree, tree_list};
ghost use Rattle.yv_expand_statements.specs.Kinds.{is_container, is_operation_or_notification};
ghost use Rattle.yv_expand_augments.specs.{MandatoryNodes.{ImposesMandatory, source_of, inside, is_configuration, is_container_without, is_given, is_mandatory, is_some_operation, nothing_around, told_in}, InnerMandatoryNodes.{AreShallow, around_marks, configuration_marks, counts, enter, mandatory_refusal, is_mandatory_added, meet}};
ghost use Rattle.yv_base_graph.specs.Marks.{is_marked};
ghost use Rattle.yv_expand_uses.specs.{Spots.{spot_at}};

use crate::placement::refusal_of_augment;
use std::alloc::{AllocError, Global};
use yv_base_graph::is_marked;
use yv_expand_rounds::ItemRow;
use yv_expand_statements::StatementKind;
use yv_expand_uses::{Spot, source_in, spot_at};
use yv_link_scopes::Rows;
use yv_text_statement::{Refusal, lesser};

/// What is known of each item, as refines have left it. A number without a mark has none of these.
#[derive(Clone, Copy)]
pub struct RefinedMarks<'m> {
    /// A leaf, choice, anydata or anyxml with `mandatory true`, or a list or leaf-list with
    /// min-elements above 0.
    pub mandatory: &'m [bool],
    /// It has a `presence` statement.
    pub presence: &'m [bool],
    /// What its `config` statement says, if there is one.
    pub config: &'m [Option<bool>],
}

// The augment of a module in whose block an item is, if it is in one; there are so many items.
fn source_of(items: usize, augments: &[usize], spot: Option<Spot>) -> Option<usize>
    ensures { result ≡ source_of items augments.now spot }
{
    source_in(items, augments, spot?.group)
}

// Whether an item is in the block of an augment of a module.
fn is_given(spots: &[Spot], augments: &[usize], number: usize) -> bool
    ensures { result ≡ is_given spots.now augments.now number }
{
    source_of(spots.len(), augments, spots.get(number).copied()).is_some()
}

fn is_container(kind: StatementKind) -> bool
    ensures { result ≡ is_container kind }
{
    match kind {
        StatementKind::Container => true,
        _ => false,
    }
}

// Whether an item is a container without presence.
fn is_container_without(presence: bool, spot: Option<Spot>) -> bool
    ensures { result ≡ is_container_without presence spot }
{
    match spot {
        Some(spot) => is_container(spot.label.kind) && !presence,
        None => false,
    }
}

// Whether an item is mandatory, below which a mandatory node is or none.
fn is_mandatory(spots: &[Spot], marks: &RefinedMarks<'_>, number: usize, has: bool) -> bool
    ensures { result ≡ is_mandatory spots.now (told_in marks.now) number has }
{
    let presence = is_marked(marks.presence, number);
    is_marked(marks.mandatory, number)
        || (is_container_without(presence, spots.get(number).copied()) && has)
}

// Whether an item is mandatory, and configuration.
fn is_required(
    spots: &[Spot],
    marks: &RefinedMarks<'_>,
    is_configuration: bool,
    number: usize,
    has: bool,
) -> bool
    ensures { result ≡ (is_mandatory spots.now (told_in marks.now) number has && is_configuration) }
{
    is_mandatory(spots, marks, number, has) && is_configuration
}

// Whether an item counts as a mandatory node of the one above it.
fn counts(
    spots: &[Spot],
    augments: &[usize],
    marks: &RefinedMarks<'_>,
    number: usize,
    has: bool,
) -> bool
    ensures { result ≡ counts spots.now augments.now (told_in marks.now) number has }
{
    !is_given(spots, augments, number) && is_mandatory(spots, marks, number, has)
}

// Whether an item may not be given to a node.
fn is_imposed(item: Spot, node: Spot, required: bool) -> bool
    ensures { result ≡ is_mandatory_added item node required }
{
    item.module_file != node.module_file && required
}

// The refusal of the augment of a module that gives an item to a node of another module.
fn mandatory_refusal(
    rows: &Rows<'_, '_>,
    items: usize,
    augments: &[usize],
    required: bool,
    item: Option<Spot>,
    node: Option<Spot>,
) -> Option<Refusal>
    ensures { result ≡ mandatory_refusal (rows_in rows.now) items augments.now required item node }
{
    match (item, node) {
        (Some(item), Some(node)) => refusal_of_augment(
            rows,
            is_imposed(item, node, required),
            source_of(items, augments, Some(item)),
        ),
        _ => None,
    }
}

// The same, by the place of the item.
fn mandatory_refusal_at(
    rows: &Rows<'_, '_>,
    spots: &[Spot],
    augments: &[usize],
    required: bool,
    row: &ItemRow,
) -> Option<Refusal>
    ensures { result ≡ mandatory_refusal (rows_in rows.now) (length spots.now) augments.now required
        (slice_get spots.now row.now.number) (spot_at spots.now row.now.parent) }
{
    mandatory_refusal(
        rows,
        spots.len(),
        augments,
        required,
        spots.get(row.number).copied(),
        spot_at(spots, row.parent),
    )
}

// Gives a depth a mark, or takes it.
fn put(found: &mut Vec<bool>, depth: usize, mark: bool) -> Result<(), AllocError>
    ensures { OnOk result
        ((d : ℕ) → is_marked found.new.items d
        ≡ (if d == depth then mark else is_marked found.old.items d)) }
{
    while found.len() <= depth {
        found.push(false)?;
    }
    found[depth] = mark;
    Ok(())
}

// An item of this depth is met, before those at the next one: what was found there is below it.
fn meet(found: &mut Vec<bool>, depth: usize, next: usize, counts: bool) -> Result<(), AllocError>
    ensures { next ≡ depth + 1
        → OnOk result
        ((d : ℕ) → is_marked found.new.items d ≡ meet depth counts (is_marked found.old.items) d) }
{
    let mark = counts || is_marked(found, depth);
    put(found, next, false)?;
    put(found, depth, mark)?;
    Ok(())
}

// What the `config` statement of an item says.
fn config_of(config: &[Option<bool>], number: usize) -> Option<bool>
    ensures { result ≡ slice_index_or config.now number None }
{
    config.get(number).copied().unwrap_or(None)
}

// Whether an item is configuration by its `config` statement, or without one by what is around it.
fn config_inside(marks: &RefinedMarks<'_>, number: usize, is_config: bool) -> bool
    ensures { result ≡ unwrap_or (slice_index_or marks.now.config.now number None) is_config }
{
    config_of(marks.config, number).unwrap_or(is_config)
}

fn is_operation_or_notification(kind: StatementKind) -> bool
    ensures { result ≡ is_operation_or_notification kind }
{
    match kind {
        StatementKind::Rpc | StatementKind::Action | StatementKind::Notification => true,
        _ => false,
    }
}

// Whether an item is an rpc, an action or a notification.
fn is_some_operation(spot: Option<Spot>) -> bool
    ensures { result ≡ is_some_operation spot }
{
    match spot {
        Some(spot) => is_operation_or_notification(spot.label.kind),
        None => false,
    }
}

// Whether what is in an item is in an operation or a notification, by the item and by what is
// around it.
fn operation_inside(spots: &[Spot], number: usize, in_operation: bool) -> bool
    ensures { result ≡ (is_some_operation (slice_get spots.now number) || in_operation) }
{
    is_some_operation(spots.get(number).copied()) || in_operation
}

// Whether what is so is configuration.
fn is_configuration(is_config: bool, in_operation: bool) -> bool
    ensures { result ≡ (is_config && not in_operation) }
{
    is_config && !in_operation
}

// The item of this row is met, where those below it stand at the next depth: whether it is
// configuration.
fn enter(
    states: &mut Vec<bool>,
    operations: &mut Vec<bool>,
    spots: &[Spot],
    marks: &RefinedMarks<'_>,
    row: &ItemRow,
    next: usize,
) -> Result<bool, AllocError>
    ensures value { IfOk result
        (λ mark. mark ≡ is_configuration (inside spots.now (told_in marks.now) row.now.number
        (around_marks (is_marked states.old.items) (is_marked operations.old.items)
        row.now.depth))) }
    ensures around { OnOk result
        ((d : ℕ) → around_marks (is_marked states.new.items) (is_marked operations.new.items) d
        ≡ enter next (inside spots.now (told_in marks.now) row.now.number
        (around_marks (is_marked states.old.items) (is_marked operations.old.items) row.now.depth))
        (around_marks (is_marked states.old.items) (is_marked operations.old.items)) d) }
{
    let is_config = config_inside(marks, row.number, !is_marked(states, row.depth));
    let in_operation = operation_inside(spots, row.number, is_marked(operations, row.depth));
    put(states, next, !is_config)?;
    put(operations, next, in_operation)?;
    Ok(is_configuration(is_config, in_operation))
}

// The depth of what is below an item. In the list of a tree no depth is above the length of the
// list.
fn next_depth(row: &ItemRow) -> usize
    ensures { row.now.depth + 1 < 2 ^ 64 → result ≡ row.now.depth + 1 }
{
    row.depth.saturating_add(1)
}

// A mark for each of these items that is configuration.
fn mark_configuration(
    alloc: Global,
    spots: &[Spot],
    marks: &RefinedMarks<'_>,
    tree: &[ItemRow],
) -> Result<Vec<bool>, AllocError>
    ensures { AreShallow tree.now
        → IfOk result
        (λ places. places.items
        ≡ configuration_marks spots.now (told_in marks.now) (λ d. nothing_around) tree.now) }
{
    let mut places = Vec::with_capacity(alloc, tree.len())?;
    let mut states = Vec::new(alloc);
    let mut operations = Vec::new(alloc);
    for row in tree {
        let next = next_depth(row);
        let mark = enter(&mut states, &mut operations, spots, marks, row, next)?;
        places.push(mark)?;
    }
    Ok(places)
}

/// The least `BadAugment` of an augment of a module that adds a mandatory configuration node to a
/// node of another module, judged on what it gave before any augment of a module was applied:
/// itself, and below containers without presence. Whether an item is configuration is judged in the
/// final tree: nothing in an operation or a notification is. These are the items of the final tree,
/// the spots of all items, and the augments of modules. Takes time and memory linear in items.
pub fn first_imposed(
    alloc: Global,
    rows: &Rows<'_, '_>,
    spots: &[Spot],
    augments: &[usize],
    marks: &RefinedMarks<'_>,
    tree: &[ItemRow],
) -> Result<Option<Refusal>, AllocError>
    ensures { (t : Tree) → tree.now ≡ tree_list None 1 t
        → IfOk result
        (IsLeast
        (ImposesMandatory (rows_in rows.now) spots.now augments.now (told_in marks.now) None
        nothing_around t)) }
{
    let configured = mark_configuration(alloc, spots, marks, tree)?;
    let mut found = Vec::new(alloc);
    let mut least = None;
    let mut left = tree.len();
    while left > 0 {
        left -= 1;
        let row = tree[left];
        let next = next_depth(&row);
        let has = is_marked(&found, next);
        let is_configuration = is_marked(&configured, left);
        let required = is_required(spots, marks, is_configuration, row.number, has);
        least = lesser(
            least,
            mandatory_refusal_at(rows, spots, augments, required, &row),
        );
        let counted = counts(spots, augments, marks, row.number, has);
        meet(&mut found, row.depth, next, counted)?;
    }
    Ok(least)
}
