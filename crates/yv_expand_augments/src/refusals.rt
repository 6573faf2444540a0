//! What is wrong with the augments of modules, and with the final tree.
ghost use Rattle.std.specs.Prelude.{◌≡◌, List, Some, slice_get};
ghost use Rattle.yv_text_statement.specs.{Order.{IsLeast}, declared.refusal.Code.TheVariants.{AugmentTarget}};
ghost use Rattle.yv_link_scopes.specs.Views.{rows_in};
ghost use Rattle.yv_expand.specs.Tree.{Item};
ghost use Rattle.yv_expand_rounds.specs.Turns.{State};
ghost use Rattle.yv_expand_augments.specs.{Refusals.{BadTarget, HasNoTarget, RefusesIf, TooDeep}, InnerRefusals.{depth_refusal, is_absent, refusal_of_row}, FinalItems.{AreAugmentedItems}};
ghost use Rattle.yv_expand_uses.specs.Spots.{Whole};

use crate::augmentation::AugmentedItems;
use yv_expand_rounds::ItemRow;
use yv_expand_uses::{Spot, is_uses};
use yv_link_scopes::Rows;
use yv_text_statement::{Code, Refusal, lesser, refusal_if};

// The first depth that isn't kept.
const TOO_DEEP: usize = 129;

/// The refusal of a numbered statement, if it is bad.
pub(crate) fn refused_at(
    rows: &Rows<'_, '_>,
    code: Code,
    bad: bool,
    statement: usize,
) -> Option<Refusal>
    ensures { result ≡ refusal_of_row code bad (slice_get (rows_in rows.now) statement) }
{
    match rows.entries().get(statement) {
        Some(entry) => refusal_if(bad, code, entry.file, entry.statement),
        None => None,
    }
}

// The refusal of an item of this depth, if it is too deep.
fn depth_refusal(rows: &Rows<'_, '_>, depth: usize, spot: Option<Spot>) -> Option<Refusal>
    ensures { result ≡ depth_refusal (rows_in rows.now) depth spot }
{
    match spot {
        Some(spot) => refused_at(
            rows,
            Code::TreeTooDeep,
            depth == TOO_DEEP && !is_uses(spot.label.kind),
            spot.statement,
        ),
        None => None,
    }
}

// The refusal of an item of the final tree, if it is too deep.
fn too_deep(rows: &Rows<'_, '_>, spots: &[Spot], row: &ItemRow) -> Option<Refusal>
    ensures { result
        ≡ depth_refusal (rows_in rows.now) row.now.depth (slice_get spots.now row.now.number) }
{
    depth_refusal(rows, row.depth, spots.get(row.number).copied())
}

/// Whether there is no node.
pub(crate) fn is_absent(target: Option<usize>) -> bool
    ensures { result ≡ is_absent target }
{
    match target {
        Some(_) => false,
        None => true,
    }
}

/// The least `TreeTooDeep` of a node of the final tree at depth 129, of whose items these are the
/// spots. Takes time linear in items.
pub fn first_too_deep(rows: &Rows<'_, '_>, spots: &[Spot], tree: &[ItemRow]) -> Option<Refusal>
    ensures { IsLeast (TooDeep (rows_in rows.now) spots.now tree.now) result }
{
    let mut least = None;
    for row in tree {
        least = lesser(least, too_deep(rows, spots, row));
    }
    least
}

impl AugmentedItems {
    // The refusal of an augment of a module that adds to no node.
    fn without_target(&self, rows: &Rows<'_, '_>, place: usize, augment: usize) -> Option<Refusal>
        ensures { (w : Whole) (items : List Item) (st : State)
            → AreAugmentedItems w items st self.now
            → IsLeast
            (RefusesIf (rows_in rows.now) AugmentTarget (HasNoTarget w items st place) augment)
            result }
    {
        let bad = is_absent(self.target(place));
        refused_at(rows, Code::AugmentTarget, bad, augment)
    }

    /// The least `AugmentTarget` of an augment of a module, `augments` being their statements: one
    /// that was never applied, or whose path ends where no augment may add.
    pub fn first_without_target(&self, rows: &Rows<'_, '_>, augments: &[usize]) -> Option<Refusal>
        ensures { (w : Whole) (items : List Item) (st : State)
            → AreAugmentedItems w items st self.now → w.rows ≡ rows_in rows.now
            → w.augments ≡ augments.now → IsLeast (BadTarget w items st) result }
    {
        let mut least = None;
        for (place, augment) in augments.iter().enumerate() {
            least = lesser(least, self.without_target(rows, place, *augment));
        }
        least
    }
}
