//! Which statements have a condition that doesn't hold.
ghost use Rattle.std.specs.{Prelude.{◌≡◌, ◌&&◌, not, ℕ, IfOk}, BTreeSet.{contains}, List.{list_any}, Ordering.{nat_cmp}};
ghost use Rattle.yv_text_statement.specs.Selection.{ModuleChoice};
ghost use Rattle.yv_link_scopes.specs.{Files.{Files}, RowList.{rows_of}, Rows.{row, name_in}};
ghost use Rattle.yv_link_features.specs.Meaning.{is_if_feature};
ghost use Rattle.yv_link.specs.LinkedFiles.{AreLinked, truth_in};
ghost use Rattle.yv_type_identities.specs.InnerCandidates.{fails};

use std::alloc::{AllocError, Global};
use std::collections::BTreeSet;
use yv_link::Linked;
use yv_link_scopes::{Entry, name_of};
use yv_text_statement::Keyword;

// Whether a statement is a condition that doesn't hold.
fn is_false<'a, 'b>(linked: &Linked<'a, 'b>, entry: &Entry<'a, 'b>) -> bool
    ensures { result
        ≡ (is_if_feature (row entry.now)
        && not (truth_in linked.now entry.now.file (name_in (row entry.now)))) }
{
    entry.is(Keyword::IfFeature) && !linked.holds(entry.file, name_of(entry.statement))
}

/// The numbers of the statements that have a false `if-feature` in their block.
pub(crate) fn off(alloc: Global, linked: &Linked<'_, '_>) -> Result<BTreeSet<usize>, AllocError>
    ensures { IfOk result
        (λ numbers. (files : Files) (choice : ModuleChoice) → AreLinked files choice linked.now
        → (number : ℕ)
        → contains nat_cmp numbers number
        ≡ list_any (fails (truth_in linked.now) number) (rows_of files)) }
{
    let mut numbers = BTreeSet::new(alloc);
    for entry in linked.rows().entries() {
        if is_false(linked, entry) {
            numbers.insert(entry.scope)?;
        }
    }
    Ok(numbers)
}
