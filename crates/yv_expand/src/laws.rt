//! Laws about the definitions only. These functions do nothing: the contract of each is the law.
ghost use Rattle.std.specs.Prelude.{◌≡◌, ◌≤◌, ◌<◌, ℕ, All, Bool, List, Some, length, map, slice_get};
ghost use Rattle.yv_link_scopes.specs.{Files.{Briefs, Files, brief_of}, Rows.{Row}, RowList.{rows_of}};
ghost use Rattle.yv_expand.specs.{Tree.{Item, Tree, count}, Expands.{Expands}, Expansion.{IsWhole}};
ghost use Rattle.yv_expand_statements.specs.{StatementBlocks.{given_before}, Weigh.{Weigh}};

use yv_expand_statements::Origin;

/// Statements have one expansion at most.
pub fn an_expansion_is_one()
    ensures { (files : Briefs) (rows : List Row) (numbers : List ℕ) (t u : Tree)
        → Expands files rows numbers t
        → Expands files rows numbers u → t ≡ u }
{
    yv_link_scopes::laws::a_name_means_one_thing();
}

/// An expansion has no more items than units were counted for it.
pub fn items_are_within_units()
    ensures { (files : Briefs) (rows : List Row) (numbers : List ℕ) (t : Tree) (n : ℕ)
        → Expands files rows numbers t
        → Weigh files rows numbers n → count t ≤ n }
{
    yv_link_scopes::laws::a_name_means_one_thing();
}

/// Statements whose units can be counted have an expansion.
pub fn what_weighs_expands()
    ensures { (files : Briefs) (rows : List Row) (numbers : List ℕ) (n : ℕ)
        → Weigh files rows numbers n
        → (t : Tree) × Expands files rows numbers t }
{}

/// Files have at most one expansion in an order, and one number of items that are the files' own
/// trees.
pub fn a_whole_is_one()
    ensures { (files : Files) (marks : List Bool) (order : List ℕ) (own own' : ℕ)
        (items items' : List Item)
        → IsWhole files marks order own items → IsWhole files marks order own' items' → (own ≡ own')
        × (items ≡ items') }
{
    yv_link_scopes::laws::a_name_means_one_thing();
}

/// The expansion of files in an order that lists no file twice has no more items than units were
/// counted for the files that are given. A file's units cover its own items and what is in the
/// blocks of its augments.
pub fn a_whole_is_within_units()
    ensures { (files : Files) (marks : List Bool) (order : List ℕ) (own units : ℕ)
        (items : List Item) → IsWhole files marks order own items
        → All (λ file. file < length files) order
        → ((i k n : ℕ) → slice_get order i ≡ Some n → slice_get order k ≡ Some n → i ≡ k)
        → Weigh (map brief_of files) (rows_of files)
        (given_before (map brief_of files) (rows_of files) marks (length files)) units
        → length items ≤ units }
{
    yv_link_scopes::laws::a_name_means_one_thing();
    crate::expansion_laws::a_tree_is_listed_whole::<Origin>();
}
