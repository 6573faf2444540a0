//! Laws about the definitions only. These functions do nothing: the contract of each is the law.
ghost use Rattle.std.specs.Prelude.{◌≡◌, ℕ, Some, false, slice_get, true};
ghost use Rattle.yv_text_statement.specs.{Tree.{Tree}, declared.refusal.Refusal.{Refusal}, declared.keyword.Keyword.{Keyword}};
ghost use Rattle.yv_text_grammar.specs.{Refusals.{Bad}, Fits.{Fits, FitsIn}, declared.xpath.Xpath.{Xpath}, declared.xpath.Xpath.TheVariants.{Skip}};
ghost use Rattle.yv_link_scopes.specs.{Files.{Files}, RowList.{rows_of, statements_of}, Rows.{Row}};
ghost use Rattle.yv_expand.specs.Conformance.{Conform, gives_nodes, is_lowest};

/// A file of which nothing is refused conforms.
pub fn what_is_not_refused_fits()
    ensures { (x : Xpath) (t : Tree) → ((f : Refusal) → Bad x t f → ⊥) → Fits x t }
{
    yv_text_if_feature::laws::a_text_spells_an_if_feature_or_none();
    yv_text_path::laws::a_text_is_a_path_or_none();
}

/// Each numbered statement of files that conform fits in the block of some statement.
pub fn numbered_statements_fit()
    ensures { (files : Files) (k : ℕ) (t : Tree) → Conform files → slice_get (statements_of files) k
        ≡ Some t
        → (parent : Keyword) × FitsIn Skip parent t }
{}

/// In files that conform, nothing in the block of a leaf, leaf-list, anydata or anyxml gives a
/// schema node.
pub fn no_node_stands_in_a_leaf()
    ensures { (files : Files) (k j : ℕ) (q r : Row) → Conform files → slice_get (rows_of files) k
        ≡ Some q → is_lowest q ≡ true
        → slice_get (rows_of files) j ≡ Some r → r.scope ≡ k → gives_nodes r ≡ false }
{
    yv_link_scopes::laws::modules_are_files();
    yv_link_scopes::laws::roots_come_first();
    yv_link_scopes::laws::statements_have_their_rows();
    yv_link_scopes::laws::statements_stand_in_their_blocks();
}
