//! Laws about the definitions only. These functions do nothing: the contract of each is the law.
ghost use Rattle.std.specs.Prelude.{◌≡◌, ◌≢◌, ℕ, List, slice_get, Some};
ghost use Rattle.yv_text_statement.specs.{Tree.{Tree, trees}, declared.keyword.Keyword.{Keyword}, declared.keyword.Keyword.TheVariants.{Extended, Path}};
ghost use Rattle.yv_text_path.specs.Paths.{IsPath};
ghost use Rattle.yv_text_grammar.specs.{Refusals.{keyword_at}, Fits.{Fits, FitsIn}, declared.xpath.Xpath.{Xpath}, declared.xpath.Xpath.TheVariants.{Skip}};
ghost use Rattle.yv_link_scopes.specs.{Files.{Files}, RowList.{statements_of}};
ghost use Rattle.yv_node_paths.specs.Referral.{climbs_of};

/// A text that a leafref may have as its path is absolute, or climbs once or more (RFC 7950,
/// section 9.9.2).
pub fn paths_of_leafrefs_begin()
    ensures { (text bare : List ℕ) (names : List (List ℕ)) → IsPath text bare names
        → climbs_of text ≢ Some 0 }
{}

/// The text of a `path` statement in the block of one that fits, other than an extension's, is
/// absolute, or climbs once or more.
pub fn paths_in_what_fits_begin()
    ensures { (x : Xpath) (parent : Keyword) (t c : Tree) (k : ℕ) (text : List ℕ)
        → FitsIn x parent t
        → keyword_at t ≢ Extended
        → slice_get (trees t.children) k ≡ Some c → keyword_at c ≡ Path → c.head.argument
        ≡ Some text → climbs_of text ≢ Some 0 }
{}

/// The same of the numbered statements of files that conform.
pub fn paths_of_files_begin()
    ensures { (files : Files) (k j : ℕ) (t c : Tree) (text : List ℕ)
        → ((n : ℕ) (root : Tree) → slice_get files n ≡ Some root → Fits Skip root)
        → slice_get (statements_of files) k ≡ Some t → keyword_at t ≢ Extended
        → slice_get (trees t.children) j ≡ Some c
        → keyword_at c ≡ Path → c.head.argument ≡ Some text → climbs_of text ≢ Some 0 }
{}
