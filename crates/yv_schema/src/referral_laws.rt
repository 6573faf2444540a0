//! Laws about the definitions only. These functions do nothing: the contract of each is the law.
ghost use Rattle.std.specs.Prelude.{◌≡◌, ◌≢◌, ℕ, slice_get, Some};
ghost use Rattle.yv_text_statement.specs.Tree.{Tree};
ghost use Rattle.yv_text_grammar.specs.{Fits.{Fits}, declared.xpath.Xpath.TheVariants.{Skip}};
ghost use Rattle.yv_link_scopes.specs.Files.{Files};
ghost use Rattle.yv_expand_statements.specs.declared.origin.Origin.{Origin};
ghost use Rattle.yv_node_statements.specs.Kinds.{AreTypeReferrals, TypeMeanings};
ghost use Rattle.yv_node_leafrefs.specs.Schema.{Referral};
ghost use Rattle.yv_schema.specs.Referrals.{referral_at};

/// In files that conform a leafref's path is absolute, or climbs once or more.
pub fn what_leafrefs_say_begins()
    ensures { (files : Files) (typing : TypeMeanings) (from : Origin) (ref : Referral)
        → ((n : ℕ) (root : Tree) → slice_get files n ≡ Some root → Fits Skip root)
        → AreTypeReferrals files typing.referrals
        → referral_at typing files from ≡ Some ref → ref.climbs ≢ Some 0 }
{
    yv_link_scopes::laws::statements_have_their_rows();
    yv_types::leafref_laws::an_origin_is_a_leafref();
}
