//! Laws about the definitions only.
ghost use Rattle.std.specs.Prelude.{◌≡◌, ℕ, Option, Some};
ghost use Rattle.yv_link_scopes.specs.Files.{Files};
ghost use Rattle.yv_types.specs.{Referrals.{FollowsIn, HasReferral, IsLeafrefAt}, declared.leafref_path.TypeLeafref.{TypeLeafref}};

/// A type says one thing as a leafref, or nothing.
pub fn a_type_has_one_referral()
    ensures { (files : Files) (k : ℕ) (a b : Option TypeLeafref) → HasReferral files k a
        → HasReferral files k b → a ≡ b }
{
    yv_type_chains::laws::a_type_follows_one_type();
}

/// The path of a type is that of a leafref.
pub fn an_origin_is_a_leafref()
    ensures { (files : Files) (k : ℕ) (r : TypeLeafref) → HasReferral files k (Some r)
        → IsLeafrefAt files r.origin }
{}

/// A derived type has the path of the type that it follows.
pub fn a_derived_type_has_the_path_of_its_base()
    ensures { (files : Files) (k j : ℕ) (r q : TypeLeafref) → FollowsIn files k j
        → HasReferral files k (Some r) → HasReferral files j (Some q)
        → r.origin ≡ q.origin }
{
    yv_type_chains::laws::a_type_follows_one_type();
}
