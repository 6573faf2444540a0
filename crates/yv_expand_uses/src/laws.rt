//! Laws about the definitions only. These functions do nothing: the contract of each is the law.
ghost use Rattle.std.specs.Prelude.{◌≡◌, ℕ, Bool, List};
ghost use Rattle.yv_link_scopes.specs.Rows.{Row};
ghost use Rattle.yv_expand.specs.{ItemLimit.{ParentsComeFirst}, Tree.{Item}};
ghost use Rattle.yv_expand_uses.specs.{On.{AreOn}, declared.spot.Spot.{Spot}};

/// There is one answer to which items are there by their conditions.
pub fn if_features_have_one_answer()
    ensures { (rows : List Row) (spots : List Spot) (items : List Item) (statements own : ℕ → Bool)
        (a b : List Bool)
        → ParentsComeFirst items → AreOn rows spots items statements own a
        → AreOn rows spots items statements own b → a ≡ b }
{}
