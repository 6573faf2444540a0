//! Laws about the definitions only.
ghost use Rattle.std.specs.Prelude.{◌≡◌, ◌⊎◌, ℕ, List};
ghost use Rattle.yv_text_if_feature.specs.{IfFeature.{IfFeature, Spells, names_in}, Tokens.{names_among, tokens}};

/// A text spells at most one condition.
pub fn a_text_spells_one_if_feature()
    ensures { (text : List ℕ) (c d : IfFeature) → Spells text c → Spells text d → c ≡ d }
{}

/// A text spells a condition, or none.
pub fn a_text_spells_an_if_feature_or_none()
    ensures { (text : List ℕ) → ((c : IfFeature) × Spells text c)
        ⊎ ((c : IfFeature) → Spells text c → ⊥) }
{}

/// The names of a condition, in order, are those among the words of its text.
pub fn names_stand_in_order()
    ensures { (text : List ℕ) (c : IfFeature) → Spells text c → names_among (tokens text)
        ≡ names_in c }
{}
