//! Laws about the definitions only.
ghost use Rattle.std.specs.Prelude.{◌≡◌, ℕ, List};
ghost use Rattle.yv_pattern.specs.Spells.{Translates};

/// A text has one translation at most.
pub fn a_text_has_one_translation()
    ensures { (text a b : List ℕ) → Translates text a → Translates text b → a ≡ b }
{}
