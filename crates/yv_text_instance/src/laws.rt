//! Laws about the definitions only.
ghost use Rattle.std.specs.Prelude.{◌≡◌, ◌↔◌, ◌⊎◌, ◌==◌, ℕ, List, ◌∷◌, IsTrue};
ghost use Rattle.std.specs.List.{list_any};
ghost use Rattle.yv_text_if_feature.specs.{Bytes.{colon}, Names.{is_name}};
ghost use Rattle.yv_text_path.specs.Bytes.{slash};
ghost use Rattle.yv_text_instance.specs.{Instances.{IsInstance}, QualifiedNames.{IsQualifiedName}};

/// An instance-identifier begins with a slash.
pub fn an_instance_begins_with_a_slash()
    ensures { (text : List ℕ) → IsInstance text → (rest : List ℕ) × (text ≡ slash ∷ rest) }
{}

/// A text is an instance-identifier, or none.
pub fn a_text_is_an_instance_or_none()
    ensures { (text : List ℕ) → IsInstance text ⊎ (IsInstance text → ⊥) }
{}

/// A name with its module is a name that has a colon.
pub fn a_qualified_name_is_a_name_with_a_colon()
    ensures { (text : List ℕ) → IsQualifiedName text
        ↔ (IsTrue (is_name text) × IsTrue (list_any (λ b. b == colon) text)) }
{}
