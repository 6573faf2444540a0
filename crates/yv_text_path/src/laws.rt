//! Laws about the definitions only.
ghost use Rattle.std.specs.Prelude.{◌≡◌, ◌↔◌, ◌⊎◌, ℕ, List, Contains, IsTrue};
ghost use Rattle.yv_text_path.specs.{Bytes.{opening_bracket}, Paths.{IsPath}, PlainPaths.{is_plain_path}};

/// A path has one path without predicates, and its predicates have one list of names.
pub fn a_path_has_one_bare_path()
    // Two paths without predicates of one path are equal.
    ensures bare { (text bare other : List ℕ) (names others : List (List ℕ))
        → IsPath text bare names → IsPath text other others → bare ≡ other }
    // Two lists of the names in its predicates are equal.
    ensures names { (text bare other : List ℕ) (names others : List (List ℕ))
        → IsPath text bare names → IsPath text other others → names ≡ others }
{}

/// A path with no `[` is its own path without predicates.
pub fn a_path_without_brackets_is_bare()
    ensures { (text bare : List ℕ) (names : List (List ℕ)) → IsPath text bare names
        → (Contains text opening_bracket → ⊥) → bare ≡ text }
{}

/// A text is a path, and its own path without predicates, exactly if it is a path of names with
/// slashes between.
pub fn bare_paths_are_plain()
    ensures { (text : List ℕ)
        → ((names : List (List ℕ)) × IsPath text text names) ↔ IsTrue (is_plain_path text) }
{}

/// A text is a path, or none.
pub fn a_text_is_a_path_or_none()
    ensures { (text : List ℕ)
        → ((bare : List ℕ) × (names : List (List ℕ)) × IsPath text bare names)
        ⊎ ((bare : List ℕ) (names : List (List ℕ)) → IsPath text bare names → ⊥) }
{}
