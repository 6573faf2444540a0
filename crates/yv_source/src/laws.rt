//! Laws about the definitions only. These functions do nothing: the contract of each is the law.
ghost use Rattle.std.specs.Prelude.{◌≡◌, ℕ, List};
ghost use Rattle.yv_text_statement.specs.{Tree.{Tree}, declared.refusal.Refusal.{Refusal}};
ghost use Rattle.yv_source.specs.{Answer.{IsBadFile, IsSpelled, IsRefused}, Legal.{IsLegalFile}};

/// A bad file is refused in one way, and isn't legal.
pub fn a_bad_file_is_refused_once()
    // A bad file is refused in one way.
    ensures once { (bytes : List ℕ) (r s : Refusal) → IsBadFile bytes r → IsBadFile bytes s → r
        ≡ s }
    // It is not legal.
    ensures not_legal { (bytes : List ℕ) (r : Refusal) → IsBadFile bytes r → IsLegalFile bytes → ⊥ }
{}

/// A text spells one statement at most, or is refused in one way, and not both.
pub fn a_text_is_spelled_or_refused_once()
    // A text spells at most one statement.
    ensures spells { (text : List ℕ) (t u : Tree) → IsSpelled text t → IsSpelled text u → t ≡ u }
    // It is refused in at most one way.
    ensures refuses { (text : List ℕ) (r s : Refusal) → IsRefused text r → IsRefused text s → r
        ≡ s }
    // It never does both.
    ensures not_both { (text : List ℕ) (t : Tree) (r : Refusal) → IsSpelled text t
        → IsRefused text r → ⊥ }
{}
