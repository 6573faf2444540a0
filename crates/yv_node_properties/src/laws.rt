//! Laws about the definitions only. These functions do nothing: the contract of each is the law.
ghost use Rattle.std.specs.Prelude.{◌≡◌, ℕ, List, [], ◌∷◌};
ghost use Rattle.yv_link_scopes.specs.Files.{Files};
ghost use Rattle.yv_node_properties.specs.{Marks.{over, silent, stated_of}, Properties.{last_said, said_at}};

/// Of several statements the last that says something decides it.
pub fn the_last_statement_stands()
    // No statements say nothing.
    ensures none { (files : Files) → stated_of (last_said files []) ≡ stated_of silent }
    // With one more statement in front, it decides only what the others don't state.
    ensures more { (files : Files) (n : ℕ) (ns : List ℕ)
        → stated_of (last_said files (n ∷ ns))
        ≡ over (stated_of (last_said files ns)) (stated_of (said_at files n)) }
{}
