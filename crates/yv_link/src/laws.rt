//! Laws about the definitions only. These functions do nothing: the contract of each is the law.
ghost use Rattle.std.specs.Prelude.{◌≡◌, ◌≤◌, ℕ, List};
ghost use Rattle.yv_text_statement.specs.{Codes.{phase_of}, declared.refusal.Refusal.{Refusal}, Selection.{ModuleChoice}};
ghost use Rattle.yv_link_scopes.specs.Files.{Files};
ghost use Rattle.yv_link_features.specs.On.{Holds};
ghost use Rattle.yv_link.specs.{Links.{BadLinks}, LinkedFiles.{AreLinked, truth_in}, declared.linked_files.Linked.{Linked}};

/// What linked files answer for an expression is its truth, whatever the file and the text.
pub fn linked_files_tell_what_holds()
    ensures { (files : Files) (choice : ModuleChoice) (linked : Linked)
        → AreLinked files choice linked
        → (file : ℕ) (text : List ℕ) → Holds files choice file text (truth_in linked file text) }
{
    yv_link_features::laws::features_tell_what_holds();
}

/// What is wrong with modules, features and identities is refused in the phases 3, 4 and 5.
pub fn links_have_phases()
    // They are of phase 3 or a later one.
    ensures first { (files : Files) (f : Refusal) → BadLinks files f → 3 ≤ phase_of f.code }
    // They are of phase 5 or an earlier one.
    ensures last { (files : Files) (f : Refusal) → BadLinks files f → phase_of f.code ≤ 5 }
{}
