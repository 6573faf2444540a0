//! Laws about the definitions only. These functions do nothing: the contract of each is the law.
ghost use Rattle.std.specs.{Prelude.{◌≡◌, ℕ, List, true, false}, List.{All, filter}};
ghost use Rattle.yv_text_statement.specs.{Selection.{ModuleChoice}, Tree.{Tree}};
ghost use Rattle.yv_link_scopes.specs.Files.{Files};
ghost use Rattle.yv_lint.specs.{declared.rule.Rule.TheVariants.{VersionMix}, RuleChoice.{RuleChoice}, Findings.{findings, findings_of}, Places.{places_of}, Versions.{HaveSameVersion}};

/// A rule finds the same, whichever others are asked.
pub fn asked_alone()
    // The findings of some rules are those of all rules that are of one of these.
    ensures { (asked : RuleChoice) (choice : ModuleChoice) (paths : List (List ℕ)) (files : Files)
        → findings asked choice paths files
        ≡ filter (λ f. asked f.rule) (findings (λ rule. true) choice paths files) }
{}

/// The findings in a file depend on that file, on its path, on which modules are implemented and,
/// for `VersionMix` only, on the versions of the files that it names.
pub fn of_one_file()
    // They are the same among other files, if those that its statements name are of the same
    // versions there.
    ensures versions { (asked : RuleChoice) (choice : ModuleChoice) (files others : Files)
        (file : ℕ) (path : List ℕ) (root : Tree)
        → All (HaveSameVersion files others) (places_of root)
        → findings_of asked choice files file path root
        ≡ findings_of asked choice others file path root }
    // They are the same among any other files, if `VersionMix` isn't asked.
    ensures others { (asked : RuleChoice) (choice : ModuleChoice) (files others : Files) (file : ℕ)
        (path : List ℕ) (root : Tree) → asked VersionMix ≡ false
        → findings_of asked choice files file path root
        ≡ findings_of asked choice others file path root }
{}
