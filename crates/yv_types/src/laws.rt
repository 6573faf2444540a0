//! Laws about the definitions only. These functions do nothing: the contract of each is the law.
ghost use Rattle.std.specs.Prelude.{◌≡◌, ℕ, List, codes};
ghost use Rattle.yv_text_statement.specs.Selection.{ModuleChoice};
ghost use Rattle.yv_link_scopes.specs.{Files.{Files}, RowList.{rows_of}};
ghost use Rattle.yv_link_definitions.specs.References.{number_at};
ghost use Rattle.yv_type_enums.specs.Types.{Truth};
ghost use Rattle.yv_values.specs.Types.{Plain};
ghost use Rattle.yv_types.specs.{Spaces.{Space}, Defaults.{IsDefault}, Referrals.{IsReferring}, Types.{AreTypes, IsTold, default_at, referring_at, space_at}, declared.type_table.Types.{Types}};

/// A type has one list of plain types.
pub fn a_type_has_one_space()
    ensures { (files : Files) (choice : ModuleChoice) (truth : Truth) (k : ℕ) (ps qs : List Plain)
        → Space files truth choice k ps → Space files truth choice k qs → ps ≡ qs }
{
    yv_link_scopes::laws::statements_have_their_rows();
    yv_type_chains::laws::a_type_follows_one_type();
    yv_type_restrictions::laws::a_type_has_one_plain_type();
    yv_values::laws::texts_that_rise_are_one_list();
    yv_values::laws::identities_that_rise_are_one_list();
}

/// What is answered for the type statement at an offset of a file is its plain types, and none
/// where it has none.
pub fn types_tell_spaces()
    ensures { (files : Files) (choice : ModuleChoice) (truth : Truth) (types : Types)
        → AreTypes files choice truth types
        → (file offset : ℕ)
        → IsTold files choice truth (number_at (rows_of files) (codes "type") file offset)
        (space_at types file offset) }
{}

/// What is answered for the default of the type statement at an offset of a file is the one that it
/// has by its typedefs.
pub fn types_tell_defaults()
    ensures { (files : Files) (choice : ModuleChoice) (truth : Truth) (types : Types)
        → AreTypes files choice truth types
        → (file offset : ℕ) → IsDefault files (number_at (rows_of files) (codes "type") file offset)
        (default_at types file offset) }
{}

/// What is answered for the type statement at an offset of a file as a leafref is what it says by
/// itself or along its typedefs.
pub fn types_tell_leafrefs()
    ensures { (files : Files) (choice : ModuleChoice) (truth : Truth) (types : Types)
        → AreTypes files choice truth types
        → (file offset : ℕ)
        → IsReferring files (number_at (rows_of files) (codes "type") file offset)
        (referring_at types file offset) }
{}
