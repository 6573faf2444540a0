//! Laws about the definitions only. These functions do nothing: the contract of each is the law.
ghost use Rattle.std.specs.Prelude.{◌≡◌};
ghost use Rattle.yv_text_statement.specs.Selection.{ModuleChoice};
ghost use Rattle.yv_link_scopes.specs.Files.{Files};
ghost use Rattle.yv_type_enums.specs.Types.{Truth};
ghost use Rattle.yv_types.specs.{Types.{AreTypes}, declared.type_table.Types.{Types}};
ghost use Rattle.yv_node_statements.specs.Kinds.{AreTyped, TypeMeanings};
ghost use Rattle.yv_node_statements.specs.KnownTypes.{typing_of};

/// What the types of files answer for each `type` statement is its plain types, its default and
/// what it says as a leafref, and nothing if it has none.
pub fn types_tell_typing()
    ensures { (files : Files) (choice : ModuleChoice) (truth : Truth) (types : Types)
        → AreTypes files choice truth types
        → AreTyped files choice truth (typing_of types) }
{
    yv_types::laws::types_tell_spaces();
    yv_types::laws::types_tell_defaults();
    yv_types::laws::types_tell_leafrefs();
}

/// The `type` statements of files have their plain types and their defaults, and say what they say
/// as leafrefs, in one way.
pub fn files_have_one_typing()
    ensures { (files : Files) (choice : ModuleChoice) (truth : Truth) (a b : TypeMeanings)
        → AreTyped files choice truth a
        → AreTyped files choice truth b → a ≡ b }
{
    yv_types::laws::a_type_has_one_space();
    yv_types::default_laws::a_type_has_one_default();
    yv_types::leafref_laws::a_type_has_one_referral();
}
