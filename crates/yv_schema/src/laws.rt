//! Laws about the definitions only. These functions do nothing: the contract of each is the law.
ghost use Rattle.std.specs.Prelude.{◌≡◌, ◌≤◌, ◌⊎◌, ℕ, List, None, Option};
ghost use Rattle.yv_text_statement.specs.{Codes.{phase_of}, Order.{IsLeast}, declared.refusal.Refusal.{Refusal}, Selection.{ModuleChoice}};
ghost use Rattle.yv_link_scopes.specs.Files.{Files};
ghost use Rattle.yv_nodes.specs.{Link.{Link}, Rows.{Note}, Tree.{Forest}};
ghost use Rattle.yv_schema.specs.{Schema.{AreReferences, IsSchema}, Notes.{AreNotes}, Refuses.{Refuses, RefusesBeforeTypes}};

/// Where nothing is refused, files have one schema tree under a choice, their augments add to it in
/// one way, and its leafrefs lead one way.
pub fn files_have_one_schema()
    // There is one schema tree.
    ensures tree { (choice : ModuleChoice) (files : Files) (limit : ℕ) (a b : Forest)
        → IsLeast (Refuses choice files limit) None → IsSchema choice files a
        → IsSchema choice files b → a ≡ b }
    // There is one list of augments.
    ensures augments { (choice : ModuleChoice) (files : Files) (limit : ℕ) (a b : List Note)
        → IsLeast (Refuses choice files limit) None → AreNotes choice files a
        → AreNotes choice files b → a ≡ b }
    // There is one list of links.
    ensures references { (choice : ModuleChoice) (files : Files) (limit : ℕ)
        (a b : List (Option Link))
        → IsLeast (Refuses choice files limit) None → AreReferences choice files a
        → AreReferences choice files b → a ≡ b }
{
    yv_link_features::laws::an_expression_has_one_truth();
    yv_node_statements::laws::files_have_one_typing();
    yv_expand_definition::laws::files_have_one_schema();
    yv_node_leafrefs::laws::a_tree_is_typed_once();
    yv_node_leafrefs::link_laws::a_schema_has_one_list_of_links();
}

/// What is refused only with types, or with the schema tree, comes in phase 9 or later.
pub fn types_and_trees_come_late()
    ensures { (choice : ModuleChoice) (files : Files) (limit : ℕ) (f : Refusal)
        → Refuses choice files limit f
        → RefusesBeforeTypes choice files limit f ⊎ (9 ≤ phase_of f.code) }
{}
