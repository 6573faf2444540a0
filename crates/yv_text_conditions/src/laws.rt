//! Laws about the definitions only.
ghost use Rattle.std.specs.Prelude.{◌≡◌, ◌||◌, ℕ, List, Option};
ghost use Rattle.yv_text_statement.specs.declared.keyword.Keyword.{Keyword};
ghost use Rattle.yv_text_grammar.specs.Conditions.{is_condition};
ghost use Rattle.yv_text_conditions.specs.Conditions.{is_filtered_path, is_instance_type, is_must, is_when};

/// What is refused as a condition is of one of the kinds that are counted, and nothing else is.
pub fn conditions_have_kinds()
    ensures { (keyword : Keyword) (argument : Option (List ℕ)) → is_condition keyword argument
        ≡ (is_must keyword argument || (is_when keyword argument
        || (is_filtered_path keyword argument || is_instance_type keyword argument))) }
{}
