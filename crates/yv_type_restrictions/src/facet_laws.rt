//! Laws about the definitions only.
ghost use Rattle.std.specs.Prelude.{◌≡◌, ℕ, List, Some};
ghost use Rattle.yv_text_statement.specs.Tree.{Tree};
ghost use Rattle.yv_values.specs.{Scopes.{Place, text_value}, Types.{Plain}, Values.{Val}};
ghost use Rattle.yv_type_restrictions.specs.Facets.{Narrows};

/// What a statement leaves of a type is one type.
pub fn one_type_is_left()
    ensures { (t : Tree) (p q r : Plain) → Narrows t p q → Narrows t p r → q ≡ r }
{}

/// What a statement leaves of a type is part of it: each value that it has by a text is the value
/// that the type has by that text (RFC 7950, sections 9.2.4 and 9.4.4).
pub fn a_value_of_what_is_left_is_one_of_the_type()
    ensures { (t : Tree) (p q : Plain) (s : List ℕ) (place : Place) (v : Val)
        → Narrows t p q → text_value q s place ≡ Some v → text_value p s place ≡ Some v }
{}
