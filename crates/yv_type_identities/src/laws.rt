//! Laws about the definitions only. These functions do nothing: the contract of each is the law.
ghost use Rattle.std.specs.Prelude.{◌≡◌, ◌↔◌, ℕ, List, Some, None, slice_get};
ghost use Rattle.yv_text_statement.specs.{Order.{IsLeast}, Selection.{ModuleChoice}};
ghost use Rattle.yv_link_scopes.specs.{Files.{Files, Briefs}, Rows.{Row}};
ghost use Rattle.yv_link_features.specs.{Refusals.{BadFeatures}, On.{Holds}};
ghost use Rattle.yv_link_identities.specs.{References.{IsDerived, ref_of}, declared.references.IdentityRef.{IdentityRef}};
ghost use Rattle.yv_type_identities.specs.{Bases.{IsBelow}, Values.{Truth, HasValue}};

/// Where nothing is refused of the features, a type has the same values whatever decides the truth
/// of conditions.
pub fn a_type_has_its_values()
    ensures { (files : Files) (choice : ModuleChoice) (t u : Truth)
        → IsLeast (BadFeatures files) None
        → ((file : ℕ) (text : List ℕ) → Holds files choice file text (t file text))
        → ((file : ℕ) (text : List ℕ) → Holds files choice file text (u file text))
        → (number : ℕ) (module_name called : List ℕ)
        → HasValue t choice files number module_name called
        → HasValue u choice files number module_name called }
{
    yv_link_features::laws::an_expression_has_one_truth();
}

/// Where at most one statement is at a place, what is there is below a base just where it is
/// derived from it.
pub fn places_tell_identities_apart()
    ensures { (files : Briefs) (rows : List Row) (place base : IdentityRef)
        → ((i j : ℕ) (r s : Row) → slice_get rows i ≡ Some r → slice_get rows j ≡ Some s → ref_of r
        ≡ place → ref_of s ≡ place → i ≡ j)
        → IsBelow files rows place base ↔ IsDerived files rows place base }
{}
