//! Laws about the definitions only.
ghost use Rattle.std.specs.Prelude.{◌≡◌, ℕ, List};
ghost use Rattle.yv_link_scopes.specs.{Files.{Briefs}, Rows.{Row}};
ghost use Rattle.yv_expand_statements.specs.Weigh.{Weigh};

/// Statements take one number of units at most.
pub fn units_are_one()
    ensures { (files : Briefs) (rows : List Row) (numbers : List ℕ) (n m : ℕ)
        → Weigh files rows numbers n
        → Weigh files rows numbers m → n ≡ m }
{
    yv_link_scopes::laws::a_name_means_one_thing();
}
