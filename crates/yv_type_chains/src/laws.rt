//! Laws about the definitions only.
ghost use Rattle.std.specs.Prelude.{◌≡◌, ℕ, List};
ghost use Rattle.yv_link_scopes.specs.{Files.{Briefs}, Rows.{Row}};
ghost use Rattle.yv_type_chains.specs.{Types.{Follows, HasBase}, Counts.{Counts}};

/// A type follows one type.
pub fn a_type_follows_one_type()
    ensures { (files : Briefs) (rows : List Row) (k i j : ℕ) → Follows files rows k i
        → Follows files rows k j → i ≡ j }
{
    yv_link_scopes::laws::a_name_means_one_thing();
}

/// A type leads to one built-in type.
pub fn a_type_has_one_base()
    ensures { (files : Briefs) (rows : List Row) (k b c : ℕ) → HasBase files rows k b
        → HasBase files rows k c → b ≡ c }
{
    yv_link_scopes::laws::a_name_means_one_thing();
}

/// The values of a type have so many types, and no more or less.
pub fn a_type_has_one_count()
    ensures { (files : Briefs) (rows : List Row) (k m n : ℕ) → Counts files rows k m
        → Counts files rows k n → m ≡ n }
{
    yv_link_scopes::laws::a_name_means_one_thing();
}
