//! Laws about the definitions only.
ghost use Rattle.std.specs.Prelude.{◌≡◌, ℕ};
ghost use Rattle.yv_link_scopes.specs.Files.{Files};
ghost use Rattle.yv_values.specs.Types.{Plain};
ghost use Rattle.yv_type_restrictions.specs.Types.{HasPlainType};

/// A type has one plain type.
pub fn a_type_has_one_plain_type()
    ensures { (files : Files) (k : ℕ) (p q : Plain) → HasPlainType files k p
        → HasPlainType files k q → p ≡ q }
{
    yv_link_scopes::laws::statements_have_their_rows();
    yv_type_chains::laws::a_type_follows_one_type();
    crate::facet_laws::one_type_is_left();
}
