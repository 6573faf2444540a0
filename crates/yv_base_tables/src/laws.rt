//! Laws about the definitions only.
ghost use Rattle.std.specs.Prelude.{◌≡◌, ◌<◌, ◌↔◌, ℕ, [], List, Option, Some, Contains, slice_get, slice_index_or};
ghost use Rattle.yv_base_tables.specs.Families.{by_place, numbers_at};

/// A number is listed at its place and at no other.
pub fn a_number_is_listed_at_its_place()
    ensures { (places : List (Option ℕ)) (place number : ℕ)
        → Contains (numbers_at places place) number
        ↔ (slice_get places number ≡ Some (Some place)) }
{}

/// Each place below the count has its numbers.
pub fn each_place_has_its_numbers()
    ensures { (places : List (Option ℕ)) (count place : ℕ) → place < count
        → slice_index_or (by_place places count) place [] ≡ numbers_at places place }
{}
