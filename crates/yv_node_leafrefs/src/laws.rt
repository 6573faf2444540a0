//! Laws about the definitions only: what users of leafrefs may rely on. These functions do nothing:
//! the contract of each is the law.
ghost use Rattle.std.specs.Prelude.{List, ◌≡◌, ◌⊎◌, ◌≤◌, ℕ, Some, None, true, slice_get};
ghost use Rattle.yv_nodes.specs.{Tree.{Forest}, Rows.{Row}, Numbers.{numbers_from, rows_from}, NodeTypes.{typed_from, typed_rows}};
ghost use Rattle.yv_node_leafrefs.specs.{Schema.{AreAlike, Schema}, Above.{AreBehind, IsDepth, IsInside, IsUnder}, Targets.{RefersTo, HasTypesOf}, Leafrefs.{AreLeafrefs}, declared.leafrefs.Leafrefs.{Leafrefs}, Resolution.{IsResolved, IsTyped}};
ghost use Rattle.yv_node_content.specs.Kinds.{has_values};
ghost use Rattle.yv_values.specs.Types.{Plain};

/// Each row of a schema tree is after the one above it.
pub fn rows_of_a_tree_are_behind()
    ensures { (ts : Forest) → AreBehind (rows_from 0 ts) }
{}

/// The target of a leafref is a leaf or a leaf-list.
pub fn a_target_has_values()
    ensures { (s : Schema) (n x : ℕ) → RefersTo s n x
        → (row : Row) × (slice_get s.rows x ≡ Some row)
        × (has_values row.label.defined.kind ≡ true) }
{}

/// It is outside operations and notifications.
pub fn a_target_is_outside()
    ensures { (s : Schema) (n x : ℕ) → RefersTo s n x → IsInside s.rows (Some x) → ⊥ }
{}

/// It is below the place at which the path begins: the document, or one that the leafref itself is
/// below.
pub fn a_target_is_below()
    ensures { (s : Schema) (n x : ℕ) (r : RefersTo s n x) → IsUnder s.rows r.start (Some x)
        × ((r.start ≡ None) ⊎ IsUnder s.rows r.start (Some n)) }
{}

/// A leafref refers to one target.
pub fn a_leafref_has_one_target()
    ensures { (s : Schema) (n x y : ℕ) → RefersTo s n x → RefersTo s n y → x ≡ y }
{}

/// The values of a node have the types of one node.
pub fn types_are_those_of_one_node()
    ensures { (s : Schema) (n e f : ℕ) → HasTypesOf s n e → HasTypesOf s n f → e ≡ f }
{}

/// The path of a leafref climbs no further than to the document.
pub fn a_path_climbs_within_the_depth()
    ensures { (s : Schema) (n x k d : ℕ) (r : RefersTo s n x) → r.ref.climbs ≡ Some k
        → IsDepth s.rows (Some n) d → k ≤ d }
{}

/// Schemas with the same rows, which say the same, have the same leafrefs.
pub fn alike_schemas_have_the_same_leafrefs()
    ensures { (s t : Schema) (l : Leafrefs) → AreAlike s t → AreLeafrefs s l → AreLeafrefs t l }
{}

/// A schema tree is resolved to one, by what its leafrefs say.
pub fn a_tree_is_resolved_once()
    ensures { (s t : Schema) (stated a b : Forest) → ((n : ℕ) → s.says n ≡ t.says n)
        → IsResolved s stated a → IsResolved t stated b → a ≡ b }
{}

/// A schema has one tree, by what its leafrefs say.
pub fn a_tree_is_typed_once()
    ensures { (s t : Schema) (stated a b : Forest) → AreAlike s t → IsTyped s stated a
        → IsTyped t stated b → a ≡ b }
{}

/// Its nodes at the top have the numbers of those of the stated one.
pub fn tops_are_typed()
    ensures { (types : ℕ → List Plain) (ts : Forest) → numbers_from 0 (typed_from types 0 ts)
        ≡ numbers_from 0 ts }
{}

/// The rows of a resolved tree are those of the stated one with other types.
pub fn rows_are_typed()
    ensures { (types : ℕ → List Plain) (ts : Forest) → rows_from 0 (typed_from types 0 ts)
        ≡ typed_rows types 0 (rows_from 0 ts) }
{}
