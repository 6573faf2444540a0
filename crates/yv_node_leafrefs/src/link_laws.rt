//! Laws about the definitions only: what users of links may rely on. These functions do nothing:
//! the contract of each is the law.
ghost use Rattle.std.specs.Prelude.{◌≡◌, ◌≢◌, ℕ, List, Option, Some, true};
ghost use Rattle.yv_values.specs.Types.{Plain};
ghost use Rattle.yv_nodes.specs.{Link.{AreLinked, Link, link_in, reference_in}, Numbers.{rows_from}, Tree.{Forest}, NodeTypes.{typed_from}};
ghost use Rattle.yv_node_leafrefs.specs.{Schema.{AreAlike, Schema}, Targets.{RefersTo}, Links.{AreLinks, OnlyInnerHold}};

/// The links of a schema lead in its trees from where they climb to, to their targets.
pub fn links_lead()
    ensures { (s : Schema) (ts : Forest) (links : List (Option Link)) → s.rows ≡ rows_from 0 ts
        → AreLinks s links
        → AreLinked (reference_in links) ts }
{}

/// They do so whatever types the values of nodes have.
pub fn types_leave_links()
    ensures { (types : ℕ → List Plain) (links : ℕ → Option Link) (ts : Forest) → AreLinked links ts
        → AreLinked links (typed_from types 0 ts) }
{}

/// Leafrefs have the same links, by what a schema says.
pub fn a_schema_has_one_list_of_links()
    ensures { (s t : Schema) (a b : List (Option Link)) → AreAlike s t → AreLinks s a → AreLinks t b
        → a ≡ b }
{}

/// A leafref that refers to a node has its link to that, where its path is absolute or climbs, and
/// only containers and lists have data nodes below them. The link says whether an instance is
/// required.
pub fn leafrefs_have_links()
    ensures { (s : Schema) (links : List (Option Link)) (n target : ℕ) → AreLinks s links
        → OnlyInnerHold s.rows
        → (refers : RefersTo s n target) → refers.ref.climbs ≢ Some 0
        → (link : Link) × (reference_in links n ≡ Some link) × (link.target ≡ target)
        × (link.is_required ≡ refers.ref.is_required) }
{}

/// A leafref that requires an instance and refers to a node has its link to that, where its path is
/// absolute or climbs, and only containers and lists have data nodes below them.
pub fn required_leafrefs_have_links()
    ensures { (s : Schema) (links : List (Option Link)) (n target : ℕ) → AreLinks s links
        → OnlyInnerHold s.rows
        → (refers : RefersTo s n target) → refers.ref.is_required ≡ true → refers.ref.climbs
        ≢ Some 0
        → (link : Link) × (link_in links n ≡ Some link) × (link.target ≡ target) }
{}

/// The links of a schema are those of one with the same rows that says the same.
pub fn alike_schemas_have_the_same_links()
    ensures { (s t : Schema) (links : List (Option Link)) → AreAlike s t → AreLinks s links
        → AreLinks t links }
{}
