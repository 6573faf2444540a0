//! Laws about the definitions only. These functions do nothing: the contract of each is the law.
ghost use Rattle.std.specs.Prelude.{◌≡◌, ◌≢◌, ◌<◌, ◌^◌, ℕ, Contains, IfSome, IsSome, List, None, Some, codes, false, map, true};
ghost use Rattle.serde_json.specs.{Data.{Data, Members, object}, Find.{get_member}};
ghost use Rattle.yv_text_statement.specs.declared.document_kind.Kind.{Kind};
ghost use Rattle.yv_nodes.specs.{Link.{link_in}, Rows.{Rows}};
ghost use Rattle.yv_schema_tables.specs.DataChildren.{opened_trees};
ghost use Rattle.yv_walk.specs.Context.{unknown_names};
ghost use Rattle.yv_data_leafrefs.specs.{Meetings.{Meeting, Node, Stand, WrittenValue, all_met, at_node, at_value, stand}, Place.{Place, under}, References.{references_at}, Values.{values_in}};
ghost use Rattle.yv_data_faults.specs.{Flaw.{Flaw}, declared.fault.FaultKind.TheVariants.{Choice, Reference, Unknown}};
ghost use Rattle.yv_validate.specs.{Faults.{faults, faults_at}, Size.{size}};
ghost use Rattle.yv_json_lines.specs.Pointer.{pointer_text};
ghost use Rattle.yv_json_laws.specs.{Example.{document, other_texts, pointers, values}, Faulty.{found_at, is_at_choice, may_be_missing}, Resolution.{name_of, value_at}};

/// Pointers lead as in the examples of RFC 6901 (sections 4 and 5).
pub fn pointers_lead_as_in_rfc_6901()
    // The pointers of the example lead to what it says.
    ensures values { map (λ p. value_at p document) pointers ≡ map (λ v. Some v) values }
    // Texts that aren't pointers lead nowhere in its document, and neither do pointers to nothing.
    ensures others { map (λ p. value_at p document) other_texts ≡ map (λ p. None) other_texts }
    // The token `~01` means the name `~1`, and not `/`.
    ensures order { name_of (codes "~01") ≡ codes "~1" }
{}

/// The JSON pointer of a fault, taken apart as RFC 6901 says, leads to the faulty value of the
/// document, and that of a fault of what is missing leads nowhere. A document has fewer than 2 ^ 64
/// members and items here, as each has that fits a memory.
pub fn pointers_lead_there()
    // The pointer leads to a value, unless faults of the kind may be of what is missing.
    ensures there { (k : Kind) (s : Rows) (d : Data) (f : Flaw) → size d < 2 ^ 64
        → Contains (faults k s d) f → may_be_missing f.kind ≡ false
        → IsSome (value_at (pointer_text f.kind f.path) d) }
    // It leads to what is written where the fault is met, and nowhere if nothing is, unless the
    // fault is of a member in that or at a choice.
    ensures found { (k : Kind) (s : Rows) (d : Data) (m : Meeting) (f : Flaw) → size d < 2 ^ 64
        → Contains (all_met k s d) m → Contains (faults_at k s m) f
        → f.kind ≢ Unknown → is_at_choice f.kind m ≡ false
        → value_at (pointer_text f.kind f.path) d ≡ found_at m }
    // A member that names no node is there, and the pointer of its fault leads to its value.
    ensures unknown { (k : Kind) (s : Rows) (d : Data) (m : Stand) (ms : Members) (name : List ℕ)
        → size d < 2 ^ 64 → Contains (all_met k s d) (stand m) → m.found ≡ object ms
        → Contains (unknown_names (opened_trees m.trees) ms) name
        → (v : Data) × (get_member name ms ≡ Some v)
        × (value_at (pointer_text Unknown (under m.spot.path name)) d ≡ Some v) }
    // If two cases of a choice exist, the pointer leads to the object in which they do.
    ensures choice { (k : Kind) (s : Rows) (d : Data) (m : Node) (f : Flaw) → size d < 2 ^ 64
        → Contains (all_met k s d) (at_node m) → Contains (faults_at k s (at_node m)) f
        → f.kind ≡ Choice → value_at (pointer_text f.kind f.path) d ≡ Some (object m.members) }
    // At a choice, also one that is missing, it leads to the object around it, if to anything.
    ensures parent { (k : Kind) (s : Rows) (d : Data) (m : Node) (f : Flaw) → size d < 2 ^ 64
        → Contains (all_met k s d) (at_node m) → Contains (faults_at k s (at_node m)) f
        → is_at_choice f.kind (at_node m) ≡ true
        → IfSome (value_at (pointer_text f.kind f.path) d) (λ v. v ≡ object m.members) }
    // If a reference reaches nothing, the pointer leads to the value of the leafref.
    ensures reference { (k : Kind) (s : Rows) (d : Data) (m : WrittenValue) (path : List Place)
        → size d < 2 ^ 64 → Contains (all_met k s d) (at_value m)
        → Contains (references_at (link_in s.links) (values_in (all_met k s d)) (at_value m)) path
        → value_at (pointer_text Reference path) d ≡ Some m.found }
{}
