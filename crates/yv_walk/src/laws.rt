//! Laws about the definitions: what one member more makes exist, and which nodes are in an object.
//! A caller that needs one calls it, and nothing runs.
ghost use Rattle.std.specs.{Prelude.{◌≡◌, ◌<◌, ◌≤◌, ◌&&◌, ℕ, List, None, drop, length, true}, List.{slice_index_or}};
ghost use Rattle.serde_json.specs.{Data.{Data, Members, member, no_members}, Find.{get_member}};
ghost use Rattle.yv_nodes.specs.{Numbers.{numbers_from}, Rows.{Rows, below, children_of, forest, rank}, Tree.{Forest}, declared.node.NodeId.{NodeId}};
ghost use Rattle.yv_node_content.specs.declared.kind.NodeKind.{NodeKind};
ghost use Rattle.yv_schema_tables.specs.Sound.{IsSound, is_object};
ghost use Rattle.yv_walk.specs.{Marks.{with_node}, MemberNodes.{AreNamed, AreUnnamed}, Existence.{both, holds, is_there, passes, existence_of, stands_in}, declared.existence.Existence.TheVariants.{Nothing}, declared.existence.Existence.{Existence}};

/// One member more: what exists in any group of nodes, by marking the one node that the member
/// names.
pub fn member_marks()
    ensures { (first : ℕ) (ts : Forest) (key : List ℕ) (d : Data) (ms : Members) (n : NodeId)
        (k : NodeKind) → AreNamed key n k first ts
        → get_member key ms ≡ None → existence_of first ts (member key d ms)
        ≡ with_node (is_there k d && holds first ts n) (existence_of first ts ms) n }
{}

/// The step of the look-ups, for any group of nodes: with the member's node marked, and the members
/// that are left, what exists is what existed before with that member left too.
pub fn next_member()
    ensures { (first : ℕ) (ts : Forest) (key : List ℕ) (d : Data) (rest : Members) (n : NodeId)
        (k : NodeKind) (old : Existence)
        → AreNamed key n k first ts → get_member key rest ≡ None
        → both (with_node (is_there k d && holds first ts n) old n) (existence_of first ts rest)
        ≡ both old (existence_of first ts (member key d rest)) }
{}

/// A member that names no node makes none exist.
pub fn unknown_member()
    ensures { (first : ℕ) (ts : Forest) (key : List ℕ) (d : Data) (ms : Members)
        → AreUnnamed key ts → existence_of first ts (member key d ms) ≡ existence_of first ts ms }
{}

/// Nothing exists in an object without members.
pub fn nothing_stands()
    ensures { (first : ℕ) (ts : Forest) → existence_of first ts no_members ≡ Nothing }
{}

/// The children of a node that has an object are in it.
pub fn child_stands()
    ensures { (s : Rows) (p : NodeId) (i : ℕ) (d : NodeId) → IsSound s → rank p ≤ length s.nodes
        → is_object s p ≡ true → i < length (children_of s p)
        → stands_in s p (slice_index_or (children_of s p) i d) ≡ true }
{}

/// The children of a choice or case that is in an object are in it too.
pub fn inner_stands()
    ensures { (s : Rows) (p a : NodeId) (i : ℕ) (d : NodeId) → IsSound s → stands_in s p a ≡ true
        → passes s a ≡ true
        → i < length (children_of s a) → stands_in s p (slice_index_or (children_of s a) i d)
        ≡ true }
{}

/// The children of a node have the numbers that its trees are counted by.
pub fn child_numbers()
    ensures { (s : Rows) (p : NodeId) → IsSound s → rank p ≤ length s.nodes → children_of s p
        ≡ numbers_from (rank p) (below s p) }
{}

/// The same of the children from each place on: the first of these has the number at which their
/// trees begin.
pub fn later_numbers()
    ensures { (s : Rows) (p : NodeId) (i : ℕ) (d : NodeId) → IsSound s → rank p ≤ length s.nodes → i
        < length (children_of s p)
        → drop i (children_of s p)
        ≡ numbers_from (slice_index_or (children_of s p) i d).0
        (forest s (drop i (children_of s p))) }
{}
