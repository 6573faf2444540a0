//! Laws about the definitions only: how a walk finds what is to be found of all that it meets.
ghost use Rattle.std.specs.Prelude.{◌≡◌, ℕ, ◌+◌, List, [], ◌∷◌, ◌++◌, length, Option};
ghost use Rattle.serde_json.specs.Data.{Members, object};
ghost use Rattle.yv_values.specs.Values.{Val};
ghost use Rattle.yv_nodes.specs.{Link.{is_target, link_in}, Rows.{Rows}, Tree.{Forest}, declared.node.NodeId.{NodeId}};
ghost use Rattle.yv_data_leafrefs.specs.{Findings.{end_object, Findings, Finds, first_of, kept_if, met_in, only_used, open_object, positions_in, second_of, used_if, value_notes}, InUse.{in_use, value_of}, Meetings.{count_entered, found_of, Meeting, at_node, Node, Spot, stand, WrittenValue, at_value}, References.{number_of}};

/// As many objects are kept as are entered.
pub fn kept_objects_are_entered()
    ensures { (ms : List Meeting) → length (positions_in ms) ≡ count_entered ms }
{}

/// What stays as it is has met nothing.
pub fn nothing_met()
    ensures { (s : Rows) (a : Findings) → Finds a a (met_in s []) }
{}

/// What is met later comes after what was met before.
pub fn met_behind()
    ensures { (s : Rows) (a b c : Findings) (xs ys : List Meeting)
        → Finds a b (met_in s xs) → Finds b c (met_in s ys) → Finds a c (met_in s (xs ++ ys)) }
{}

/// What is found of a value that is written for a leaf or an item: the value of a target, and that
/// of a leafref.
pub fn value_met()
    ensures { (s : Rows) (m : WrittenValue) (v : Option Val) → value_of m.label m.found ≡ v
        → met_in s (at_value m ∷ [])
        ≡ record {
          kept = kept_if (is_target s.links m.node.0) m.node.0 (first_of m.spot.around) v;
          used = [];
          positions = [];
          notes = value_notes (link_in s.links m.node.0) (first_of m.spot.around) m.node.0
              (number_of m.before) v;
        } }
{}

/// What is found of a node apart from what is below it: the defaults that are in use.
pub fn default_met()
    ensures { (s : Rows) (m : Node) → met_in s (at_node m ∷ [])
        ≡ only_used
        (used_if (is_target s.links m.node.0) m.node.0 (first_of m.spot.around)
        (in_use m.label.defined.kind m.label m.scope (found_of m))) }
{}

/// What is found of an object that is entered, walked over and left.
pub fn object_met()
    ensures { (s : Rows) (a b c d : Findings) (n : NodeId) (item : Option ℕ) (spot : Spot)
        (ts : Forest) (ms : Members) (inside : List Meeting)
        → b.positions ≡ a.positions ++ open_object (second_of spot.around) n.0 item ∷ [] → b.indexes
        ≡ a.indexes → b.uses ≡ a.uses → b.notes ≡ a.notes
        → Finds b c (met_in s inside)
        → d.positions ≡ end_object c.positions (length a.positions) → d.indexes ≡ c.indexes → d.uses
        ≡ c.uses → d.notes ≡ c.notes
        → Finds a d
        (met_in s
        (stand
        (record {
          node = n;
          item = item;
          spot = spot;
          last = length a.positions
              + count_entered inside;
          trees = ts;
          found = object ms;
        }) ∷ inside)) }
{}
