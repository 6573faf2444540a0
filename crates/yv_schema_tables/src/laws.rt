//! Laws about the definitions only. These functions do nothing: the contract of each is the law.
ghost use Rattle.std.specs.Prelude.{ℕ, List, [], All, Option};
ghost use Rattle.yv_values.specs.Types.{Plain};
ghost use Rattle.yv_nodes.specs.{declared.node.NodeId.{NodeId}, Link.{AreLinked, Link}, Rows.{AreTrees, Module, Note, Row, Rows}, Tree.{Forest}, NodeTypes.{typed_from, typed_rows}};
ghost use Rattle.yv_schema_tables.specs.{NodeNumbers.{AreFormed, made_of}, Sound.{IsChild, IsNote, IsSound}};

/// Numbers of children represent the trees of these, whichever children they are.
pub fn children_are_trees()
    ensures { (s : Rows) (p : NodeId) (cs : List NodeId) → IsSound s → All (IsChild s p) cs
        → AreTrees s cs }
{}

/// Nodes that get other types are of their modules as before, and their members are called so.
pub fn types_leave_forms()
    ensures { (modules : List Module) (types : ℕ → List Plain) (ts : Forest)
        → AreFormed modules [] ts
        → AreFormed modules [] (typed_from types 0 ts) }
{}

/// What augments add stays where it is where nodes get other types.
pub fn types_leave_notes()
    ensures { (types : ℕ → List Plain) (nodes : List Row) (top : List NodeId) (limit : ℕ)
        (modules : List Module) (notes : List Note)
        (links : List (Option Link))
        → All (IsNote (made_of nodes top limit modules notes links)) notes
        → All (IsNote (made_of (typed_rows types 0 nodes) top limit modules notes links)) notes }
{}
