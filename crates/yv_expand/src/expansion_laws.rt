//! Laws about the definitions only. These functions do nothing: the contract of each is the law.
ghost use Rattle.std.specs.Prelude.{◌≡◌, ℕ, ◌+◌, ◌++◌, Option, length};
ghost use Rattle.yv_expand.specs.Tree.{Forest, count, join, item_list};

/// A list has as many items as its tree.
pub fn a_tree_is_listed_whole<O>()
    ensures { (parent : Option ℕ) (first : ℕ) (t : Forest O) → length (item_list parent first t)
        ≡ count t }
{}

/// Trees are listed one after the other.
pub fn trees_are_listed_in_order<O>()
    // Two lists of trees have as many nodes as both have together.
    ensures count { (t u : Forest O) → count (join t u) ≡ count t + count u }
    // Their items are those of the first and then those of the second.
    ensures lists { (parent : Option ℕ) (first : ℕ) (t u : Forest O)
        → item_list parent first (join t u) ≡ item_list parent first t
        ++ item_list parent (first + count t) u }
{}
