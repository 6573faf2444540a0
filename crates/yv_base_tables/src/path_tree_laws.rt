//! What holds of the paths of each tree.
ghost use Rattle.std.specs.Prelude.{ℕ, List};
ghost use Rattle.yv_base_tables.specs.{Fronts.{HaveFronts}, InnerTree.{IsPathTree}, declared.path_tree.PathTree.{PathTree}};

/// Only the first path of a tree has no step; each other one is one of its paths and one more step.
pub fn paths_have_fronts()
    ensures { (paths : List (List ℕ)) (tree : PathTree) → IsPathTree paths tree → HaveFronts paths }
{}
