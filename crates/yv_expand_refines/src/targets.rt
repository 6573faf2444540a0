//! What refines mean.

/// A refine, and the place of its path among the different paths of the refines of its `uses`.
#[derive(Clone, Copy, Debug, PartialEq, Eq)]
pub struct RefineTarget {
    /// The number of the statement that refines.
    pub refine: usize,
    /// The place of its path.
    pub path: usize,
}

/// A copy of a `uses` that refines.
#[derive(Drop)]
pub struct RefinedUses {
    /// The number of the item that the `uses` is.
    pub item: usize,
    /// The place of its refine targets.
    pub refine_targets: usize,
    /// For each different path of its refines the number of the item to which it leads, if there is
    /// one.
    pub targets: Vec<Option<usize>>,
}

/// What refines mean at the copies of their `uses`: copies of one `uses` in one module share their
/// refine targets.
#[derive(Drop)]
pub struct Refinements {
    /// The refines of a `uses`, in order, at each place.
    pub refine_targets: Vec<Vec<RefineTarget>>,
    /// The copies that refine, in the order in which they do.
    pub uses: Vec<RefinedUses>,
}
