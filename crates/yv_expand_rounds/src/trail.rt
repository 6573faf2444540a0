//! How far a path was followed.
ghost use Rattle.std.specs.Prelude.{◌≡◌, [], ℕ, false, Some, slice_get};
ghost use Rattle.yv_expand_rounds.specs.{declared.end.End.{End}, InnerHiddenNodes.{is_hidden_at}, InnerPendingPaths.{end_reached, last_end}};

use crate::end::End;
use crate::hidden_nodes::HiddenNodes;
use std::alloc::Global;

/// How far the path of an augment that waits was followed from the top: where its first steps lead,
/// one by one.
#[derive(Drop)]
pub(crate) struct Trail {
    pub ends: Vec<End>,
}

impl Trail {
    /// No step was followed.
    pub(crate) fn new(alloc: Global) -> Trail
        ensures { result.ends.items ≡ [] }
    {
        Trail {
            ends: Vec::new(alloc),
        }
    }

    /// Where the steps lead.
    pub(crate) fn end(&self) -> End
        ensures { result ≡ last_end self.now.ends.items }
    {
        match self.ends.last() {
            Some(end) => *end,
            None => End::Start(0),
        }
    }

    /// Where a path ends, if it was followed to its end.
    pub(crate) fn end_of(&self, path: &[usize]) -> Option<End>
        ensures { result ≡ end_reached path.now self.now.ends.items }
    {
        if self.ends.len() < path.len() {
            None
        } else {
            Some(self.end())
        }
    }

    /// Takes the last steps back that come to hidden nodes.
    pub(crate) fn retreat(&mut self, hidden: &HiddenNodes)
        ensures keeps { (place : ℕ) (e : End) → slice_get self.new.ends.items place ≡ Some e
            → slice_get self.old.ends.items place ≡ Some e }
        ensures shows { is_hidden_at hidden.now.marks.items (last_end self.new.ends.items) ≡ false }
    {
        while hidden.has(self.end()) {
            self.ends.pop();
        }
    }
}
