//! Marks on the blocks that contain statements.
ghost use Rattle.std.specs.Prelude.{◌≡◌, ◌≢◌, ◌<◌, ℕ, true, length, IfOk};
ghost use Rattle.yv_link_scopes.specs.Views.{files_in, rows_in};
ghost use Rattle.yv_base_graph.specs.Marks.{is_marked};
ghost use Rattle.yv_type_chains.specs.{Refusals.{IsMisfit}, InnerTables.{AreBased}, InnerMarks.{AreMarked, Meets}};

use crate::draft::Draft;
use std::alloc::{AllocError, Global};

// Marks a number that there is.
fn mark(marks: &mut Vec<bool>, number: usize)
    ensures each { length marks.new.items ≡ length marks.old.items }
    ensures here { number < length marks.old.items → is_marked marks.new.items number ≡ true }
    ensures elsewhere { (k : ℕ) → k ≢ number → is_marked marks.new.items k
        ≡ is_marked marks.old.items k }
{
    if number < marks.len() {
        marks[number] = true;
    }
}

impl Draft<'_, '_, '_> {
    /// Marks the types with a substatement that they don't take, these being the bases.
    pub(crate) fn misfits(
        &self,
        alloc: Global,
        bases: &[Option<usize>],
    ) -> Result<Vec<bool>, AllocError>
        ensures { IfOk result
            (λ marks. AreBased (files_in self.now.rows.now) (rows_in self.now.rows.now) bases.now
            → AreMarked (IsMisfit (files_in self.now.rows.now) (rows_in self.now.rows.now))
            (rows_in self.now.rows.now) marks.items) }
    {
        yv_link_scopes::laws::blocks_are_nested();
        let entries = self.rows.entries();
        let mut marks = vec![in alloc; false; entries.len()]?;
        for entry in entries {
            if self.is_misfit(bases, entry.scope, entry) {
                mark(&mut marks, entry.scope);
            }
        }
        Ok(marks)
    }

    /// Marks the types with a substatement that they need.
    pub(crate) fn mark_satisfied(&self, alloc: Global) -> Result<Vec<bool>, AllocError>
        ensures { IfOk result
            (λ marks. AreMarked (Meets (rows_in self.now.rows.now)) (rows_in self.now.rows.now)
            marks.items) }
    {
        yv_link_scopes::laws::blocks_are_nested();
        let entries = self.rows.entries();
        let mut marks = vec![in alloc; false; entries.len()]?;
        for entry in entries {
            if self.meets(entry.scope, entry) {
                mark(&mut marks, entry.scope);
            }
        }
        Ok(marks)
    }
}
