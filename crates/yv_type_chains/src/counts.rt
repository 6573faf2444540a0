//! How many plain types the values of a type may have.
ghost use Rattle.std.specs.Prelude.{◌≡◌, ◌+◌, ℕ, IfOk};
ghost use Rattle.yv_link_scopes.specs.Views.{files_in, rows_in};
ghost use Rattle.yv_base_tables.specs.Slots.{at};
ghost use Rattle.yv_type_chains.specs.{Types.{IsOrderOfTypes, RestsOn}, InnerTables.{AreFollowed}, InnerCounts.{AreCounts, IsCount, cap, total_from}};

use crate::draft::Draft;
use crate::steps::is_kind;
use std::alloc::{AllocError, Global};
use yv_base_tables::slots;

// The sum of two counts, up to 65.
fn sum(first: usize, second: usize) -> usize
    ensures { result ≡ cap (first + second) }
{
    if first >= 65 || second >= 65 {
        return 65;
    }
    let sum = first + second;
    if sum < 65 { sum } else { 65 }
}

// The sum of the members' counts, if each has one.
fn total(counts: &[Option<usize>], members: &[usize]) -> Option<usize>
    ensures { result ≡ total_from counts.now 0 members.now }
{
    let mut total = 0;
    for member in members {
        let Some(count) = slots::get(counts, *member) else {
            return None;
        };
        total = sum(total, count);
    }
    Some(total)
}

impl Draft<'_, '_, '_> {
    // The count of a type, those from which it takes its values having theirs.
    fn count(&self, counts: &[Option<usize>], number: usize) -> Option<usize>
        ensures { AreFollowed (files_in self.now.rows.now) (rows_in self.now.rows.now)
            self.now.follows.items
            → ((j : ℕ) → RestsOn (files_in self.now.rows.now) (rows_in self.now.rows.now) number j
            → IsCount (files_in self.now.rows.now) (rows_in self.now.rows.now) j (at counts.now j))
            → IsCount (files_in self.now.rows.now) (rows_in self.now.rows.now) number result }
    {
        let Some(entry) = self.rows.entries().get(number) else {
            return None;
        };
        if is_kind("leafref", entry) {
            return Some(0);
        }
        if is_kind("union", entry) {
            return total(counts, self.inside.at(number));
        }
        if self.names_built_in(number) {
            return Some(1);
        }
        match slots::get(&self.follows, number) {
            Some(followed) => slots::get(counts, followed),
            None => None,
        }
    }

    /// The count of each type, up to 65, this being an order of the types.
    pub(crate) fn counts(
        &self,
        alloc: Global,
        order: &[usize],
    ) -> Result<Vec<Option<usize>>, AllocError>
        ensures { IfOk result
            (λ counts. AreFollowed (files_in self.now.rows.now) (rows_in self.now.rows.now)
            self.now.follows.items
            → IsOrderOfTypes (files_in self.now.rows.now) (rows_in self.now.rows.now) order.now
            → AreCounts (files_in self.now.rows.now) (rows_in self.now.rows.now) counts.items) }
    {
        let mut counts = slots::empty(alloc, self.rows.entries().len())?;
        for number in order {
            let count = self.count(&counts, *number);
            slots::put(&mut counts, *number, count);
        }
        Ok(counts)
    }
}
