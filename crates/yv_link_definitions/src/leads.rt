//! The definitions that types and uses count for.
ghost use Rattle.std.specs.Prelude.{◌≡◌, ◌↔◌, ◌<◌, ℕ, Some, length};
ghost use Rattle.yv_link_scopes.specs.{Rows.{row}, Views.{rows_in}};
ghost use Rattle.yv_link_definitions.specs.Leads.{CountsFor, is_between};

use crate::draft::{Draft, is_of};
use crate::meanings::is_type;
use yv_link_scopes::{Entry, NameKind};

// Whether a statement may be between a type or a uses and the definition for which that counts.
fn is_between(kind: NameKind, entry: &Entry<'_, '_>) -> bool
    ensures { result ≡ is_between kind (row entry.now) }
{
    match kind {
        NameKind::Typedef => is_type(entry),
        NameKind::Grouping => !is_of(NameKind::Grouping, entry),
        _ => false,
    }
}

impl<'a, 'b> Draft<'_, 'a, 'b> {
    /// The number of the definition of the kind that a numbered statement counts for.
    pub(crate) fn owner(&self, kind: NameKind, number: usize) -> Option<usize>
        requires { number < length (rows_in self.now.rows.now) }
        ensures { (d : ℕ)
            → (result ≡ Some d) ↔ CountsFor (rows_in self.now.rows.now) kind number d }
    {
        yv_link_scopes::laws::blocks_are_nested();
        let entries = self.rows.entries();
        let mut place = number;
        loop {
            let entry = &entries[place];
            let block = entry.scope;
            let Some(outer) = entries.get(block) else {
                return None;
            };
            if is_of(kind, outer) {
                return Some(block);
            }
            if block == place {
                return None;
            }
            if !is_between(kind, outer) {
                return None;
            }
            place = block;
        }
    }
}
