//! What is wrong with the types.
ghost use Rattle.std.specs.Prelude.{◌≡◌, ◌↔◌, ◌&&◌, ◌||◌, not, IsTrue, Some, slice_get};
ghost use Rattle.yv_text_statement.specs.Order.{IsLeast};
ghost use Rattle.yv_link_scopes.specs.{Rows.{row, name_in}, Views.{files_in, rows_in}};
ghost use Rattle.yv_link_definitions.specs.Refers.{is_type};
ghost use Rattle.yv_base_graph.specs.Marks.{is_marked};
ghost use Rattle.yv_type_chains.specs.{Kinds.{needs_any}, Counts.{HasTooMany}, Refusals.{BadIn, BadRow, IsBadType}, InnerFindings.{AreFound}};

use crate::draft::Draft;
use crate::findings::Findings;
use crate::inside::is_type;
use crate::kinds::needs_any;
use yv_base_graph::is_marked;
use yv_base_tables::slots;
use yv_link_scopes::{Entry, name_of};
use yv_text_statement::{Code, Refusal, lesser, refusal_if};

// Whether a type needs a substatement and has none of these.
fn is_missing(met: &[bool], number: usize, entry: &Entry<'_, '_>) -> bool
    ensures { result
        ≡ ((is_type (row entry.now) && needs_any (name_in (row entry.now)))
        && not (is_marked met.now number)) }
{
    is_type(entry) && needs_any(name_of(entry.statement)) && !is_marked(met, number)
}

// Whether one of three holds.
fn any(first: bool, second: bool, third: bool) -> bool
    ensures { result ≡ (first || (second || third)) }
{
    first || second || third
}

impl<'a, 'b> Draft<'_, 'a, 'b> {
    // Whether a statement is a bad type.
    fn is_bad(&self, found: &Findings, number: usize, entry: &Entry<'a, 'b>) -> bool
        requires { slice_get (rows_in self.now.rows.now) number ≡ Some (row entry.now) }
        ensures { AreFound (files_in self.now.rows.now) (rows_in self.now.rows.now) found.now
            → IsTrue result
            ↔ IsBadType (files_in self.now.rows.now) (rows_in self.now.rows.now) number
            (row entry.now) }
    {
        let misfit = is_marked(&found.misfits, number);
        let missing = is_missing(&found.met, number, entry);
        let joined = self.is_joined(&found.bases, number, entry);
        any(misfit, missing, joined)
    }

    // Whether the values of a type may have too many types.
    fn has_too_many(&self, found: &Findings, number: usize) -> bool
        ensures { AreFound (files_in self.now.rows.now) (rows_in self.now.rows.now) found.now
            → IsTrue result
            ↔ HasTooMany (files_in self.now.rows.now) (rows_in self.now.rows.now) number }
    {
        match slots::get(&found.counts, number) {
            Some(count) => count > 64,
            None => false,
        }
    }

    // What is wrong with a statement.
    fn row_refusal(&self, found: &Findings, number: usize, entry: &Entry<'a, 'b>) -> Option<Refusal>
        requires { slice_get (rows_in self.now.rows.now) number ≡ Some (row entry.now) }
        ensures { AreFound (files_in self.now.rows.now) (rows_in self.now.rows.now) found.now
            → IsLeast
            (BadRow (files_in self.now.rows.now) (rows_in self.now.rows.now) number (row entry.now))
            result }
    {
        let is_bad = self.is_bad(found, number, entry);
        let has_too_many = self.has_too_many(found, number);
        let bad = refusal_if(is_bad, Code::BadType, entry.file, entry.statement);
        let many = refusal_if(
            has_too_many,
            Code::TooManyMembers,
            entry.file,
            entry.statement,
        );
        lesser(bad, many)
    }

    /// The least that is wrong with the types, by what was found of them.
    pub(crate) fn first_refusal(&self, found: &Findings) -> Option<Refusal>
        ensures { AreFound (files_in self.now.rows.now) (rows_in self.now.rows.now) found.now
            → IsLeast (BadIn (files_in self.now.rows.now) (rows_in self.now.rows.now)) result }
    {
        let mut least = None;
        for (number, entry) in self.rows.entries().iter().enumerate() {
            let fault = self.row_refusal(found, number, entry);
            least = lesser(least, fault);
        }
        least
    }
}
