//! What is wrong with the names of definitions.
ghost use Rattle.std.specs.Prelude.{◌≡◌, ◌↔◌, ◌||◌, IsTrue, false, if◌then◌else◌, Some, None, slice_get};
ghost use Rattle.yv_text_statement.specs.Order.{IsLeast, refusal_at};
ghost use Rattle.yv_link_scopes.specs.{Rows.{row}, Views.{files_in, rows_in}};
ghost use Rattle.yv_link_definitions.specs.{Duplicates.{kind_defined}, Refers.{is_type, is_uses}, Refusals.{BadIn, BadRow, IsOnCycle}, InnerGraph.{AreDefinitionCycles}, InnerAnswers.{AreMeant}};

use crate::draft::{Draft, is_of};
use yv_base_graph::is_marked;
use yv_link_scopes::{Entry, NameKind};
use yv_text_statement::{Code, Keyword, Refusal, lesser, refusal_if};

// Whether one of five holds.
fn any(first: bool, second: bool, third: bool, fourth: bool, fifth: bool) -> bool
    ensures { result ≡ (first || (second || (third || (fourth || fifth)))) }
{
    first || second || third || fourth || fifth
}

// Whether a statement may define something, or mean a definition. Most statements don't.
fn has_definition(entry: &Entry<'_, '_>) -> bool
    ensures defines { result ≡ false → kind_defined (row entry.now) ≡ None }
    ensures types { result ≡ false → is_type (row entry.now) ≡ false }
    ensures uses { result ≡ false → is_uses (row entry.now) ≡ false }
{
    match entry.kind() {
        Keyword::Type | Keyword::Uses => true,
        Keyword::Feature | Keyword::Identity | Keyword::Extension => true,
        Keyword::Typedef | Keyword::Grouping => true,
        _ => false,
    }
}

// The refusal of a statement, where it is bad.
fn refusal_of(bad: bool, code: Code, entry: &Entry<'_, '_>) -> Option<Refusal>
    ensures { let r = row entry.now
        in result ≡ (if bad then Some (refusal_at code r.file r.head) else None) }
{
    refusal_if(bad, code, entry.file, entry.statement)
}

impl<'a, 'b> Draft<'_, 'a, 'b> {
    // Whether a statement is a definition of the kind that leads to itself.
    fn is_on_cycle(
        &self,
        kind: NameKind,
        cycles: &[bool],
        number: usize,
        entry: &Entry<'a, 'b>,
    ) -> bool
        requires { let rows = self.now.rows.now
            in AreDefinitionCycles (files_in rows) (rows_in rows) cycles.now }
        ensures { let rows = self.now.rows.now
            in IsTrue result
            ↔ IsOnCycle (files_in rows) (rows_in rows) kind number (row entry.now) }
    {
        is_marked(cycles, number) && is_of(kind, entry)
    }

    // What is wrong with a statement that defines or means something.
    fn name_refusal(
        &self,
        meanings: &[Option<u32>],
        cycles: &[bool],
        number: usize,
        entry: &Entry<'a, 'b>,
    ) -> Option<Refusal>
        requires at { slice_get (rows_in self.now.rows.now) number ≡ Some (row entry.now) }
        requires meant { let rows = self.now.rows.now
            in AreMeant (files_in rows) (rows_in rows) meanings.now }
        requires cycles { let rows = self.now.rows.now
            in AreDefinitionCycles (files_in rows) (rows_in rows) cycles.now }
        ensures { let rows = self.now.rows.now
            in IsLeast (BadRow (files_in rows) (rows_in rows) number (row entry.now)) result }
    {
        let is_taken = self.is_taken(number, entry);
        let no_typedef = self.is_unknown(NameKind::Typedef, meanings, number, entry);
        let is_typedef_cycle = self.is_on_cycle(NameKind::Typedef, cycles, number, entry);
        let no_grouping = self.is_unknown(NameKind::Grouping, meanings, number, entry);
        let is_grouping_cycle = self.is_on_cycle(NameKind::Grouping, cycles, number, entry);
        if !any(
            is_taken,
            no_typedef,
            is_typedef_cycle,
            no_grouping,
            is_grouping_cycle,
        ) {
            return None;
        }
        let taken = refusal_of(is_taken, Code::DuplicateName, entry);
        let typedef = refusal_of(no_typedef, Code::UnknownType, entry);
        let typedef_cycle = refusal_of(is_typedef_cycle, Code::TypeCycle, entry);
        let grouping = refusal_of(no_grouping, Code::UnknownGrouping, entry);
        let grouping_cycle = refusal_of(is_grouping_cycle, Code::GroupingCycle, entry);
        let groupings = lesser(grouping, grouping_cycle);
        let cycles = lesser(typedef_cycle, groupings);
        let types = lesser(typedef, cycles);
        lesser(taken, types)
    }

    // What is wrong with a statement.
    fn row_refusal(
        &self,
        meanings: &[Option<u32>],
        cycles: &[bool],
        number: usize,
        entry: &Entry<'a, 'b>,
    ) -> Option<Refusal>
        requires at { slice_get (rows_in self.now.rows.now) number ≡ Some (row entry.now) }
        requires meant { let rows = self.now.rows.now
            in AreMeant (files_in rows) (rows_in rows) meanings.now }
        requires cycles { let rows = self.now.rows.now
            in AreDefinitionCycles (files_in rows) (rows_in rows) cycles.now }
        ensures { let rows = self.now.rows.now
            in IsLeast (BadRow (files_in rows) (rows_in rows) number (row entry.now)) result }
    {
        if has_definition(entry) {
            self.name_refusal(meanings, cycles, number, entry)
        } else {
            None
        }
    }

    /// The least that is wrong, the meanings being known, and those definitions being marked that
    /// lead to themselves.
    pub(crate) fn first_refusal(&self, meanings: &[Option<u32>], cycles: &[bool]) -> Option<Refusal>
        requires meant { let rows = self.now.rows.now
            in AreMeant (files_in rows) (rows_in rows) meanings.now }
        requires cycles { let rows = self.now.rows.now
            in AreDefinitionCycles (files_in rows) (rows_in rows) cycles.now }
        ensures { let rows = self.now.rows.now
            in IsLeast (BadIn (files_in rows) (rows_in rows)) result }
    {
        let mut least = None;
        for (number, entry) in self.rows.entries().iter().enumerate() {
            let fault = self.row_refusal(meanings, cycles, number, entry);
            if fault.is_some() {
                least = lesser(least, fault);
            }
        }
        least
    }
}
