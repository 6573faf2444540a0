//! What types and uses mean.
ghost use Rattle.std.specs.Prelude.{◌≡◌, ◌↔◌, ℕ, Some, None, true, IsTrue, slice_get};
ghost use Rattle.yv_link_scopes.specs.{Rows.{row, name_in}, Scopes.{MeansIn}, Views.{files_in, rows_in}, declared.kind.NameKind.{NameKind}};
ghost use Rattle.yv_link_definitions.specs.{Refers.{IsUnknown, RefersTo, is_type, is_uses, names_definition}, InnerAnswers.{AreMeant, meant_at}};

use crate::built_in::is_built_in;
use crate::draft::Draft;
use yv_link_scopes::{Entry, NameKind, name_of};
use yv_text_statement::Keyword;

/// Whether a statement is a type.
pub(crate) fn is_type(entry: &Entry<'_, '_>) -> bool
    ensures { result ≡ is_type (row entry.now) }
{
    entry.is(Keyword::Type)
}

// Whether a statement is a uses.
fn is_uses(entry: &Entry<'_, '_>) -> bool
    ensures { result ≡ is_uses (row entry.now) }
{
    entry.is(Keyword::Uses)
}

// Whether a statement names a definition of the kind.
fn names_definition(kind: NameKind, entry: &Entry<'_, '_>) -> bool
    ensures { result ≡ names_definition kind (row entry.now) }
{
    match kind {
        NameKind::Typedef => is_type(entry) && !is_built_in(name_of(entry.statement)),
        NameKind::Grouping => is_uses(entry),
        _ => false,
    }
}

/// Of which kind the definition is that a statement names.
fn named_kind(entry: &Entry<'_, '_>) -> Option<NameKind>
    ensures { (kind : NameKind)
        → (result ≡ Some kind) ↔ (names_definition kind (row entry.now) ≡ true) }
{
    if names_definition(NameKind::Typedef, entry) {
        Some(NameKind::Typedef)
    } else if names_definition(NameKind::Grouping, entry) {
        Some(NameKind::Grouping)
    } else {
        None
    }
}

/// Of which kind the definition is that a statement means, if it means one.
pub(crate) fn meant_kind(entry: &Entry<'_, '_>) -> NameKind
    ensures { (kind : NameKind) → names_definition kind (row entry.now) ≡ true → result ≡ kind }
{
    if is_type(entry) {
        NameKind::Typedef
    } else {
        NameKind::Grouping
    }
}

/// The number of the definition that a numbered statement means.
pub(crate) fn meant_at(meanings: &[Option<u32>], number: usize) -> Option<usize>
    ensures { result ≡ meant_at meanings.now number }
{
    let meant = (*meanings.get(number)?)?;
    Some(meant as usize)
}

impl<'a, 'b> Draft<'_, 'a, 'b> {
    // The number of the definition of the kind that a statement names.
    fn definition(&self, kind: NameKind, number: usize, entry: &Entry<'a, 'b>) -> Option<usize>
        requires { names_definition kind (row entry.now) ≡ true }
        ensures { let rows = self.now.rows.now
            in MeansIn (files_in rows) (rows_in rows) kind number (name_in (row entry.now)) result }
    {
        let name = name_of(entry.statement);
        match kind {
            NameKind::Typedef => self.rows.meaning(&self.typedefs, number, name),
            NameKind::Grouping => self.rows.meaning(&self.groupings, number, name),
            _ => None,
        }
    }

    /// Whether a statement names a definition of the kind that doesn't exist.
    pub(crate) fn is_unknown(
        &self,
        kind: NameKind,
        meanings: &[Option<u32>],
        number: usize,
        entry: &Entry<'a, 'b>,
    ) -> bool
        requires at { slice_get (rows_in self.now.rows.now) number ≡ Some (row entry.now) }
        requires meant { let rows = self.now.rows.now
            in AreMeant (files_in rows) (rows_in rows) meanings.now }
        ensures { let rows = self.now.rows.now
            in IsTrue result
            ↔ IsUnknown (files_in rows) (rows_in rows) kind number (row entry.now) }
    {
        yv_link_scopes::laws::a_name_means_one_thing();
        yv_link_scopes::laws::a_name_means_something_or_nothing();
        let meant = meant_at(meanings, number);
        meant.is_none() && names_definition(kind, entry)
    }

    /// The number of the definition that a type or a uses means.
    pub(crate) fn meaning(&self, number: usize, entry: &Entry<'a, 'b>) -> Option<usize>
        requires { slice_get (rows_in self.now.rows.now) number ≡ Some (row entry.now) }
        ensures { let rows = self.now.rows.now
            in (d : ℕ) → (result ≡ Some d) ↔ RefersTo (files_in rows) (rows_in rows) number d }
    {
        yv_link_scopes::laws::a_name_means_one_thing();
        match named_kind(entry) {
            Some(kind) => self.definition(kind, number, entry),
            None => None,
        }
    }
}
