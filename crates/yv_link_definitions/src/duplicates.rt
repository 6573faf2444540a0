//! Names of definitions that are already in use.
ghost use Rattle.std.specs.Prelude.{◌≡◌, ◌↔◌, ◌||◌, Some, IsTrue};
ghost use Rattle.yv_link_scopes.specs.{Rows.{row}, Views.{rows_in}, declared.kind.NameKind.TheVariants.{Typedef}};
ghost use Rattle.yv_link_definitions.specs.{Duplicates.{IsTaken, kind_defined, is_scoped}, InnerDuplicates.{HasAround, HasBefore}};

use crate::built_in::is_built_in;
use crate::draft::Draft;
use yv_link_scopes::{Entry, NameKind, name_of};
use yv_text_statement::Keyword;

// What a statement defines.
fn kind_defined(entry: &Entry<'_, '_>) -> Option<NameKind>
    ensures { result ≡ kind_defined (row entry.now) }
{
    match entry.kind() {
        Keyword::Feature => Some(NameKind::Feature),
        Keyword::Identity => Some(NameKind::Identity),
        Keyword::Extension => Some(NameKind::Extension),
        Keyword::Typedef => Some(NameKind::Typedef),
        Keyword::Grouping => Some(NameKind::Grouping),
        _ => None,
    }
}

// Whether definitions of the kind may be in inner blocks.
fn is_scoped(kind: NameKind) -> bool
    ensures { result ≡ is_scoped kind }
{
    match kind {
        NameKind::Typedef | NameKind::Grouping => true,
        _ => false,
    }
}

// Whether the kind is that of typedefs.
fn is_typedef(kind: NameKind) -> bool
    ensures { IsTrue result ↔ (kind ≡ Typedef) }
{
    match kind {
        NameKind::Typedef => true,
        _ => false,
    }
}

// Whether one of three holds.
fn any(first: bool, second: bool, third: bool) -> bool
    ensures { result ≡ (first || (second || third)) }
{
    first || second || third
}

impl<'a, 'b> Draft<'_, 'a, 'b> {
    // Whether an earlier definition of the kind has the name in the block of this one.
    fn has_before(&self, kind: NameKind, number: usize, entry: &Entry<'a, 'b>) -> bool
        requires { kind_defined (row entry.now) ≡ Some kind }
        ensures { IsTrue result
            ↔ HasBefore kind (rows_in self.now.rows.now) number (row entry.now) }
    {
        let places = self.places(kind);
        match places.get(entry.scope, name_of(entry.statement)) {
            Some(first) => first < number,
            None => false,
        }
    }

    // Whether a definition of the kind has the name in a block around that of this one.
    fn has_around(&self, kind: NameKind, entry: &Entry<'a, 'b>) -> bool
        requires { kind_defined (row entry.now) ≡ Some kind }
        ensures { IsTrue result ↔ HasAround kind (rows_in self.now.rows.now) (row entry.now) }
    {
        yv_link_scopes::laws::blocks_are_nested();
        let Some(block) = self.rows.entries().get(entry.scope) else {
            return false;
        };
        if block.scope == entry.scope {
            return false;
        }
        let places = self.places(kind);
        let found = self
            .rows
            .meaning_in(places, block.scope, name_of(entry.statement));
        found.is_some()
    }

    /// Whether a definition's name is already in use.
    pub(crate) fn is_taken(&self, number: usize, entry: &Entry<'a, 'b>) -> bool
        ensures { IsTrue result ↔ IsTaken (rows_in self.now.rows.now) number (row entry.now) }
    {
        let Some(kind) = kind_defined(entry) else {
            return false;
        };
        let before = self.has_before(kind, number, entry);
        let around = is_scoped(kind) && self.has_around(kind, entry);
        let built_in = is_typedef(kind) && is_built_in(name_of(entry.statement));
        any(before, around, built_in)
    }
}
