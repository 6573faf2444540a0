//! References to definitions, and where statements are.
ghost use Rattle.std.specs.Prelude.{◌≡◌, ◌+◌, ◌<◌, ℕ, List, take, Some, OnOk, IfSome, slice_get};
ghost use Rattle.yv_text_statement.specs.Keywords.{spelling};
ghost use Rattle.yv_link_scopes.specs.{Rows.{Row, row}};
ghost use Rattle.yv_link_definitions.specs.{References.{number_at, ref_of}, Places.{placed_in}, InnerPlaces.{ReferToFirst, is_definition}};

use crate::draft::is_of;
use crate::place::Place;
use crate::place_list::PlaceList;
use std::alloc::AllocError;
use std::collections::BTreeMap;
use yv_link_scopes::{Entry, NameKind};
use yv_text_statement::Keyword;

/// A reference (ref) to a definition (def), a typedef or a grouping, by its statement's file and
/// offset.
#[derive(Clone, Copy, Debug, PartialEq, Eq)]
pub struct DefRef {
    pub file: u32,
    pub offset: u64,
}

// The reference to a statement.
fn reference(entry: &Entry<'_, '_>) -> DefRef
    ensures { result ≡ ref_of (row entry.now) }
{
    DefRef {
        file: entry.file,
        offset: entry.statement.offset(),
    }
}

// Where a statement of a number is.
fn place_of(number: usize, entry: &Entry<'_, '_>) -> Place
    requires { number < 4294967296 }
    ensures { let r = row entry.now
        in result ≡ record { file = r.file; number = number; offset = r.head.offset } }
{
    Place {
        file: entry.file,
        number: number as u32,
        offset: entry.statement.offset(),
    }
}

/// Keeps the place of the next statement, where it has the keyword.
pub(crate) fn add_place(
    list: &mut PlaceList,
    keyword: Keyword,
    number: usize,
    entry: &Entry<'_, '_>,
) -> Result<(), AllocError>
    requires { number < 4294967296 }
    ensures { IfSome (spelling keyword) (λ word. (rows : List Row)
        → slice_get rows number ≡ Some (row entry.now)
        → ((f o : ℕ) → placed_in list.old f o ≡ number_at (take number rows) word f o)
        → OnOk result ((f o : ℕ)
        → placed_in list.new f o ≡ number_at (take (number + 1) rows) word f o)) }
{
    if entry.is(keyword) {
        list.add(place_of(number, entry))?;
    }
    Ok(())
}

// Whether a statement is a typedef or a grouping.
fn is_definition(entry: &Entry<'_, '_>) -> bool
    ensures { result ≡ is_definition (row entry.now) }
{
    is_of(NameKind::Typedef, entry) || is_of(NameKind::Grouping, entry)
}

/// Keeps the reference to the next statement, where it is a definition.
pub(crate) fn add_definition(
    definitions: &mut BTreeMap<usize, DefRef>,
    number: usize,
    entry: &Entry<'_, '_>,
) -> Result<(), AllocError>
    ensures { (rows : List Row) → slice_get rows number ≡ Some (row entry.now)
        → ReferToFirst rows number definitions.old
        → OnOk result (ReferToFirst rows (number + 1) definitions.new) }
{
    if is_definition(entry) {
        definitions.insert(number, reference(entry))?;
    }
    Ok(())
}
