//! What a type says as a leafref.
ghost use Rattle.std.specs.{Prelude.{◌≡◌, ◌↔◌, slice_get, IsTrue}, Option.{option_map}};
ghost use Rattle.yv_link_scopes.specs.{Rows.{row}, Views.{lent_in, rows_in}};
ghost use Rattle.yv_type_chains.specs.{Bases.{AreBases}, Types.{is_leafref}};
ghost use Rattle.yv_types.specs.{InnerLeafrefTables.{AreFound}, Referrals.{FollowsIn, HasReferral, IsLeafrefAt, derived_at, own_at}};

use crate::leafref_path::TypeLeafref;
use crate::require_instance::required_at;
use yv_base_tables::slots;
use yv_link_scopes::{Entry, Rows, name_of};
use yv_text_statement::Keyword;
use yv_type_chains::Bases;

// Whether a statement is `type leafref`.
fn is_leafref(entry: &Entry<'_, '_>) -> bool
    ensures { result ≡ is_leafref (row entry.now) }
{
    entry.is(Keyword::Type) && name_of(entry.statement) == "leafref"
}

// The numbered statement, as it is listed.
fn entry_at<'r, 'a, 'b>(rows: &'r Rows<'a, 'b>, number: usize) -> Option<&'r Entry<'a, 'b>>
    ensures { option_map (λ entry. row entry.now) result ≡ slice_get (rows_in rows.now) number }
{
    rows.entries().get(number)
}

// Whether the numbered statement is.
fn is_leafref_at(rows: &Rows<'_, '_>, number: usize) -> bool
    ensures { IsTrue result ↔ IsLeafrefAt (lent_in rows.now) number }
{
    match entry_at(rows, number) {
        Some(entry) => is_leafref(entry),
        None => false,
    }
}

// What the numbered type says, naming leafref itself. An instance is required where it says nothing
// of that.
fn own_at(rows: &Rows<'_, '_>, number: usize) -> TypeLeafref
    ensures { result ≡ own_at (lent_in rows.now) number }
{
    TypeLeafref {
        origin: number,
        is_required: required_at(rows, number).unwrap_or(true),
    }
}

// What the numbered type says, being derived from one that says this.
fn derived_at(rows: &Rows<'_, '_>, number: usize, base: TypeLeafref) -> TypeLeafref
    ensures { result ≡ derived_at (lent_in rows.now) number base }
{
    TypeLeafref {
        origin: base.origin,
        is_required: required_at(rows, number).unwrap_or(base.is_required),
    }
}

/// What the numbered type says as a leafref, the table having what the type says that it follows.
pub(crate) fn found_at(
    rows: &Rows<'_, '_>,
    bases: &Bases,
    found: &[Option<TypeLeafref>],
    number: usize,
) -> Option<TypeLeafref>
    ensures { AreBases (lent_in rows.now) bases.now
        → AreFound (lent_in rows.now) (FollowsIn (lent_in rows.now) number) found.now
        → HasReferral (lent_in rows.now) number result }
{
    if is_leafref_at(rows, number) {
        return Some(own_at(rows, number));
    }
    let followed = bases.follows(number)?;
    let base = slots::get(found, followed)?;
    Some(derived_at(rows, number, base))
}
