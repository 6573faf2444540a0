//! The type that each type follows.
ghost use Rattle.std.specs.Prelude.{◌≡◌, ◌↔◌, ◌<◌, ℕ, [], Some, length, IfOk, slice_get, slice_index_or};
ghost use Rattle.yv_link_scopes.specs.{Rows.{row}, Views.{files_in, lent_in, rows_in}};
ghost use Rattle.yv_link_definitions.specs.Meanings.{AreNames};
ghost use Rattle.yv_base_tables.specs.Slots.{at};
ghost use Rattle.yv_type_chains.specs.{Types.{Follows, types_in}, InnerTables.{AreFollowed}};

use crate::inside::is_type;
use std::alloc::{AllocError, Global};
use yv_base_tables::Families;
use yv_link_definitions::Names;
use yv_link_scopes::{Entry, Rows};

// The first type in a block.
fn first_inside(inside: &Families, block: usize) -> Option<usize>
    ensures { result ≡ slice_get (slice_index_or inside.now block []) 0 }
{
    inside.at(block).first().copied()
}

// The type that a type follows, the types in each block being these.
fn next_type(
    rows: &Rows<'_, '_>,
    names: &Names,
    inside: &Families,
    number: usize,
    entry: &Entry<'_, '_>,
) -> Option<usize>
    requires at { slice_get (rows_in rows.now) number ≡ Some (row entry.now) }
    requires inside { (block : ℕ)
        → slice_index_or inside.now block [] ≡ types_in (rows_in rows.now) block }
    ensures exact { AreNames (lent_in rows.now) names.now
        → (j : ℕ) → (result ≡ Some j) ↔ Follows (files_in rows.now) (rows_in rows.now) number j }
    ensures within { (j : ℕ) → result ≡ Some j → j < length (rows_in rows.now) }
{
    if !is_type(entry) {
        return None;
    }
    match names.meaning(number) {
        Some(definition) => first_inside(inside, definition),
        None => None,
    }
}

/// For each type that which it follows, the types in each block being these.
pub(crate) fn all_followed(
    alloc: Global,
    rows: &Rows<'_, '_>,
    names: &Names,
    inside: &Families,
) -> Result<Vec<Option<usize>>, AllocError>
    requires { (block : ℕ)
        → slice_index_or inside.now block [] ≡ types_in (rows_in rows.now) block }
    ensures exact { IfOk result (λ follows. AreNames (lent_in rows.now) names.now
        → AreFollowed (files_in rows.now) (rows_in rows.now) follows.items) }
    ensures within { IfOk result
        (λ follows. (k j : ℕ) → at follows.items k ≡ Some j → j < length (rows_in rows.now)) }
{
    let entries = rows.entries();
    let mut follows = Vec::with_capacity(alloc, entries.len())?;
    for (number, entry) in entries.iter().enumerate() {
        follows.push(next_type(rows, names, inside, number, entry))?;
    }
    Ok(follows)
}
