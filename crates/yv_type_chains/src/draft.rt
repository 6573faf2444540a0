//! The types of files and what each follows, before these are looked at.
ghost use Rattle.std.specs.Prelude.{◌≡◌, ◌<◌, ℕ, [], Some, length, IfOk, slice_index_or};
ghost use Rattle.yv_link_scopes.specs.Views.{files_in, lent_in, rows_in};
ghost use Rattle.yv_link_definitions.specs.Meanings.{AreNames};
ghost use Rattle.yv_base_tables.specs.Slots.{at};
ghost use Rattle.yv_type_chains.specs.{Types.{types_in}, InnerTables.{AreFollowed}};

use crate::by_block::types_by_block;
use crate::follows::all_followed;
use std::alloc::{AllocError, Global};
use yv_base_tables::Families;
use yv_link_definitions::Names;
use yv_link_scopes::Rows;

/// The statements, the types in each block, and for each type that which it follows.
#[derive(Drop)]
pub(crate) struct Draft<'r, 'a, 'b> {
    pub rows: &'r Rows<'a, 'b>,
    pub inside: Families,
    pub follows: Vec<Option<usize>>,
    ghost listed: { (block : ℕ) → slice_index_or inside block [] ≡ types_in (rows_in rows.now) block },
    ghost within: { (k j : ℕ) → at follows.items k ≡ Some j → j < length (rows_in rows.now) },
}

impl<'r, 'a, 'b> Draft<'r, 'a, 'b> {
    /// Reads the types of these statements, with these names.
    pub(crate) fn read(
        alloc: Global,
        rows: &'r Rows<'a, 'b>,
        names: &Names,
    ) -> Result<Draft<'r, 'a, 'b>, AllocError>
        ensures rows { IfOk result (λ draft. draft.rows.now ≡ rows.now) }
        ensures follows { IfOk result (λ draft. AreNames (lent_in rows.now) names.now
            → AreFollowed (files_in rows.now) (rows_in rows.now) draft.follows.items) }
    {
        let inside = types_by_block(alloc, rows)?;
        let follows = all_followed(alloc, rows, names, &inside)?;
        Ok(Draft {
            rows,
            inside,
            follows,
        })
    }
}
