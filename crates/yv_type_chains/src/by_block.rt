//! The types in each block, as one list.
ghost use Rattle.std.specs.Prelude.{◌≡◌, ℕ, [], IfOk, slice_index_or};
ghost use Rattle.yv_link_scopes.specs.{Rows.{row}, Views.{rows_in}};
ghost use Rattle.yv_type_chains.specs.{Types.{types_in}, InnerBlocks.{block_of, blocks_from}};

use crate::inside::is_inner;
use std::alloc::{AllocError, Global};
use yv_base_tables::Families;
use yv_link_scopes::{Entry, Rows};

// The block of a statement that is a type in one.
fn block_of(number: usize, entry: &Entry<'_, '_>) -> Option<usize>
    ensures { result ≡ block_of number (row entry.now) }
{
    if is_inner(number, entry) {
        Some(entry.scope)
    } else {
        None
    }
}

// The same of each statement.
fn blocks(alloc: Global, rows: &Rows<'_, '_>) -> Result<Vec<Option<usize>>, AllocError>
    ensures { IfOk result (λ blocks. blocks.items ≡ blocks_from 0 (rows_in rows.now)) }
{
    let entries = rows.entries();
    let mut blocks = Vec::with_capacity(alloc, entries.len())?;
    for (number, entry) in entries.iter().enumerate() {
        blocks.push(block_of(number, entry))?;
    }
    Ok(blocks)
}

/// For each block the numbers of the types in it, in order, in memory and time linear in
/// statements.
pub fn types_by_block(alloc: Global, rows: &Rows<'_, '_>) -> Result<Families, AllocError>
    ensures { IfOk result (λ types. (block : ℕ) → slice_index_or types block []
        ≡ types_in (rows_in rows.now) block) }
{
    yv_base_tables::laws::each_place_has_its_numbers();
    let blocks = blocks(alloc, rows)?;
    let types = Families::new(alloc, &blocks, blocks.len())?;
    Ok(types)
}
