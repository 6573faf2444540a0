//! The expansion of files.
ghost use Rattle.std.specs.Prelude.{◌≡◌, ◌≢◌, ◌<◌, ℕ, All, length, slice_get, None, Some, Err, IfOk, OnOk};
ghost use Rattle.yv_text_statement.specs.{Order.{IsLeast}, declared.refusal.Refusal.{Refusal}, declared.refusal.Stop.TheVariants.{Fault, PatternBuild}};
ghost use Rattle.yv_link_scopes.specs.Views.{files_in, lent_in, rows_in};
ghost use Rattle.yv_link_definitions.specs.Meanings.{AreNames};
ghost use Rattle.yv_expand.specs.Expansion.{IsWhole};
ghost use Rattle.yv_expand_statements.specs.{Limit.{Fits, TooMany}, StatementBlocks.{augments_of}};

use crate::blocks::Blocks;
use crate::expansion::Expansion;
use crate::file_expansion::FileExpansion;
use crate::items::add_items;
use crate::limit::too_many;
use crate::lists::{WantedStatements, firsts, firsts_in, of_files};
use std::alloc::{AllocError, Global};
use yv_expand_statements::Origin;
use yv_link_definitions::Names;
use yv_link_scopes::Rows;
use yv_text_statement::Stop;

// The expansion of files whose units are within the limit.
fn within(
    alloc: Global,
    rows: &Rows<'_, '_>,
    names: &Names,
    given: &[bool],
    order: &[usize],
    limit: u32,
) -> Result<FileExpansion, AllocError>
    requires within { All (λ file. file < length (files_in rows.now)) order.now }
    requires once { (i k n : ℕ) → slice_get order.now i ≡ Some n → slice_get order.now k ≡ Some n
        → i ≡ k }
    requires names { AreNames (lent_in rows.now) names.now }
    requires fits { Fits (lent_in rows.now) given.now limit }
    ensures limit { IfOk result (λ e. e.expansion.limit ≡ limit) }
    ensures augments { IfOk result
        (λ e. e.augments.items ≡ augments_of (files_in rows.now) (rows_in rows.now) given.now) }
    ensures expands { IfOk result
        (λ e. IsWhole (lent_in rows.now) given.now order.now e.own e.expansion.items) }
{
    yv_link_scopes::laws::a_name_means_one_thing();
    crate::expansion_laws::a_tree_is_listed_whole::<Origin>();
    crate::expansion_laws::trees_are_listed_in_order::<Origin>();
    let blocks = Blocks::read(alloc, rows)?;
    let tops = of_files(alloc, rows, WantedStatements::Items)?;
    let applied = of_files(alloc, rows, WantedStatements::Augments)?;
    let mut expansion = Expansion::new(alloc, limit);
    let mut stack = Vec::new(alloc);
    let own_firsts = firsts_in(alloc, &tops, given, order)?;
    add_items(
        rows,
        names,
        &blocks,
        &own_firsts,
        &mut stack,
        &mut expansion,
    )?;
    let own = expansion.len();
    let augments = firsts(alloc, &applied, given)?;
    let added = blocks.items_given(alloc, &augments)?;
    add_items(rows, names, &blocks, &added, &mut stack, &mut expansion)?;
    Ok(FileExpansion {
        expansion,
        own,
        augments,
    })
}

/// The expansion of the files of an order that are marked as given, one file after the other in
/// this order and each item before those below it (RFC 7950, sections 7.12 and 7.13), and after it
/// what the augments at the tops of all files that are given give, by file and statement (section
/// 7.17), or, where the units of these pass the limit, the refusal of the first file by number with
/// which they do. A file without a mark isn't given. An expansion has no more items than units,
/// since the order lists no file twice.
pub fn expand(
    alloc: Global,
    rows: &Rows<'_, '_>,
    names: &Names,
    given: &[bool],
    order: &[usize],
    limit: u32,
) -> Result<FileExpansion, Stop>
    // The order names files that are there.
    requires within { All (λ file. file < length (files_in rows.now)) order.now }
    // It names each once.
    requires once { (i k n : ℕ) → slice_get order.now i ≡ Some n → slice_get order.now k ≡ Some n
        → i ≡ k }
    // The names are those of these files.
    requires names { AreNames (lent_in rows.now) names.now }
    // The items are those of the expansion of the files marked as given, file by file in this
    // order, `own` of them from the files' own trees, followed by one tree for each augment at the
    // top of such a file, by file and statement.
    ensures expands { AreNames (lent_in rows.now) names.now
        → IfOk result
        (λ e. IsWhole (lent_in rows.now) given.now order.now e.own e.expansion.items) }
    // `augments` are those at the tops of the given files, by file and statement.
    ensures augments { IfOk result
        (λ e. e.augments.items ≡ augments_of (files_in rows.now) (rows_in rows.now) given.now) }
    // The limit is this one.
    ensures limit { IfOk result (λ e. e.expansion.limit ≡ limit) }
    // An expansion is returned only if the units of the given files fit the limit.
    ensures fits { AreNames (lent_in rows.now) names.now
        → OnOk result (IsLeast (TooMany (lent_in rows.now) given.now limit) None) }
    // A refusal is the least `TooManyNodes`.
    ensures refusal { AreNames (lent_in rows.now) names.now
        → (r : Refusal) → result ≡ Err (Fault r)
        → IsLeast (TooMany (lent_in rows.now) given.now limit) (Some r) }
    // `PatternBuild` is never returned.
    ensures builds { result ≢ Err PatternBuild }
{
    if let Some(refusal) = too_many(alloc, rows, names, given, limit)? {
        return Err(Stop::Fault(refusal));
    }
    Ok(within(alloc, rows, names, given, order, limit)?)
}
