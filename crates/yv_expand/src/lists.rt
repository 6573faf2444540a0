//! Statements by the block or by the file that contains them.
ghost use Rattle.std.specs.{Prelude.{◌≡◌, false, length, if◌then◌else◌, slice_index_or, IfOk}, List.{flat_map}};
ghost use Rattle.yv_link_scopes.specs.{Rows.{row}, Views.{files_in, rows_in}};
ghost use Rattle.yv_expand.specs.InnerItems.{AreEmpty, ArePlaced, block_place, is_wanted, top_place, numbers_at, top_at, tops_before};

use crate::own::is_node_or_uses;
use crate::unit_keywords::own_units;
use std::alloc::{AllocError, Global};
use yv_link_scopes::{Entry, Rows};
use yv_text_statement::Keyword;

// So many empty lists.
fn no_lists(alloc: Global, count: usize) -> Result<Vec<Vec<usize>>, AllocError>
    ensures { IfOk result (λ lists. (length lists.items ≡ count) × AreEmpty lists.items) }
{
    let mut lists = Vec::with_capacity(alloc, count)?;
    for _ in 0..count {
        lists.push(Vec::new(alloc))?;
    }
    Ok(lists)
}

/// Which statements are listed.
#[derive(Clone, Copy)]
pub(crate) enum WantedStatements {
    /// Those that are items.
    Items,
    Inputs,
    Outputs,
    Augments,
    /// Those that count units by themselves, or contain such.
    Counted,
}

// Whether a statement is one of those that are wanted.
#[inline(always)]
fn is_wanted(wanted: WantedStatements, entry: &Entry<'_, '_>) -> bool
    ensures { result ≡ is_wanted wanted (row entry.now) }
{
    match wanted {
        WantedStatements::Items => is_node_or_uses(entry),
        WantedStatements::Inputs => entry.is(Keyword::Input),
        WantedStatements::Outputs => entry.is(Keyword::Output),
        WantedStatements::Augments => entry.is(Keyword::Augment),
        WantedStatements::Counted => own_units(entry).is_some(),
    }
}

// The block in which a wanted statement is.
#[inline(always)]
fn block_place(wanted: WantedStatements, number: usize, entry: &Entry<'_, '_>) -> Option<usize>
    ensures { result ≡ block_place (is_wanted wanted) number (row entry.now) }
{
    if is_wanted(wanted, entry) && entry.scope != number {
        Some(entry.scope)
    } else {
        None
    }
}

// The file at whose top a wanted statement is.
#[inline(always)]
fn top_place(
    rows: &Rows<'_, '_>,
    wanted: WantedStatements,
    number: usize,
    entry: &Entry<'_, '_>,
) -> Option<usize>
    ensures { result
        ≡ top_place (is_wanted wanted) (files_in rows.now) number (row entry.now) }
{
    let file = entry.file as usize;
    if is_wanted(wanted, entry) && entry.scope == rows.module_file(file) && entry.scope != number {
        Some(file)
    } else {
        None
    }
}

/// For each statement those in its block that are wanted.
pub(crate) fn of_blocks(
    alloc: Global,
    rows: &Rows<'_, '_>,
    wanted: WantedStatements,
) -> Result<Vec<Vec<usize>>, AllocError>
    ensures { IfOk result
        (λ lists. ArePlaced (block_place (is_wanted wanted)) (rows_in rows.now)
        (length (rows_in rows.now)) lists.items) }
{
    yv_link_scopes::laws::blocks_are_nested();
    let entries = rows.entries();
    let mut lists = no_lists(alloc, entries.len())?;
    for (number, entry) in entries.iter().enumerate() {
        if let Some(place) = block_place(wanted, number, entry) {
            lists[place].push(number)?;
        }
    }
    Ok(lists)
}

/// For each file those at its top that are wanted.
pub(crate) fn of_files(
    alloc: Global,
    rows: &Rows<'_, '_>,
    wanted: WantedStatements,
) -> Result<Vec<Vec<usize>>, AllocError>
    ensures { IfOk result
        (λ lists. ArePlaced (top_place (is_wanted wanted) (files_in rows.now)) (rows_in rows.now)
        (length (files_in rows.now)) lists.items) }
{
    yv_link_scopes::laws::roots_come_first();
    let mut lists = no_lists(alloc, rows.files().len())?;
    for (number, entry) in rows.entries().iter().enumerate() {
        if let Some(place) = top_place(rows, wanted, number, entry) {
            lists[place].push(number)?;
        }
    }
    Ok(lists)
}

/// Those of the list of a number; none past the last.
pub(crate) fn numbers_at(lists: &[Vec<usize>], number: usize) -> &[usize]
    ensures { result.now ≡ numbers_at lists.now number }
{
    match lists.get(number) {
        Some(numbers) => numbers,
        None => &[],
    }
}

// The statements at the top of a file that were listed, if it is given.
fn top_at<'a>(tops: &'a [Vec<usize>], given: &[bool], file: usize) -> &'a [usize]
    ensures { result.now ≡ top_at tops.now given.now file }
{
    if given.get(file).copied().unwrap_or(false) {
        numbers_at(tops, file)
    } else {
        &[]
    }
}

/// Those at the tops of all files that are given, in their order.
pub(crate) fn firsts(
    alloc: Global,
    tops: &[Vec<usize>],
    given: &[bool],
) -> Result<Vec<usize>, AllocError>
    ensures { IfOk result
        (λ firsts. firsts.items ≡ tops_before tops.now given.now (length tops.now)) }
{
    let mut firsts = Vec::new(alloc);
    for file in 0..tops.len() {
        firsts.extend_from_slice(top_at(tops, given, file))?;
    }
    Ok(firsts)
}

/// Those at the tops of the files of an order that are given, one file after the other.
pub(crate) fn firsts_in(
    alloc: Global,
    tops: &[Vec<usize>],
    given: &[bool],
    order: &[usize],
) -> Result<Vec<usize>, AllocError>
    ensures { IfOk result
        (λ firsts. firsts.items ≡ flat_map (top_at tops.now given.now) order.now) }
{
    let mut firsts = Vec::new(alloc);
    for file in order {
        firsts.extend_from_slice(top_at(tops, given, *file))?;
    }
    Ok(firsts)
}
