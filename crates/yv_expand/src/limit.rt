//! Where the units of files pass the limit.
ghost use Rattle.std.specs.Prelude.{◌≡◌, ◌≤◌, ◌<◌, ◌↔◌, IsTrue, false, if◌then◌else◌, slice_get, slice_index_or, length, IfOk, IfNone};
ghost use Rattle.yv_text_statement.specs.Order.{IsLeast};
ghost use Rattle.yv_link_scopes.specs.Views.{lent_in, files_in, rows_in};
ghost use Rattle.yv_link_definitions.specs.Meanings.{AreNames};
ghost use Rattle.yv_expand.specs.{InnerLists.{ArePlaced, top_place, top_sum}, InnerSteps.{AreSettled}};
ghost use Rattle.yv_expand_statements.specs.Limit.{Fits, TooMany};

use crate::lists::{WantedStatements, of_files};
use crate::values::sum;
use crate::weights::weigh_statements;
use std::alloc::{AllocError, Global};
use yv_link_definitions::Names;
use yv_link_scopes::Rows;
use yv_text_statement::{Code, Refusal, lesser, refusal_if};

// The units of a file, or none where it isn't given.
fn file_units(values: &[u64], tops: &[Vec<usize>], given: &[bool], file: usize) -> u64
    ensures { result
        ≡ (if slice_index_or given.now file false then top_sum values.now (slice_get tops.now file)
        else 0) }
{
    if !given.get(file).copied().unwrap_or(false) {
        return 0;
    }
    match tops.get(file) {
        Some(top) => sum(values, top),
        None => 0,
    }
}

// Whether the limit is passed between the two.
fn is_passed(before: u64, after: u64, limit: u32) -> bool
    ensures { IsTrue result ↔ ((before ≤ limit) × (limit < after)) }
{
    let most = limit as u64;
    before <= most && most < after
}

// The refusal of the first file with which the units of those that are given pass the limit.
fn first_past(
    rows: &Rows<'_, '_>,
    values: &[u64],
    tops: &[Vec<usize>],
    given: &[bool],
    limit: u32,
) -> Option<Refusal>
    requires { ArePlaced (top_place (files_in rows.now)) (rows_in rows.now)
        (length (files_in rows.now)) tops.now }
    ensures refusal { AreSettled (files_in rows.now) (rows_in rows.now) values.now
        → IsLeast (TooMany (lent_in rows.now) given.now limit) result }
    ensures fits { AreSettled (files_in rows.now) (rows_in rows.now) values.now
        → IfNone result (Fits (lent_in rows.now) given.now limit) }
{
    crate::unit_laws::units_are_one();
    let mut least = None;
    let mut total: u64 = 0;
    for (number, file) in rows.files().iter().enumerate() {
        let before = total;
        total = before.saturating_add(file_units(values, tops, given, number));
        let passed = is_passed(before, total, limit);
        let fault = refusal_if(passed, Code::TooManyNodes, number as u32, file.root);
        least = lesser(least, fault);
    }
    least
}

/// The refusal of the first file with which the units of files pass the limit, at its root (RFC
/// 7950, sections 7.12 and 7.13): those of the files that are marked as given, in their order. A
/// file without a mark isn't given. A node counts one, an rpc or an action three with its input and
/// output, and a uses one and besides once more what is in its grouping. Takes time linear in
/// statements, also where the units are too many to be reported.
pub fn too_many(
    alloc: Global,
    rows: &Rows<'_, '_>,
    names: &Names,
    given: &[bool],
    limit: u32,
) -> Result<Option<Refusal>, AllocError>
    // The least `TooManyNodes`: at the root of the file at which the units of the files marked as
    // given pass the limit.
    ensures refusal { AreNames (lent_in rows.now) names.now
        → IfOk result (IsLeast (TooMany (lent_in rows.now) given.now limit)) }
    // None is returned only if they don't pass it.
    ensures fits { AreNames (lent_in rows.now) names.now
        → IfOk result (λ found. IfNone found (Fits (lent_in rows.now) given.now limit)) }
{
    let values = weigh_statements(alloc, rows, names)?;
    let tops = of_files(alloc, rows, WantedStatements::Counted)?;
    Ok(first_past(rows, &values, &tops, given, limit))
}
