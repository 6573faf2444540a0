//! What each statement takes.
ghost use Rattle.std.specs.{Prelude.{◌≡◌, ◌<◌, length, slice_index_or, IfOk}, List.{All}};
ghost use Rattle.yv_link_scopes.specs.{Files.{Briefs}, Views.{rows_in}};
ghost use Rattle.yv_base_graph.specs.Graph.{IsOrder};
ghost use Rattle.yv_expand.specs.{InnerLists.{sum_at}, InnerSteps.{AreSteps, AreSettled}};
ghost use Rattle.yv_expand_statements.specs.Units.{saturate};

use crate::unit_keywords::own_units;
use std::alloc::{AllocError, Global};
use yv_link_scopes::Rows;

/// The value of a number; 0 past the last.
pub(crate) fn value(values: &[u64], number: usize) -> u64
    ensures { result ≡ slice_index_or values.now number 0 }
{
    values.get(number).copied().unwrap_or(0)
}

/// The sum of the values of these numbers.
pub(crate) fn sum(values: &[u64], numbers: &[usize]) -> u64
    ensures { result ≡ saturate (sum_at values.now numbers.now) }
{
    let mut total: u64 = 0;
    for number in numbers {
        total = total.saturating_add(value(values, *number));
    }
    total
}

/// What each statement takes, in an order in which each comes after all whose units it takes.
pub(crate) fn values(
    alloc: Global,
    rows: &Rows<'_, '_>,
    steps: &[Vec<usize>],
    order: &[usize],
) -> Result<Vec<u64>, AllocError>
    requires each { length steps.now ≡ length (rows_in rows.now) }
    requires within { All (λ a. a < length steps.now) order.now }
    ensures { (files : Briefs) → AreSteps files (rows_in rows.now) steps.now
        → IsOrder steps.now order.now
        → IfOk result (λ values. AreSettled files (rows_in rows.now) values.items) }
{
    let entries = rows.entries();
    let mut values = vec![in alloc; 0; entries.len()]?;
    for number in order {
        let inner = sum(&values, &steps[*number]);
        let own = own_units(&entries[*number]).unwrap_or(0);
        values[*number] = inner.saturating_add(own);
    }
    Ok(values)
}
