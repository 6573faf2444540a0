//! From each statement to those whose units it takes.
ghost use Rattle.std.specs.{Prelude.{◌≡◌, ◌↔◌, ◌<◌, ℕ, Some, length, slice_get, IfOk, IfSome}, List.{All}};
ghost use Rattle.yv_link_scopes.specs.{Rows.{row}, Views.{lent_in, files_in, rows_in}};
ghost use Rattle.yv_base_graph.specs.Graph.{IsGraph, IsOrder, HasNoCycle};
ghost use Rattle.yv_link_definitions.specs.Meanings.{AreNames};
ghost use Rattle.yv_expand.specs.InnerSteps.{IsUsed, AreSteps};

use crate::lists::{WantedStatements, of_blocks};
use crate::unit_keywords::own_units;
use std::alloc::{AllocError, Global};
use yv_base_graph::{Ranking, rank};
use yv_link_definitions::Names;
use yv_link_scopes::{Entry, Rows};

// The grouping that a statement uses.
fn grouping_of<'a, 'b>(
    rows: &Rows<'a, 'b>,
    names: &Names,
    number: usize,
    entry: &Entry<'a, 'b>,
) -> Option<usize>
    requires { slice_get (rows_in rows.now) number ≡ Some (row entry.now) }
    ensures within { IfSome result (λ d. d < length (rows_in rows.now)) }
    ensures uses { AreNames (lent_in rows.now) names.now
        → (d : ℕ) → (result ≡ Some d) ↔ IsUsed (files_in rows.now) (rows_in rows.now) number d }
{
    own_units(entry)?;
    let meant = names.meaning(number)?;
    if meant < rows.entries().len() {
        Some(meant)
    } else {
        None
    }
}

/// For each statement those in its block that count, and the grouping that it uses.
pub(crate) fn steps(
    alloc: Global,
    rows: &Rows<'_, '_>,
    names: &Names,
) -> Result<Vec<Vec<usize>>, AllocError>
    ensures each { IfOk result (λ steps. length steps.items ≡ length (rows_in rows.now)) }
    ensures graph { IfOk result (λ steps. IsGraph steps.items) }
    ensures steps { AreNames (lent_in rows.now) names.now
        → IfOk result (λ steps. AreSteps (files_in rows.now) (rows_in rows.now) steps.items) }
{
    let mut steps = of_blocks(alloc, rows, WantedStatements::Counted)?;
    for (number, entry) in rows.entries().iter().enumerate() {
        if let Some(meant) = grouping_of(rows, names, number, entry) {
            steps[number].push(meant)?;
        }
    }
    Ok(steps)
}

/// All statements, each after all to which it leads; none where one leads to itself.
pub(crate) fn order(alloc: Global, steps: &[Vec<usize>]) -> Result<Vec<usize>, AllocError>
    requires { IsGraph steps.now }
    ensures within { IfOk result (λ order. All (λ a. a < length steps.now) order.items) }
    ensures order { HasNoCycle steps.now → IfOk result (λ order. IsOrder steps.now order.items) }
{
    match rank(alloc, steps)? {
        Ranking::Ranks { order, .. } => Ok(order),
        Ranking::Cycle(_) => Ok(Vec::new(alloc)),
    }
}
