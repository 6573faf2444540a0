//! How many units each statement takes.
ghost use Rattle.std.specs.Prelude.{◌≡◌, ◌<◌, ℕ, List, length, map, slice_get, IfOk, Some};
ghost use Rattle.yv_link_scopes.specs.{Files.{Briefs, Files, brief_of}, Rows.{Row, row}, RowList.{rows_of}, Views.{lent_in, files_in, rows_in}};
ghost use Rattle.yv_link_definitions.specs.Meanings.{AreNames};
ghost use Rattle.yv_expand.specs.{Results.{AreUnits, AreWeights}, InnerSteps.{AreSettled, IsSettled}};
ghost use Rattle.yv_expand_statements.specs.{Units.{saturate}, Weigh.{Weighs}};

use crate::steps::{order, steps};
use crate::unit_keywords::own_units;
use crate::values::{value, values};
use std::alloc::{AllocError, Global};
use yv_link_definitions::Names;
use yv_link_scopes::{Entry, Rows};

/// The value of each statement: what it takes, or, where it doesn't count, what the statements in
/// its block take.
pub(crate) fn weigh_statements(
    alloc: Global,
    rows: &Rows<'_, '_>,
    names: &Names,
) -> Result<Vec<u64>, AllocError>
    ensures { AreNames (lent_in rows.now) names.now
        → IfOk result (λ values. AreSettled (files_in rows.now) (rows_in rows.now) values.items) }
{
    yv_link_scopes::laws::blocks_are_nested();
    let steps = steps(alloc, rows, names)?;
    let order = order(alloc, &steps)?;
    values(alloc, rows, &steps, &order)
}

// How many units a statement takes.
fn weight(values: &[u64], number: usize, entry: &Entry<'_, '_>) -> u64
    ensures { (files : Briefs) (rows : List Row) → slice_get rows number ≡ Some (row entry.now)
        → IsSettled files rows values.now number
        → (n : ℕ) × Weighs files rows number n × (result ≡ saturate n) }
{
    match own_units(entry) {
        Some(_) => value(values, number),
        None => 0,
    }
}

// How many units each statement takes.
fn weights(alloc: Global, rows: &Rows<'_, '_>, values: &[u64]) -> Result<Vec<u64>, AllocError>
    ensures { (files : Briefs) → AreSettled files (rows_in rows.now) values.now
        → IfOk result (λ weights. AreWeights files (rows_in rows.now) weights.items) }
{
    let mut weights = Vec::new(alloc);
    for (number, entry) in rows.entries().iter().enumerate() {
        weights.push(weight(values, number, entry))?;
    }
    Ok(weights)
}

/// How many units each statement of files takes in which nothing is wrong with the names of
/// definitions.
#[derive(Drop)]
pub struct Units {
    weights: Vec<u64>,
}

impl Units {
    /// Counts the units of files, given their names. Takes time linear in statements.
    pub fn read(alloc: Global, rows: &Rows<'_, '_>, names: &Names) -> Result<Units, AllocError>
        ensures { AreNames (lent_in rows.now) names.now
            → IfOk result (AreUnits (lent_in rows.now)) }
    {
        let values = weigh_statements(alloc, rows, names)?;
        let weights = weights(alloc, rows, &values)?;
        Ok(Units { weights })
    }

    /// How many units the statement of a number takes with all that is in it, or 2 to the 64 less
    /// one where these are more: a node one, an rpc or an action three with its input and output, a
    /// uses one and besides once more what is in its grouping, and a statement that makes no nodes,
    /// as a grouping, none (RFC 7950, sections 7.12 and
    /// 7.13). 0 past the last statement.
    pub fn weight(&self, number: usize) -> u64
        ensures { (files : Files) → AreUnits files self.now → number < length (rows_of files)
            → (n : ℕ) × Weighs (map brief_of files) (rows_of files) number n
            × (result ≡ saturate n) }
    {
        value(&self.weights, number)
    }
}
