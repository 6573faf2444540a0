//! The conditions of each statement, and the features that they name.
ghost use Rattle.std.specs.Prelude.{◌≡◌, ℕ, [], length, map, IfOk};
ghost use Rattle.yv_link_scopes.specs.{Views.{rows_in}, Rows.{row}};
ghost use Rattle.yv_link_features.specs.{InnerGraph.{AreLists, meant_from, numbers_at, steps_of}, InnerNames.{means_in}, Meaning.{is_if_feature}};

use crate::names::FeatureNames;
use std::alloc::{AllocError, Global};
use yv_link_scopes::{Entry, Rows, name_of};
use yv_text_statement::Keyword;

/// Whether a statement is a condition.
pub(crate) fn is_if_feature(entry: &Entry<'_, '_>) -> bool
    ensures { result ≡ is_if_feature (row entry.now) }
{
    entry.is(Keyword::IfFeature)
}

// As many empty lists.
fn empty_lists(alloc: Global, count: usize) -> Result<Vec<Vec<usize>>, AllocError>
    ensures each { IfOk result (λ lists. length lists.items ≡ count) }
    ensures empty { IfOk result (λ lists. (k : ℕ) → numbers_at lists.items k ≡ []) }
{
    let mut lists = Vec::new(alloc);
    for _ in 0..count {
        lists.push(Vec::new(alloc))?;
    }
    Ok(lists)
}

/// For each statement the numbers of its conditions, found in one pass.
pub(crate) fn if_features(alloc: Global, rows: &Rows<'_, '_>) -> Result<Vec<Vec<usize>>, AllocError>
    ensures { IfOk result (λ lists. AreLists (rows_in rows.now) lists.items) }
{
    yv_link_scopes::laws::blocks_are_nested();
    let entries = rows.entries();
    let mut lists = empty_lists(alloc, entries.len())?;
    for (number, entry) in entries.iter().enumerate() {
        if is_if_feature(entry) {
            lists[entry.scope].push(number)?;
        }
    }
    Ok(lists)
}

impl FeatureNames<'_, '_, '_> {
    // The features that the numbered conditions name.
    fn steps(&self, alloc: Global, conditions: &[usize]) -> Result<Vec<usize>, AllocError>
        ensures { IfOk result (λ features. features.items
            ≡ meant_from (means_in self.now) (rows_in self.now.rows.now) conditions.now) }
    {
        let mut features = Vec::new(alloc);
        for number in conditions {
            if let Some(entry) = self.entry(*number) {
                let text = name_of(entry.statement);
                self.add_meanings(&mut features, entry.file as usize, text)?;
            }
        }
        Ok(features)
    }

    /// For each statement the features that its conditions name.
    pub fn graph(&self, alloc: Global, lists: &[Vec<usize>]) -> Result<Vec<Vec<usize>>, AllocError>
        ensures { IfOk result (λ graph. map (λ v. v.items) graph.items
            ≡ steps_of (means_in self.now) (rows_in self.now.rows.now) lists.now) }
    {
        let mut graph = Vec::new(alloc);
        for conditions in lists {
            graph.push(self.steps(alloc, conditions)?)?;
        }
        Ok(graph)
    }
}
