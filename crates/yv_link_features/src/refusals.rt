//! What is refused of the features.
ghost use Rattle.std.specs.Prelude.{◌≡◌, ◌↔◌, ℕ, IsTrue, length};
ghost use Rattle.yv_text_statement.specs.Order.{Among, IsLeast};
ghost use Rattle.yv_base_graph.specs.Graph.{IsMarked};
ghost use Rattle.yv_link_scopes.specs.{Views.{rows_in}, Rows.{row}};
ghost use Rattle.yv_link_features.specs.{Depends.{LeadsTo}, Refusals.{BadRow, has_unknown}, InnerNames.{means_in}};

use crate::if_features::is_if_feature;
use crate::names::FeatureNames;
use yv_link_scopes::{Entry, name_of};
use yv_text_statement::{Code, Refusal, lesser, refusal_if};

impl<'a, 'b> FeatureNames<'_, 'a, 'b> {
    // Whether a statement is a condition with a name that means no feature.
    fn has_unknown(&self, entry: &Entry<'a, 'b>) -> bool
        ensures { result ≡ has_unknown (means_in self.now) (row entry.now) }
    {
        is_if_feature(entry) && !self.are_known(entry.file as usize, name_of(entry.statement))
    }

    // The refusal of a statement, which leads to itself or doesn't.
    fn refusal(&self, entry: &Entry<'a, 'b>, is_cyclic: bool) -> Option<Refusal>
        ensures { (number : ℕ)
            → (IsTrue is_cyclic
            ↔ LeadsTo (means_in self.now) (rows_in self.now.rows.now) number number)
            → IsLeast
            (BadRow (means_in self.now) (rows_in self.now.rows.now) number (row entry.now)) result }
    {
        let has_unknown = self.has_unknown(entry);
        let cycle = refusal_if(is_cyclic, Code::FeatureCycle, entry.file, entry.statement);
        if !has_unknown {
            return cycle;
        }
        let unknown = refusal_if(
            has_unknown,
            Code::UnknownFeature,
            entry.file,
            entry.statement,
        );
        lesser(unknown, cycle)
    }

    /// The first refusal, where those statements are marked that lead to themselves.
    pub fn first_refusal(&self, cyclic: &[bool]) -> Option<Refusal>
        requires each { length cyclic.now ≡ length (rows_in self.now.rows.now) }
        requires cycles { (k : ℕ) → IsMarked cyclic.now k
            ↔ LeadsTo (means_in self.now) (rows_in self.now.rows.now) k k }
        ensures { IsLeast
            (Among (rows_in self.now.rows.now)
            (BadRow (means_in self.now) (rows_in self.now.rows.now))
            (length (rows_in self.now.rows.now))) result }
    {
        let mut first = None;
        for (number, entry) in self.rows.entries().iter().enumerate() {
            let refusal = self.refusal(entry, cyclic[number]);
            if refusal.is_some() {
                first = lesser(first, refusal);
            }
        }
        first
    }
}
