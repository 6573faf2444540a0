//! Which features are on.
ghost use Rattle.std.specs.Prelude.{◌≡◌, ◌↔◌, ◌<◌, ℕ, Some, IsTrue, IfOk, length, slice_get, true};
ghost use Rattle.yv_text_statement.specs.Selection.{selected_of};
ghost use Rattle.yv_link_scopes.specs.{Views.{files_in, rows_in}, Rows.{Row, row}};
ghost use Rattle.yv_link_features.specs.{Features.{from_marks}, InnerGraph.{AllTrue, AreLists, IsOrderOf, IsTrueAt}, InnerNames.{means_in}, Meaning.{is_feature}, On.{AllHold, IsOn, has_support, module_name_in}};

use crate::names::{FeatureNames, both};
use std::alloc::{AllocError, Global};
use yv_link_scopes::{Entry, name_of};
use yv_text_statement::{Keyword, Selection};

// Whether a statement is a feature.
fn is_feature(entry: &Entry<'_, '_>) -> bool
    ensures { result ≡ is_feature (row entry.now) }
{
    entry.is(Keyword::Feature)
}

impl<'a, 'b> FeatureNames<'_, 'a, 'b> {
    // Whether the feature of a statement is supported.
    fn has_support(&self, selection: &Selection, entry: &Entry<'a, 'b>) -> bool
        ensures { result
            ≡ has_support (files_in self.now.rows.now) (selected_of selection.now) (row entry.now) }
    {
        let module_file = self.module_name_in(entry);
        selection.is_supported(module_file, name_of(entry.statement))
    }

    // The name of the module to which a statement's file belongs.
    fn module_name_in(&self, entry: &Entry<'a, 'b>) -> &'a str
        ensures { result.now
            ≡ module_name_in (slice_get (files_in self.now.rows.now) (row entry.now).file) }
    {
        match self.rows.files().get(entry.file as usize) {
            Some(file) => file.module_name,
            None => "",
        }
    }

    // Whether the numbered condition holds, where these features are on.
    fn holds(&self, on: &[bool], number: usize) -> bool
        ensures { IsTrue result
            ↔ IsTrueAt (means_in self.now) (rows_in self.now.rows.now) (from_marks on.now) number }
    {
        yv_text_if_feature::laws::a_text_spells_one_if_feature();
        match self.entry(number) {
            Some(entry) => self.value(on, entry.file as usize, name_of(entry.statement)),
            None => true,
        }
    }

    // Whether these conditions hold, where these features are on.
    fn all_hold(&self, on: &[bool], conditions: &[usize]) -> bool
        ensures { IsTrue result
            ↔ AllTrue (means_in self.now) (rows_in self.now.rows.now) (from_marks on.now)
            conditions.now }
    {
        for number in conditions {
            let holds = self.holds(on, *number);
            if !holds {
                return false;
            }
        }
        true
    }

    // Whether a feature is on, where those are marked that it depends on. Other statements aren't.
    fn is_on(&self, selection: &Selection, lists: &[Vec<usize>], on: &[bool], number: usize) -> bool
        requires lists { AreLists (rows_in self.now.rows.now) lists.now }
        requires within { number < length (rows_in self.now.rows.now) }
        ensures { (r : Row) → slice_get (rows_in self.now.rows.now) number ≡ Some r → is_feature r
            ≡ true
            → IsTrue result
            ↔ ((has_support (files_in self.now.rows.now) (selected_of selection.now) r ≡ true)
            × AllHold (means_in self.now) (rows_in self.now.rows.now) (from_marks on.now) number) }
    {
        let entry = &self.rows.entries()[number];
        if !is_feature(entry) {
            return false;
        }
        let supported = self.has_support(selection, entry);
        let hold = self.all_hold(on, &lists[number]);
        both(supported, hold)
    }

    /// Marks the features that are on. The order has each statement after all that it leads to.
    pub fn truths(
        &self,
        alloc: Global,
        selection: &Selection,
        lists: &[Vec<usize>],
        order: &[usize],
    ) -> Result<Vec<bool>, AllocError>
        requires lists { AreLists (rows_in self.now.rows.now) lists.now }
        requires order { IsOrderOf (means_in self.now) (rows_in self.now.rows.now) order.now }
        ensures { IfOk result
            (λ on. (k : ℕ) (r : Row) → slice_get (rows_in self.now.rows.now) k ≡ Some r
            → is_feature r ≡ true
            → IsOn (means_in self.now) (files_in self.now.rows.now) (rows_in self.now.rows.now)
            (selected_of selection.now) (from_marks on.items) k r) }
    {
        yv_text_if_feature::laws::names_stand_in_order();
        let mut on = vec![in alloc; false; self.rows.entries().len()]?;
        for number in order {
            let number = *number;
            let holds = self.is_on(selection, lists, &on, number);
            on[number] = holds;
        }
        Ok(on)
    }
}
