//! What the names in conditions mean, and the value that a condition has by it.
ghost use Rattle.std.specs.{Prelude.{◌≡◌, ◌++◌, ◌&&◌, ℕ, OnOk, slice_get, take}, List.{list_all}, Option.{option_map}};
ghost use Rattle.yv_text_if_feature.specs.{WordTokens.{token_shown}, Tokens.{names_among, tokens}};
ghost use Rattle.yv_link_scopes.specs.{Views.{rows_in}, Rows.{row}};
ghost use Rattle.yv_link_features.specs.{Features.{from_marks}, InnerNames.{is_settled, means_in, meant_among, feature_of_word}, Value.{HasValue, is_known, is_on}};

use std::alloc::AllocError;
use yv_link_scopes::{Entry, NamePlaces, Rows, local};
use yv_text_if_feature::{Evaluator, Word, Words};

/// The statements of files, and where each name of a feature occurs first.
#[derive(Clone, Copy)]
pub(crate) struct FeatureNames<'r, 'a, 'b> {
    pub rows: &'r Rows<'a, 'b>,
    pub places: &'r NamePlaces<'a>,
}

// Whether a word is no name, or means a feature.
fn is_settled(word: Word<'_>, feature: Option<usize>) -> bool
    ensures { result ≡ is_settled (token_shown word.entry) feature }
{
    match word {
        Word::Name(_) => feature.is_some(),
        _ => true,
    }
}

// Whether a feature is meant, and it is on.
fn is_on(on: &[bool], feature: Option<usize>) -> bool
    ensures { result ≡ is_on (from_marks on.now) feature }
{
    match feature {
        Some(feature) => on.get(feature).copied().unwrap_or(false),
        None => false,
    }
}

/// Whether both hold.
pub(crate) fn both(first: bool, second: bool) -> bool
    ensures { result ≡ (first && second) }
{
    first && second
}

impl<'r, 'a, 'b> FeatureNames<'r, 'a, 'b> {
    /// The statement of a number.
    pub fn entry(&self, number: usize) -> Option<&'r Entry<'a, 'b>>
        ensures { option_map (λ e. row e.now) result
            ≡ slice_get (rows_in self.now.rows.now) number }
    {
        self.rows.entries().get(number)
    }

    // The number of the feature that a name means in a file.
    fn meaning(&self, file: usize, name: &'a str) -> Option<usize>
        ensures { result ≡ means_in self.now file name.now }
    {
        let block = self.rows.block_of(file, name)?;
        self.places.get(block, local(name))
    }

    // The number of the feature that a word of an expression means.
    fn feature_of_word(&self, file: usize, word: Word<'a>) -> Option<usize>
        ensures { result ≡ feature_of_word (means_in self.now) file (token_shown word.entry) }
    {
        match word {
            Word::Name(name) => self.meaning(file, name),
            _ => None,
        }
    }

    /// Whether each name of a text means a feature.
    pub fn are_known(&self, file: usize, text: &'a str) -> bool
        ensures { result
            ≡ list_all (is_known (means_in self.now) file) (names_among (tokens text.now)) }
    {
        let mut known = true;
        for word in Words::new(text) {
            let feature = self.feature_of_word(file, word);
            let settled = is_settled(word, feature);
            known = both(known, settled);
        }
        known
    }

    /// Adds the features that a text names, or the first of them where memory runs out.
    pub fn add_meanings(
        &self,
        features: &mut Vec<usize>,
        file: usize,
        text: &'a str,
    ) -> Result<(), AllocError>
        ensures adds { OnOk result
            (features.new.items ≡ features.old.items
            ++ meant_among (means_in self.now) file (tokens text.now)) }
        ensures part { (n : ℕ)
            × (features.new.items ≡ features.old.items
            ++ take n (meant_among (means_in self.now) file (tokens text.now))) }
    {
        for word in Words::new(text) {
            if let Some(feature) = self.feature_of_word(file, word) {
                features.push(feature)?;
            }
        }
        Ok(())
    }

    /// The value of a text in a file, where these features are on.
    pub fn value(&self, on: &[bool], file: usize, text: &'a str) -> bool
        ensures { HasValue (means_in self.now) (from_marks on.now) file text.now result }
    {
        yv_text_if_feature::laws::names_stand_in_order();
        let mut known = true;
        let mut evaluator = Evaluator::new();
        for word in Words::new(text) {
            let feature = self.feature_of_word(file, word);
            let settled = is_settled(word, feature);
            let holds = is_on(on, feature);
            known = both(known, settled);
            evaluator.take(word, holds);
        }
        let truth = evaluator.truth().unwrap_or(false);
        both(known, truth)
    }
}
