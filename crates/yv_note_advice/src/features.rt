//! What is said of a member whose node depends on a feature that is not supported.
use crate::definitions::Definitions;
use crate::spot::{Spot, node_at};
use std::alloc::AllocError;
use yv_link_scopes::{local, name_of, prefix_of};
use yv_note_text::push_quoted;
use yv_note_values::{FileStatement, YangFiles};
use yv_text_if_feature::{Evaluator, Word, Words};
use yv_text_statement::{Keyword, Selection};

/// How many words of an expression are looked at. One that is longer is passed over.
const MOST_WORDS: usize = 16;

// A feature, by the name of its module and its own.
#[derive(Clone, Copy)]
struct Feature<'s> {
    module: &'s str,
    name: &'s str,
}

/// Adds which feature the node of a member depends on, where the module has such a node, and that
/// feature isn't supported. Returns whether it is so.
pub(crate) fn push_feature(
    text: &mut String,
    spot: &Spot<'_, '_>,
    member: &str,
) -> Result<bool, AllocError> {
    let alloc = *text.allocator();
    let around = node_at(spot.schema, spot.around);
    let module = match prefix_of(member) {
        Some(module) => Some(module),
        None => around.map(|node| node.module()),
    };
    let (Some(files), Some(module)) = (spot.advisor.files(), module) else {
        return Ok(false);
    };
    let definitions = Definitions::read(alloc, &files, module)?;
    let parent = around.map(|node| node.name());
    let conditions = definitions.conditions(alloc, local(member), parent)?;
    match missing_feature(&files, &spot.advisor.job.selection, &conditions) {
        Some(feature) => {
            push_need(text, &files, member, &feature)?;
            Ok(true)
        }
        None => Ok(false),
    }
}

// Adds that a member needs a feature, and where that is defined.
fn push_need(
    text: &mut String,
    files: &YangFiles<'_, '_>,
    member: &str,
    feature: &Feature<'_>,
) -> Result<(), AllocError> {
    push_quoted(text, member)?;
    text.push_str(" needs the feature ")?;
    push_quoted(text, feature.name)?;
    text.push_str(" of ")?;
    push_quoted(text, feature.module)?;
    if let Some(site) = files.top_definition(feature.module, Keyword::Feature, feature.name) {
        files.push_place(text, &site)?;
    }
    text.push_str(", which is not supported here")
}

// The first feature that isn't supported and is named by one of these `if-feature` statements that
// doesn't hold.
fn missing_feature<'d, 's>(
    files: &YangFiles<'d, 's>,
    selection: &Selection,
    conditions: &[FileStatement<'d, 's>],
) -> Option<Feature<'s>> {
    for site in conditions {
        if !holds(files, selection, site)
            && let Some(feature) = first_missing(files, selection, site)
        {
            return Some(feature);
        }
    }
    None
}

// Whether the expression of an `if-feature` holds.
fn holds<'s>(
    files: &YangFiles<'_, 's>,
    selection: &Selection,
    site: &FileStatement<'_, 's>,
) -> bool {
    let mut evaluator = Evaluator::new();
    for word in Words::new(name_of(site.statement)).take(MOST_WORDS) {
        let is_on = match feature_of(files, site, word) {
            Some(feature) => selection.is_supported(feature.module, feature.name),
            None => false,
        };
        evaluator.take(word, is_on);
    }
    evaluator.truth().unwrap_or(true)
}

// The first feature of an expression that isn't supported.
fn first_missing<'d, 's>(
    files: &YangFiles<'d, 's>,
    selection: &Selection,
    site: &FileStatement<'d, 's>,
) -> Option<Feature<'s>> {
    for word in Words::new(name_of(site.statement)).take(MOST_WORDS) {
        if let Some(feature) = feature_of(files, site, word)
            && !selection.is_supported(feature.module, feature.name)
        {
            return Some(feature);
        }
    }
    None
}

// The feature that a word of an expression names.
fn feature_of<'s>(
    files: &YangFiles<'_, 's>,
    site: &FileStatement<'_, '_>,
    word: Word<'s>,
) -> Option<Feature<'s>> {
    let Word::Name(name) = word else {
        return None;
    };
    let module = files.module_named(site.file, prefix_of(name))?;
    Some(Feature {
        module,
        name: local(name),
    })
}
