//! What is said of the names of a selection that mean nothing.
use crate::lines::MOST_LINES;
use crate::names::{feature_names, module_names, root_named};
use std::alloc::{AllocError, Global};
use yv_base_streams::Input;
use yv_job::Job;
use yv_note_text::{Joint, push_between, push_quoted};
use yv_note_values::module_of;
use yv_source::Texts;
use yv_text_statement::{Keyword, Selection, Statement};

const SUPPORT: &str = "--support: ";

const IMPORT_ONLY: &str = "--import-only: ";

/// A sentence on each of the first 20 names in a job's `--support` and `--import-only` that mean
/// nothing. There is none where the statements of the files can't be read.
pub(crate) fn sentences(
    alloc: Global,
    job: &Job,
    inputs: &[Input],
) -> Result<Vec<String>, AllocError> {
    let given = given_imports(job);
    if given == 0 && job.selection.support.is_empty() {
        return Ok(Vec::new(alloc));
    }
    let texts = Texts::read(alloc, inputs)?;
    match texts.statements(alloc) {
        Ok(statements) => sentences_on(alloc, &job.selection, given, &statements),
        Err(_) => Ok(Vec::new(alloc)),
    }
}

// How many names `--import-only` gives. Those of found modules come after them.
fn given_imports(job: &Job) -> usize {
    match &job.search {
        Some(search) => search.given,
        None => job.selection.import_only.len(),
    }
}

// Sentences on the names of a selection, with the statements of all files.
fn sentences_on(
    alloc: Global,
    selection: &Selection,
    given: usize,
    roots: &[Statement<'_>],
) -> Result<Vec<String>, AllocError> {
    let mut sentences = Vec::new(alloc);
    for (module, features) in selection.support.iter() {
        push_support(&mut sentences, roots, module.as_str(), features.as_slice())?;
    }
    for name in selection.import_only.iter().take(given) {
        push_import(&mut sentences, roots, name.as_str())?;
    }
    Ok(sentences)
}

// Adds sentences on a module of `--support`, or on its features, as long as there are fewer than
// 20.
fn push_support(
    sentences: &mut Vec<String>,
    roots: &[Statement<'_>],
    module: &str,
    features: &[String],
) -> Result<(), AllocError> {
    if root_named(roots, Keyword::Module, module).is_none() {
        return push_no_module(sentences, roots, SUPPORT, module);
    }
    let alloc = *sentences.allocator();
    let known = feature_names(alloc, roots, module)?;
    for feature in features {
        if sentences.len() < MOST_LINES && known.binary_search(&feature.as_str()).is_err() {
            sentences.push(no_feature(alloc, module, feature.as_str(), &known)?)?;
        }
    }
    Ok(())
}

// Adds a sentence on a name of `--import-only`, unless it is that of a module.
fn push_import(
    sentences: &mut Vec<String>,
    roots: &[Statement<'_>],
    name: &str,
) -> Result<(), AllocError> {
    match root_named(roots, Keyword::Module, name) {
        Some(_) => Ok(()),
        None => push_no_module(sentences, roots, IMPORT_ONLY, name),
    }
}

// Adds that no file defines a module, as long as there are fewer than 20 sentences.
fn push_no_module(
    sentences: &mut Vec<String>,
    roots: &[Statement<'_>],
    option: &str,
    name: &str,
) -> Result<(), AllocError> {
    if sentences.len() >= MOST_LINES {
        return Ok(());
    }
    let alloc = *sentences.allocator();
    let mut text = String::from_str(alloc, option)?;
    match root_named(roots, Keyword::Submodule, name) {
        Some(root) => push_submodule(&mut text, name, root)?,
        None => {
            text.push_str("no given file defines the module ")?;
            push_quoted(&mut text, name)?;
            push_known(&mut text, &module_names(alloc, roots)?)?;
        }
    }
    sentences.push(text)?;
    Ok(())
}

// Adds that a name is that of a submodule.
fn push_submodule(text: &mut String, name: &str, root: &Statement<'_>) -> Result<(), AllocError> {
    push_quoted(text, name)?;
    text.push_str(" is a submodule; write the name of its module, ")?;
    push_quoted(text, module_of(root).unwrap_or(""))
}

// That a module doesn't have a feature, and which ones it has.
fn no_feature(
    alloc: Global,
    module: &str,
    feature: &str,
    known: &[&str],
) -> Result<String, AllocError> {
    let mut text = String::from_str(alloc, SUPPORT)?;
    text.push_str("the module ")?;
    push_quoted(&mut text, module)?;
    text.push_str(" has no feature ")?;
    push_quoted(&mut text, feature)?;
    push_known(&mut text, known)?;
    Ok(text)
}

// Adds which names there are, of many the first 8.
fn push_known(text: &mut String, names: &[&str]) -> Result<(), AllocError> {
    match names {
        [] => return text.push_str("; there are none"),
        [_] => text.push_str("; the only one is ")?,
        _ => text.push_str("; there are ")?,
    }
    for (place, name) in names.iter().enumerate() {
        if !push_between(text, place, names.len(), Joint::And)? {
            break;
        }
        push_quoted(text, *name)?;
    }
    Ok(())
}
