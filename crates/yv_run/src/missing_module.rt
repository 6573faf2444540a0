//! What is missing of that which is to be drawn, and what there is instead.
use crate::missing_node::push_missing_node;
use crate::nearest::nearer;
use std::alloc::{AllocError, Global};
use yv_job::{Job, TreeOptions};
use yv_note_text::{Joint, front, push_between, push_quoted, push_shown};
use yv_schema_tables::{Module, Schema};

/// Which module or node is missing, and what there is instead.
pub(crate) fn missing_note(
    alloc: Global,
    schema: &Schema,
    job: &Job,
    options: &TreeOptions,
) -> Result<String, AllocError> {
    let mut text = String::new(alloc);
    text.push_str("tree: ")?;
    let below = options.drawing.below.as_slice();
    if let Some(name) = missing_module(schema.modules(), options.modules.as_slice()) {
        push_missing_module(&mut text, schema.modules(), job, name)?;
    } else if below.is_empty() {
        text.push_str("no file that was named has an implemented module")?;
        push_list(&mut text, schema.modules())?;
    } else {
        push_missing_node(&mut text, schema, below)?;
    }
    text.push_str("\n")?;
    Ok(text)
}

// The first of these names that no implemented module has.
fn missing_module<'a>(modules: &[Module], names: &'a [String]) -> Option<&'a str> {
    for name in names {
        if !modules
            .iter()
            .any(|known| known.name.as_str() == name.as_str())
        {
            return Some(name.as_str());
        }
    }
    None
}

// Adds why there is no diagram of the module of this name, and of which modules there is one.
fn push_missing_module(
    text: &mut String,
    modules: &[Module],
    job: &Job,
    name: &str,
) -> Result<(), AllocError> {
    push_reason(text, job, name)?;
    push_list(text, modules)?;
    if let Some(near) = nearest_module(modules, name) {
        text.push_str("; did you mean ")?;
        push_quoted(text, near)?;
        text.push_str("?")?;
    }
    Ok(())
}

// The module whose name is most like one that was written.
fn nearest_module<'m>(modules: &'m [Module], name: &str) -> Option<&'m str> {
    let mut nearest = None;
    for known in modules {
        nearest = nearer(name, nearest, known.name.as_str());
    }
    match nearest {
        Some((name, _)) => Some(name),
        None => None,
    }
}

// Adds why a module isn't drawn.
fn push_reason(text: &mut String, job: &Job, name: &str) -> Result<(), AllocError> {
    if let Some(file) = job.unrequired_file(name) {
        push_shown(text, front(file.as_bytes()))?;
        text.push_str(" was found by --path and nothing requires ")?;
        push_quoted(text, name)?;
        return text.push_str("; name the file to implement it");
    }
    if job.selection.is_implemented(name) {
        text.push_str("there is no module ")?;
        push_quoted(text, name)
    } else {
        text.push_str("--import-only names the module ")?;
        push_quoted(text, name)?;
        text.push_str(", so it is not implemented")
    }
}

// Adds the names of modules, of many the first 8.
fn push_list(text: &mut String, modules: &[Module]) -> Result<(), AllocError> {
    match modules {
        [] => return Ok(()),
        [_] => text.push_str("; the only implemented module is ")?,
        _ => text.push_str("; the implemented modules are ")?,
    }
    for (place, known) in modules.iter().enumerate() {
        if !push_between(text, place, modules.len(), Joint::And)? {
            break;
        }
        push_quoted(text, known.name.as_str())?;
    }
    Ok(())
}
