//! What is said of a member whose module is not implemented.
use crate::advisor::Advisor;
use crate::near_text::NearText;
use std::alloc::AllocError;
use yv_link_scopes::name_of;
use yv_note_text::{front, push_quoted, push_shown};
use yv_note_values::module_of;
use yv_schema_tables::Schema;
use yv_text_statement::{Keyword, Statement};

/// Whether a module of this name is implemented.
pub(crate) fn is_implemented(schema: &Schema, name: &str) -> bool {
    schema
        .modules()
        .iter()
        .any(|module| module.name.as_str() == name)
}

/// Adds why a module isn't implemented: nothing requires its file, it is imported only, the name is
/// that of a submodule, or no file defines it.
pub(crate) fn push_no_module(
    text: &mut String,
    advisor: &Advisor<'_, '_>,
    module: &str,
) -> Result<(), AllocError> {
    if let Some(file) = advisor.job.unrequired_file(module) {
        push_shown(text, front(file.as_bytes()))?;
        text.push_str(" was found by --path and nothing requires ")?;
        push_quoted(text, module)?;
        return text.push_str("; name the file to implement it");
    }
    if let Some(root) = submodule_named(advisor, module) {
        return push_submodule(text, root);
    }
    if advisor.job.selection.is_implemented(module) || !is_given(advisor, module) {
        return push_undefined(text, advisor.schema, module);
    }
    push_quoted(text, module)?;
    text.push_str(" is only imported (--import-only), so it has no data")
}

// Whether a file defines a module. That is not known where the files weren't read again.
fn is_given(advisor: &Advisor<'_, '_>, module: &str) -> bool {
    match advisor.statements {
        Some(roots) => roots.iter().any(|root| root.is(Keyword::Module)
            && root.argument() == Some(module)),
        None => true,
    }
}

// The root of the file of a submodule.
fn submodule_named<'d, 's>(advisor: &Advisor<'d, 's>, name: &str) -> Option<&'s Statement<'d>> {
    match advisor.statements {
        Some(roots) => roots.iter().find(|root| root.is(Keyword::Submodule)
            && root.argument() == Some(name)),
        None => None,
    }
}

// Adds that a name is that of a submodule.
fn push_submodule(text: &mut String, root: &Statement<'_>) -> Result<(), AllocError> {
    push_quoted(text, name_of(root))?;
    text.push_str(" is a submodule; write the name of its module, ")?;
    push_quoted(text, module_of(root).unwrap_or(""))
}

// Adds that no file defines a module, and which one may be meant.
fn push_undefined(text: &mut String, schema: &Schema, module: &str) -> Result<(), AllocError> {
    text.push_str("no given file defines the module ")?;
    push_quoted(text, module)?;
    text.push_str("; add its file, or fix the name")?;
    let Some(near) = nearest(schema, module) else {
        return Ok(());
    };
    text.push_str(": did you mean ")?;
    push_quoted(text, near.text)?;
    text.push_str("?")
}

// The implemented module whose name is most like another one.
fn nearest<'s>(schema: &'s Schema, name: &str) -> Option<NearText<'s>> {
    schema.modules().iter().fold(None, |found, module| {
        NearText::nearer(found, NearText::read(name, module.name.as_str()))
    })
}
