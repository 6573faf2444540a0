//! The modules and features that files define.
use std::alloc::{AllocError, Global};
use yv_link_scopes::name_of;
use yv_note_values::module_of;
use yv_text_statement::{Keyword, Statement};

/// The root of the file of a module or submodule.
pub(crate) fn root_named<'d, 's>(
    roots: &'s [Statement<'d>],
    keyword: Keyword,
    name: &str,
) -> Option<&'s Statement<'d>> {
    roots
        .iter()
        .find(|root| root.is(keyword) && root.argument() == Some(name))
}

/// The names of the modules, in the order of the files.
pub(crate) fn module_names<'s>(
    alloc: Global,
    roots: &'s [Statement<'_>],
) -> Result<Vec<&'s str>, AllocError> {
    let mut names = Vec::new(alloc);
    for root in roots {
        if root.is(Keyword::Module) {
            names.push(name_of(root))?;
        }
    }
    Ok(names)
}

/// The names of a module's features, sorted: those in its own file, and in those of its submodules.
pub(crate) fn feature_names<'s>(
    alloc: Global,
    roots: &'s [Statement<'_>],
    module: &str,
) -> Result<Vec<&'s str>, AllocError> {
    let mut names = Vec::new(alloc);
    for root in roots {
        if module_of(root) == Some(module) {
            push_features(&mut names, root)?;
        }
    }
    names.sort_unstable();
    Ok(names)
}

// Adds the names of the features in a file.
fn push_features<'s>(names: &mut Vec<&'s str>, root: &'s Statement<'_>) -> Result<(), AllocError> {
    for child in root.children() {
        if child.is(Keyword::Feature) {
            names.push(name_of(child))?;
        }
    }
    Ok(())
}
