//! The modules among the files.
ghost use Rattle.std.specs.Prelude.{◌≡◌, map, IfOk};
ghost use Rattle.yv_text_statement.specs.Selection.{selected_of};
ghost use Rattle.yv_link_scopes.specs.{Files.{brief}, Views.{files_in}};
ghost use Rattle.yv_link.specs.Modules.{AreModules, ref_at, ref_of};

use std::alloc::{AllocError, Global};
use yv_link_scopes::{File, Rows};
use yv_text_statement::Selection;

/// A module among the given files.
#[derive(Clone, Copy, Debug, PartialEq, Eq)]
pub struct ModuleRef {
    /// The place of its file in the list of files.
    pub file: u32,
    /// Whether it is implemented, and not only imported (RFC 7950, section 5.6.5).
    pub implemented: bool,
}

// The module whose file this is, if it is one.
fn module_ref(number: u32, file: &File<'_, '_>, selection: &Selection) -> Option<ModuleRef>
    ensures { result ≡ ref_of (selected_of selection.now) number (brief file.now) }
{
    if file.is_module {
        Some(ModuleRef {
            file: number,
            implemented: selection.is_implemented(file.name),
        })
    } else {
        None
    }
}

// The module whose file has this number, if it is one.
fn module_at(rows: &Rows<'_, '_>, selection: &Selection, number: usize) -> Option<ModuleRef>
    ensures { result ≡ ref_at (selected_of selection.now) (files_in rows.now) number }
{
    let file = rows.files().get(number)?;
    module_ref(number as u32, file, selection)
}

/// For each file the module, where it is one.
pub(crate) fn read_modules(
    alloc: Global,
    rows: &Rows<'_, '_>,
    selection: &Selection,
) -> Result<Vec<Option<ModuleRef>>, AllocError>
    ensures { IfOk result
        (λ modules. AreModules (selected_of selection.now) (files_in rows.now) modules.items) }
{
    let mut modules = Vec::new(alloc);
    for number in 0..rows.files().len() {
        modules.push(module_at(rows, selection, number))?;
    }
    Ok(modules)
}
