//! The modules of files.
ghost use Rattle.std.specs.{Prelude.{◌≡◌, ◌≤◌, ℕ, [], length, map, IfOk}, Rc.{rc_str_bytes}};
ghost use Rattle.yv_text_statement.specs.Selection.{selected_of};
ghost use Rattle.yv_link_scopes.specs.{Files.{Files, tree_name}, Views.{lent_in}};
ghost use Rattle.yv_expand_statements.specs.FileOrder.{is_given};
ghost use Rattle.yv_schema.specs.{Module.{module_name, modules_of}, InnerModuleNames.{AreModuleNames}};

use crate::name::{name_of, prefix_of};
use std::alloc::{AllocError, Global};
use std::rc::RcStr;
use yv_link_scopes::Rows;
use yv_schema_tables::Module;
use yv_text_statement::{Keyword, Selection, Statement};

/// The name of each file, which the nodes of its module share.
#[derive(Drop)]
pub(crate) struct ModuleNames {
    names: Vec<RcStr>,
    // Where there is no file.
    none: RcStr,
}

impl ModuleNames {
    /// Those of these rows.
    pub(crate) fn read(alloc: Global, rows: &Rows<'_, '_>) -> Result<ModuleNames, AllocError>
        ensures { IfOk result (AreModuleNames (lent_in rows.now)) }
    {
        let mut names = Vec::new(alloc);
        for root in rows.statements() {
            names.push(RcStr::from_str(alloc, name_of(root))?)?;
        }
        let none = RcStr::from_str(alloc, "")?;
        Ok(ModuleNames { names, none })
    }

    /// The name of the module whose own file this is; no text where there is none.
    pub(crate) fn name(&self, module_file: u32) -> Result<RcStr, AllocError>
        ensures { (files : Files) → AreModuleNames files self.now
            → IfOk result (λ name. rc_str_bytes name ≡ module_name files module_file) }
    {
        match self.names.get(module_file as usize) {
            Some(name) => name.clone(),
            None => self.none.clone(),
        }
    }
}

// Whether a file is that of a module that is implemented.
fn is_given(selection: &Selection, root: &Statement<'_>) -> bool
    ensures { result ≡ is_given (selected_of selection.now) root.now }
{
    root.is(Keyword::Module) && selection.is_implemented(name_of(root))
}

/// The modules that are implemented, by file.
pub(crate) fn modules(
    alloc: Global,
    rows: &Rows<'_, '_>,
    module_files: &ModuleNames,
    selection: &Selection,
) -> Result<Vec<Module>, AllocError>
    requires few { length (lent_in rows.now) ≤ 4294967296 }
    requires module_files { AreModuleNames (lent_in rows.now) module_files.now }
    ensures { IfOk result
        (λ modules. modules.items ≡ modules_of (selected_of selection.now) (lent_in rows.now)) }
{
    let mut modules = Vec::new(alloc);
    for (number, root) in rows.statements().iter().enumerate() {
        if is_given(selection, root) {
            modules.push(Module {
                name: module_files.name(number as u32)?,
                prefix: RcStr::from_str(alloc, prefix_of(root))?,
                module_file: number as u32,
            })?;
        }
    }
    Ok(modules)
}
