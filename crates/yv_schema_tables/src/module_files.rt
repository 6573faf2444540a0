//! The files of modules, by name.
ghost use Rattle.std.specs.Prelude.{◌≡◌, ℕ, List, IfOk};
ghost use Rattle.yv_schema_tables.specs.{InnerNames.{get_by_name}, InnerTables.{module_file_named}};

use crate::notes::Module;
use std::alloc::{AllocError, Global};
use std::collections::BTreeMap;
use std::rc::RcStr;

/// The numbers of the files of these modules, by name: of several with one name that of the first.
pub(crate) fn module_files_of(
    alloc: Global,
    modules: &[Module],
) -> Result<BTreeMap<RcStr, u32>, AllocError>
    ensures { IfOk result
        (λ module_files. (name : List ℕ) → get_by_name module_files name
        ≡ module_file_named modules.now name) }
{
    let mut module_files = BTreeMap::new(alloc);
    let mut left = modules.len();
    while left > 0 {
        left -= 1;
        let module = &modules[left];
        module_files.insert(module.name.clone()?, module.module_file)?;
    }
    Ok(module_files)
}
