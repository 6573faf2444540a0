//! The modules that prefixes identify.
ghost use Rattle.std.specs.{Prelude.{◌≡◌, List, map, slice_get, IfOk}, Option.{option_and_then}};
ghost use Rattle.yv_link_scopes.specs.{Rows.{Row, row}, Files.{Briefs, brief_of}, RowList.{rows_of}, Views.{files_in, lent_in, rows_in}, Scopes.{module_of}, InnerModuleFiles.{declared_module_file, module_file_of_prefix}};

use crate::entry::Entry;
use crate::kind::{NameKind, first_places};
use crate::laws::modules_are_files;
use crate::names::name_of;
use crate::places::NamePlaces;
use crate::rows::Rows;
use std::alloc::{AllocError, Global};
use yv_text_statement::Keyword;

// The file of the module for which a prefix stands that is declared so.
fn declared_module_file(rows: &Rows<'_, '_>, entry: &Entry<'_, '_>) -> Option<u32>
    ensures { result ≡ declared_module_file (files_in rows.now) (rows_in rows.now) (row entry.now) }
{
    modules_are_files();
    let outer = rows.entries().get(entry.scope)?;
    let module_file = rows.file_named(name_of(outer.statement))?;
    let is_file = module_file < rows.files().len();
    prove!(is_file);
    Some(module_file as u32)
}

// The same, if the statement declares a prefix.
fn module_file_of_prefix(rows: &Rows<'_, '_>, entry: &Entry<'_, '_>) -> Option<u32>
    ensures { result
        ≡ module_file_of_prefix (files_in rows.now) (rows_in rows.now) (row entry.now) }
{
    if entry.is(Keyword::Prefix) {
        declared_module_file(rows, entry)
    } else {
        None
    }
}

// That of each statement.
fn module_files_of_prefixes(
    alloc: Global,
    rows: &Rows<'_, '_>,
) -> Result<Vec<Option<u32>>, AllocError>
    ensures { IfOk result
        (λ module_files. map (module_file_of_prefix (files_in rows.now) (rows_in rows.now))
        (rows_in rows.now) ≡ module_files.items) }
{
    let mut module_files = Vec::new(alloc);
    for entry in rows.entries() {
        module_files.push(module_file_of_prefix(rows, entry))?;
    }
    Ok(module_files)
}

// What there is at a place of a list.
fn module_file_in(module_files: &[Option<u32>], place: usize) -> Option<u32>
    ensures { result
        ≡ option_and_then (λ module_file. module_file) (slice_get module_files.now place) }
{
    module_files.get(place).copied()?
}

/// For each prefix of a file the file of the module that it identifies. A module's name, which may
/// be long, is looked up once for a declaration of a prefix, and not for each step that has it.
#[derive(Drop)]
pub struct PrefixTable<'a> {
    prefixes: NamePlaces<'a>,
    module_files: Vec<Option<u32>>,
}

impl<'a> PrefixTable<'a> {
    ghost use Rattle.yv_link_scopes.specs.Prefixes.{IsPrefixTable};

    /// The prefixes that files declare.
    pub fn read(alloc: Global, rows: &Rows<'a, '_>) -> Result<PrefixTable<'a>, AllocError>
        // It holds the modules that the prefixes of these files identify.
        ensures table { IfOk result (IsPrefixTable (files_in rows.now) (rows_in rows.now)) }
        // The same, said of the roots that were lent.
        ensures files { IfOk result
            (IsPrefixTable (map brief_of (lent_in rows.now)) (rows_of (lent_in rows.now))) }
    {
        let prefixes = first_places(alloc, NameKind::Prefix, rows)?;
        let module_files = module_files_of_prefixes(alloc, rows)?;
        Ok(PrefixTable {
            prefixes,
            module_files,
        })
    }

    /// The file of the module that a prefix identifies in a file.
    pub fn get(&self, file: usize, prefix: &'a str) -> Option<u32>
        ensures { (files : Briefs) (rows : List Row) → IsPrefixTable files rows self.now → result
            ≡ module_of files rows file prefix.now }
    {
        let number = self.prefixes.get(file, prefix)?;
        module_file_in(&self.module_files, number)
    }
}
