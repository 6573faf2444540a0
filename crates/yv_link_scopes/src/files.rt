//! The files, and the modules to which they belong.
ghost use Rattle.std.specs.{Prelude.{◌≡◌, ℕ, List, map, slice_get, IfOk}, Option.{unwrap_or}};
ghost use Rattle.yv_link_scopes.specs.{Tables.{table_of}, Files.{brief, brief_of, module_file_at, is_module, module_name, file_named}};

use crate::names::name_of;
use crate::places::NamePlaces;
use std::alloc::{AllocError, Global};
use yv_text_statement::{Keyword, Statement};

/// A file: its name, the name of the module to which it belongs, and its root.
#[derive(Clone, Copy)]
pub struct File<'a, 'b> {
    pub name: &'a str,
    /// A module's own name; of a submodule the name in its belongs-to.
    pub module_name: &'a str,
    pub is_module: bool,
    pub root: &'a Statement<'b>,
}

// Whether it is a module's root.
fn is_module(root: &Statement<'_>) -> bool
    ensures { result ≡ is_module root.now }
{
    root.is(Keyword::Module)
}

// The name of the module to which a file belongs.
fn module_name<'a>(root: &'a Statement<'_>) -> &'a str
    ensures { result.now ≡ module_name root.now }
{
    if is_module(root) {
        return name_of(root);
    }
    for child in root.children() {
        if child.is(Keyword::BelongsTo) {
            return name_of(child);
        }
    }
    ""
}

/// The files whose statements these are.
pub(crate) fn read_files<'a, 'b>(
    alloc: Global,
    roots: &'a [Statement<'b>],
) -> Result<Vec<File<'a, 'b>>, AllocError>
    ensures { IfOk result (λ files. map brief files.items ≡ map brief_of roots.now) }
{
    let mut files = Vec::new(alloc);
    for root in roots {
        files.push(File {
            name: name_of(root),
            module_name: module_name(root),
            is_module: is_module(root),
            root,
        })?;
    }
    Ok(files)
}

/// The first file of each name.
pub(crate) fn file_places<'a>(
    alloc: Global,
    files: &[File<'a, '_>],
) -> Result<NamePlaces<'a>, AllocError>
    ensures { IfOk result
        (λ places. (name : List ℕ) → table_of places 0 name
        ≡ file_named (map brief files.now) name) }
{
    let mut places = NamePlaces::new(alloc);
    for (number, file) in files.iter().enumerate() {
        places.keep(0, file.name.as_bytes(), number)?;
    }
    Ok(places)
}

/// The number of the file of the module to which a file belongs, its own where that module isn't
/// there.
pub(crate) fn module_file<'a>(
    files: &[File<'a, '_>],
    names: &NamePlaces<'a>,
    number: usize,
) -> usize
    requires { (name : List ℕ) → table_of names.now 0 name ≡ file_named (map brief files.now) name }
    ensures { result ≡ module_file_at (map brief files.now) number }
{
    let Some(file) = files.get(number) else {
        return number;
    };
    if file.is_module {
        return number;
    }
    names.get(0, file.module_name).unwrap_or(number)
}

/// For each file the file of its module. A name is looked up once for a file, and not for each of
/// its statements: the names may be long.
pub(crate) fn module_files<'a>(
    alloc: Global,
    files: &[File<'a, '_>],
    names: &NamePlaces<'a>,
) -> Result<Vec<usize>, AllocError>
    requires { (name : List ℕ) → table_of names.now 0 name ≡ file_named (map brief files.now) name }
    ensures { IfOk result (λ module_files. (n : ℕ)
        → unwrap_or (slice_get module_files.items n) n ≡ module_file_at (map brief files.now) n) }
{
    let mut module_files = Vec::with_capacity(alloc, files.len())?;
    for number in 0..files.len() {
        module_files.push(module_file(files, names, number))?;
    }
    Ok(module_files)
}
