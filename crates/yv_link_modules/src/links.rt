//! Imports, includes and belongs-tos, and the files that they name.
ghost use Rattle.std.specs.{Prelude.{◌≡◌, ◌&&◌, map, is_none, slice_get}, Option.{option_and_then}};
ghost use Rattle.yv_link_scopes.specs.{Files.{brief}, Rows.{row}, Tables.{table_of}, Views.{files_in}};
ghost use Rattle.yv_link_modules.specs.Links.{is_at, is_not_included, is_link, is_missing, is_module_at, is_wrong, is_wrong_link};

use yv_link_scopes::{Entry, File, NamePlaces, Rows, name_of};
use yv_text_statement::Keyword;

/// Whether an import, an include or a belongs-to names no file.
pub(crate) fn is_missing<'a>(rows: &Rows<'a, '_>, entry: &Entry<'a, '_>) -> bool
    ensures { result ≡ is_missing (files_in rows.now) (row entry.now) }
{
    is_link(entry) && rows.file_named(name_of(entry.statement)).is_none()
}

// Whether it is a statement that names a file.
fn is_link(entry: &Entry<'_, '_>) -> bool
    ensures { result ≡ is_link (row entry.now).head }
{
    entry.is(Keyword::Import) || entry.is(Keyword::Include) || entry.is(Keyword::BelongsTo)
}

// Whether a statement in a file of this module names a file of the wrong kind.
fn is_wrong(entry: &Entry<'_, '_>, own: &str, file: &File<'_, '_>) -> bool
    ensures { result ≡ is_wrong (row entry.now).head own.now (brief file.now) }
{
    if entry.is(Keyword::Include) {
        file.is_module || file.module_name != own
    } else {
        is_link(entry) && !file.is_module
    }
}

/// Whether an import, an include or a belongs-to names a file of the wrong kind.
pub(crate) fn is_wrong_link<'a>(rows: &Rows<'a, '_>, entry: &Entry<'a, '_>) -> bool
    ensures { result ≡ is_wrong_link (files_in rows.now) (row entry.now) }
{
    if !is_link(entry) {
        return false;
    }
    let Some(number) = rows.file_named(name_of(entry.statement)) else {
        return false;
    };
    let files = rows.files();
    match (files.get(entry.file as usize), files.get(number)) {
        (Some(own), Some(file)) => is_wrong(entry, own.module_name, file),
        _ => false,
    }
}

/// Whether the file of this number is a module.
pub(crate) fn is_module_at(rows: &Rows<'_, '_>, number: usize) -> bool
    ensures { result ≡ is_module_at (files_in rows.now) number }
{
    match rows.files().get(number) {
        Some(file) => file.is_module,
        None => false,
    }
}

/// Whether a submodule's module is given, and has no include of it.
pub(crate) fn is_not_included<'a>(
    rows: &Rows<'a, '_>,
    includes: &NamePlaces<'a>,
    file: &File<'a, '_>,
) -> bool
    ensures { result
        ≡ is_not_included (files_in rows.now) (table_of includes.now) (brief file.now) }
{
    if file.is_module {
        return false;
    }
    match rows.file_named(file.module_name) {
        Some(module_file) => is_module_at(rows, module_file)
            && includes.get(module_file, file.name).is_none(),
        None => false,
    }
}

/// Whether the place is this number.
pub(crate) fn is_at(number: usize, place: Option<usize>) -> bool
    ensures { result ≡ is_at number place }
{
    match place {
        Some(other) => other == number,
        None => false,
    }
}
