//! What names in the texts of files mean.
ghost use Rattle.std.specs.{Prelude.{◌≡◌, ℕ, map, slice_get, IfOk, OnOk}, Option.{option_map}};
ghost use Rattle.yv_link_scopes.specs.{Files.{brief}, Rows.{row}, Views.{files_in, lent_in, rows_in}, declared.kind.NameKind.TheVariants.{Prefix}};
ghost use Rattle.yv_link_definitions.specs.Duplicates.{is_of};
ghost use Rattle.yv_values.specs.Scopes.{place_of};
ghost use Rattle.yv_types.specs.{Scopes.{AreScopes, name_or_none, place_in}, InnerScopes.{add_prefix, bare, bind, declare}};

use crate::rows::entry_at;
use std::alloc::{AllocError, Global};
use yv_link_scopes::{Entry, File, Rows, name_of};
use yv_text_statement::Keyword;
use yv_values::Scope;

// Whether a statement is a prefix.
fn is_prefix(entry: &Entry<'_, '_>) -> bool
    ensures { result ≡ is_of Prefix (row entry.now) }
{
    entry.is(Keyword::Prefix)
}

// The name of the numbered statement, or no text.
fn name_at<'a>(rows: &Rows<'a, '_>, number: usize) -> &'a str
    ensures { result.now ≡ name_or_none (slice_get (rows_in rows.now) number) }
{
    match entry_at(rows, number) {
        Some(entry) => name_of(entry.statement),
        None => "",
    }
}

// Makes a prefix refer to a module.
fn bind(alloc: Global, scope: &mut Scope, prefix: &str, module_name: &str) -> Result<(), AllocError>
    ensures { OnOk result
        (place_of scope.new
        ≡ bind (record { prefix = prefix.now; module_name = module_name.now })
        (place_of scope.old)) }
{
    let prefix = String::from_str(alloc, prefix)?;
    let module_name = String::from_str(alloc, module_name)?;
    scope.prefixes.push((prefix, module_name))?;
    Ok(())
}

// The same in the scope of a file.
fn add(
    alloc: Global,
    scopes: &mut Vec<Scope>,
    file: u32,
    prefix: &str,
    module_name: &str,
) -> Result<(), AllocError>
    ensures { OnOk result ((n : ℕ) → place_in scopes.new.items n
        ≡ option_map
        (add_prefix n file (record { prefix = prefix.now; module_name = module_name.now }))
        (place_in scopes.old.items n)) }
{
    let place = file as usize;
    if place < scopes.len() {
        bind(alloc, &mut scopes[place], prefix, module_name)?;
    }
    Ok(())
}

// Adds the prefix that a statement declares, if it does.
fn declare(
    alloc: Global,
    rows: &Rows<'_, '_>,
    scopes: &mut Vec<Scope>,
    entry: &Entry<'_, '_>,
) -> Result<(), AllocError>
    ensures { OnOk result ((n : ℕ) → place_in scopes.new.items n
        ≡ option_map (declare (rows_in rows.now) n (row entry.now)) (place_in scopes.old.items n)) }
{
    if is_prefix(entry) {
        let module_name = name_at(rows, entry.scope);
        add(
            alloc,
            scopes,
            entry.file,
            name_of(entry.statement),
            module_name,
        )?;
    }
    Ok(())
}

// The scope of a file, as yet without prefixes.
fn bare(alloc: Global, file: &File<'_, '_>) -> Result<Scope, AllocError>
    ensures { IfOk result (λ scope. place_of scope ≡ bare (brief file.now)) }
{
    Ok(Scope {
        module: String::from_str(alloc, file.module_name)?,
        prefixes: Vec::new(alloc),
    })
}

// The same of all files.
fn bare_scopes(alloc: Global, rows: &Rows<'_, '_>) -> Result<Vec<Scope>, AllocError>
    ensures { IfOk result (λ scopes. map place_of scopes.items ≡ map bare (files_in rows.now)) }
{
    let mut scopes = Vec::new(alloc);
    for file in rows.files() {
        scopes.push(bare(alloc, file)?)?;
    }
    Ok(scopes)
}

/// For each file the module and the prefixes by which its texts are read, in time linear in
/// statements.
pub fn scopes_of(alloc: Global, rows: &Rows<'_, '_>) -> Result<Vec<Scope>, AllocError>
    ensures { IfOk result (λ scopes. AreScopes (lent_in rows.now) scopes.items) }
{
    let mut scopes = bare_scopes(alloc, rows)?;
    for entry in rows.entries() {
        declare(alloc, rows, &mut scopes, entry)?;
    }
    Ok(scopes)
}
