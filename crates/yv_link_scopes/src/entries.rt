//! The statements of the files, one by one.
ghost use Rattle.std.specs.Prelude.{◌≡◌, ◌≤◌, ◌<◌, ◌++◌, ℕ, List, length, map, OnOk, IfOk};
ghost use Rattle.yv_text_statement.specs.Tree.{Then, End, forest};
ghost use Rattle.yv_link_scopes.specs.{Tables.{table_of}, Files.{brief, brief_of, file_named}, Rows.{row, tree, row_list, is_extended}, RowList.{rows_of, statements_in, statements_of}};

use crate::entry::Entry;
use crate::files::{File, module_file};
use crate::places::NamePlaces;
use std::alloc::{AllocError, Global};
use yv_text_statement::{Keyword, Statement};

// Whether a statement is an extension's.
fn is_extended(statement: &Statement<'_>) -> bool
    ensures { result ≡ is_extended statement.now.head.keyword }
{
    statement.is(Keyword::Extended)
}

// Lists a statement and what is below it.
fn add<'a, 'b>(
    entries: &mut Vec<Entry<'a, 'b>>,
    file: u32,
    scope: usize,
    statement: &'a Statement<'b>,
) -> Result<(), AllocError>
    ensures rows { OnOk result (map row entries.new.items ≡ map row entries.old.items
        ++ row_list file scope (length entries.old.items)
        (Then statement.now.head statement.now.children End)) }
    ensures trees { OnOk result (map tree entries.new.items ≡ map tree entries.old.items
        ++ statements_in (Then statement.now.head statement.now.children End)) }
{
    let number = entries.len();
    entries.push(Entry {
        file,
        kind: statement.kind(),
        scope,
        statement,
    })?;
    if is_extended(statement) {
        return Ok(());
    }
    for child in statement.children() {
        add(entries, file, number, child)?;
    }
    Ok(())
}

// Lists the statements of a block, and what is below them.
fn add_block<'a, 'b>(
    entries: &mut Vec<Entry<'a, 'b>>,
    file: u32,
    scope: usize,
    block: &'a [Statement<'b>],
) -> Result<(), AllocError>
    ensures rows { OnOk result (map row entries.new.items ≡ map row entries.old.items
        ++ row_list file scope (length entries.old.items) (forest block.now)) }
    ensures trees { OnOk result (map tree entries.new.items ≡ map tree entries.old.items
        ++ statements_in (forest block.now)) }
{
    for child in block {
        add(entries, file, scope, child)?;
    }
    Ok(())
}

/// The statements of all files: the roots, and then file by file what is in them.
pub(crate) fn read_entries<'a, 'b>(
    alloc: Global,
    roots: &'a [Statement<'b>],
    files: &[File<'a, 'b>],
    names: &NamePlaces<'a>,
) -> Result<Vec<Entry<'a, 'b>>, AllocError>
    requires few { length roots.now ≤ 4294967296 }
    requires files { map brief files.now ≡ map brief_of roots.now }
    requires names { (name : List ℕ) → table_of names.now 0 name
        ≡ file_named (map brief files.now) name }
    ensures rows { IfOk result (λ entries. map row entries.items ≡ rows_of roots.now) }
    ensures trees { IfOk result (λ entries. map tree entries.items ≡ statements_of roots.now) }
{
    let mut entries = Vec::new(alloc);
    for (file, root) in roots.iter().enumerate() {
        entries.push(Entry {
            file: file as u32,
            kind: root.kind(),
            scope: file,
            statement: root,
        })?;
    }
    for (number, root) in roots.iter().enumerate() {
        let scope = module_file(files, names, number);
        add_block(&mut entries, number as u32, scope, root.children())?;
    }
    Ok(entries)
}
