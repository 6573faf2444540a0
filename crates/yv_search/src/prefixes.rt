//! What prefixes mean in a file (RFC 7950, section 7.1.4).
ghost use Rattle.std.specs.Prelude.{◌≡◌, ℕ, List, IfOk, OnOk};
ghost use Rattle.yv_search.specs.{Prefixes.{is_link}, InnerModules.{row_at, lookup}, InnerPrefixes.{ref_in, row_of, refs_of}};

use crate::table::{ModuleRef, Table};
use crate::wants::argument_of;
use std::alloc::{AllocError, Global};
use yv_text_statement::{Keyword, Statement};

// The module of a statement's argument.
fn module_ref(modules: &Table<'_>, statement: &Statement<'_>) -> Option<ModuleRef>
    ensures { result ≡ ref_in (lookup modules.now) statement.now }
{
    modules.get(statement.argument()?)
}

// The module of a statement's argument has the statement's prefix, if that has no meaning yet.
fn add_prefix<'a>(
    prefixes: &mut Table<'a>,
    modules: &Table<'_>,
    statement: &'a Statement<'_>,
) -> Result<(), AllocError>
    ensures { OnOk result ((q : List ℕ) → row_at prefixes.new q
        ≡ row_of (lookup modules.now) (row_at prefixes.old q) statement.now q) }
{
    if let Some(prefix) = argument_of(statement, Keyword::Prefix) {
        prefixes.keep(prefix, module_ref(modules, statement))?;
    }
    Ok(())
}

// Whether a statement gives a prefix to a module.
fn is_link(statement: &Statement<'_>) -> bool
    ensures { result ≡ is_link statement.now }
{
    statement.is(Keyword::Import) || statement.is(Keyword::BelongsTo)
}

/// The modules that prefixes mean in the file with this root.
pub(crate) fn prefixes<'a>(
    alloc: Global,
    modules: &Table<'_>,
    root: &'a Statement<'_>,
) -> Result<Table<'a>, AllocError>
    ensures { IfOk result (λ table. (q : List ℕ)
        → lookup table q ≡ refs_of (lookup modules.now) root.now q) }
{
    let mut table = Table::new(alloc);
    if root.is(Keyword::Module) {
        add_prefix(&mut table, modules, root)?;
    }
    for statement in root.children() {
        if is_link(statement) {
            add_prefix(&mut table, modules, statement)?;
        }
    }
    Ok(table)
}
