//! Chains of imports.
ghost use Rattle.std.specs.Prelude.{◌≡◌, ◌<◌, length, All, IfOk, OnOk};
ghost use Rattle.yv_base_graph.specs.Graph.{IsGraph};
ghost use Rattle.yv_link_scopes.specs.{Rows.{row}, Views.{files_in, rows_in}};
ghost use Rattle.yv_link_modules.specs.{Imports.{imported_module}, InnerImports.{AreImports, AreLeads, HasOneMore, is_import_cycle, is_marked}};

use crate::links::is_module_at;
use std::alloc::{AllocError, Global};
use yv_base_graph::reachable_from;
use yv_link_scopes::laws::{modules_are_files, roots_come_first};
use yv_link_scopes::{Entry, Rows, name_of};
use yv_text_statement::Keyword;

// The number of the module that an import names.
fn imported_module<'a>(rows: &Rows<'a, '_>, entry: &Entry<'a, '_>) -> Option<usize>
    ensures { result ≡ imported_module (files_in rows.now) (row entry.now) }
{
    if !entry.is(Keyword::Import) {
        return None;
    }
    let number = rows.file_named(name_of(entry.statement))?;
    if is_module_at(rows, number) {
        Some(number)
    } else {
        None
    }
}

// Adds an edge to a graph.
fn add_edge(graph: &mut Vec<Vec<usize>>, from: usize, to: usize) -> Result<(), AllocError>
    requires { from < length graph.old.items }
    ensures { OnOk result (HasOneMore graph.old.items graph.new.items from to) }
{
    graph[from].push(to)?;
    Ok(())
}

// For each file, if it is a module, the modules which it or a submodule of it imports.
fn import_graph(alloc: Global, rows: &Rows<'_, '_>) -> Result<Vec<Vec<usize>>, AllocError>
    ensures { IfOk result
        (λ graph. AreImports (files_in rows.now) (rows_in rows.now) (length (rows_in rows.now))
        graph.items) }
{
    roots_come_first();
    modules_are_files();
    let mut graph = Vec::new(alloc);
    for _ in rows.files() {
        graph.push(Vec::new(alloc))?;
    }
    for entry in rows.entries() {
        if let Some(module) = imported_module(rows, entry) {
            let module_file = rows.module_file(entry.file as usize);
            add_edge(&mut graph, module_file, module)?;
        }
    }
    Ok(graph)
}

/// For each module the modules to which it leads by imports.
pub(crate) fn import_leads(alloc: Global, rows: &Rows<'_, '_>) -> Result<Vec<Vec<bool>>, AllocError>
    ensures { IfOk result (λ leads. AreLeads (files_in rows.now) (rows_in rows.now) leads.items) }
{
    modules_are_files();
    let graph = import_graph(alloc, rows)?;
    let mut leads = Vec::new(alloc);
    for module in 0..graph.len() {
        leads.push(reachable_from(alloc, &graph, module)?)?;
    }
    Ok(leads)
}

// Whether a module is marked among those to which another leads.
fn is_marked(leads: &[Vec<bool>], from: usize, to: usize) -> bool
    ensures { result ≡ is_marked leads.now from to }
{
    match leads.get(from) {
        Some(marks) => marks.get(to).copied().unwrap_or(false),
        None => false,
    }
}

/// Whether a statement is an import whose module leads by imports to the importing one.
pub(crate) fn is_import_cycle<'a>(
    rows: &Rows<'a, '_>,
    leads: &[Vec<bool>],
    entry: &Entry<'a, '_>,
) -> bool
    ensures { result ≡ is_import_cycle (files_in rows.now) leads.now (row entry.now) }
{
    match imported_module(rows, entry) {
        Some(module) => is_marked(leads, module, rows.module_file(entry.file as usize)),
        None => false,
    }
}
