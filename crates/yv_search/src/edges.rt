//! What modules require of others, and borrow from them, as edges between modules in their roles.
ghost use Rattle.std.specs.{Prelude.{◌≡◌, ◌++◌, ◌∷◌, [], map, take, IfOk, OnOk}, List.{flat_map}, Option.{option_map, option_and_then}};
ghost use Rattle.yv_text_statement.specs.Tree.{trees};
ghost use Rattle.yv_search.specs.{Wants.{module_of}, Prefixes.{parts_of}, Statements.{places}, InnerModules.{lookup}, InnerPrefixes.{refs_of}, InnerEdges.{place, need_edges, lender_edges, way_edges, part_edges, name_edges, augment_edges, way_of, place_edges, edges_from, file_edges, start_edges, all_edges}};

use crate::prefixes::prefixes;
use crate::statements::{Place, places};
use crate::table::{ModuleRef, Table};
use crate::wants::module_of;
use std::alloc::{AllocError, Global};
use yv_link_scopes::prefix_of;
use yv_text_statement::{Keyword, Statement};

/// A module, by its number, in a role.
#[derive(Clone, Copy)]
pub(crate) enum Node {
    /// Where all begins: it leads to the modules of named files.
    Start,
    /// The module as one that is required.
    Required(usize),
    /// The module as a lender.
    Lender(usize),
}

/// If the one has its role, the other has.
#[derive(Clone, Copy)]
pub(crate) struct Edge {
    pub(crate) from: Node,
    pub(crate) to: Node,
}

// How a statement makes its module need another.
#[derive(Clone, Copy)]
enum Way {
    Leads,
    LeadsLent,
    Borrows,
}

// A module, and what prefixes mean in one of its files.
#[derive(Clone, Copy)]
struct Origin<'t, 'a> {
    number: usize,
    prefixes: &'t Table<'a>,
}

// A module is required, if it may be.
fn add_need(edges: &mut Vec<Edge>, from: Node, to: ModuleRef) -> Result<(), AllocError>
    ensures { OnOk result (edges.new.items ≡ edges.old.items ++ need_edges from to) }
{
    if to.is_there && to.is_free {
        edges.push(Edge {
            from,
            to: Node::Required(to.number),
        })?;
    }
    Ok(())
}

// A module is a lender.
fn add_lender(edges: &mut Vec<Edge>, from: Node, to: ModuleRef) -> Result<(), AllocError>
    ensures { OnOk result (edges.new.items ≡ edges.old.items ++ lender_edges from to) }
{
    edges.push(Edge {
        from,
        to: Node::Lender(to.number),
    })?;
    Ok(())
}

// A module needs another in this way.
fn add_way(edges: &mut Vec<Edge>, from: usize, way: Way, to: ModuleRef) -> Result<(), AllocError>
    ensures { OnOk result (edges.new.items ≡ edges.old.items ++ way_edges from way to) }
{
    match way {
        Way::Leads => add_need(edges, Node::Required(from), to),
        Way::LeadsLent => {
            add_need(edges, Node::Required(from), to)?;
            add_need(edges, Node::Lender(from), to)
        }
        Way::Borrows => {
            add_lender(edges, Node::Required(from), to)?;
            add_lender(edges, Node::Lender(from), to)
        }
    }
}

// A module needs the one that a part of an argument names.
fn add_part(
    edges: &mut Vec<Edge>,
    origin: Origin<'_, '_>,
    way: Way,
    part: &str,
) -> Result<(), AllocError>
    ensures { OnOk result (edges.new.items ≡ edges.old.items
        ++ part_edges origin.entry.number (lookup origin.entry.prefixes.now) way part.now) }
{
    let Some(prefix) = prefix_of(part) else {
        return Ok(());
    };
    match origin.prefixes.get(prefix) {
        Some(to) => add_way(edges, origin.number, way, to),
        None => Ok(()),
    }
}

// The parts of an argument.
fn parts(alloc: Global, argument: &str) -> Result<Vec<&str>, AllocError>
    ensures { IfOk result (λ parts. map (λ p. p.now) parts.items ≡ parts_of argument.now) }
{
    argument.split('/').collect(alloc)
}

// A module needs those that an argument names.
fn add_names(
    alloc: Global,
    edges: &mut Vec<Edge>,
    origin: Origin<'_, '_>,
    way: Way,
    argument: Option<&str>,
) -> Result<(), AllocError>
    ensures { OnOk result (edges.new.items ≡ edges.old.items
        ++ name_edges origin.entry.number (lookup origin.entry.prefixes.now) way
        (option_map (λ t. t.now) argument.entry)) }
{
    let Some(argument) = argument else {
        return Ok(());
    };
    let parts = parts(alloc, argument)?;
    for part in &parts {
        add_part(edges, origin, way, part)?;
    }
    Ok(())
}

// A module needs those that the augments at the top of a file name.
fn add_augments(
    alloc: Global,
    edges: &mut Vec<Edge>,
    origin: Origin<'_, '_>,
    root: &Statement<'_>,
) -> Result<(), AllocError>
    ensures { OnOk result (edges.new.items ≡ edges.old.items
        ++ flat_map (augment_edges origin.entry.number (lookup origin.entry.prefixes.now))
        (trees root.now.children)) }
{
    for statement in root.children() {
        if statement.is(Keyword::Augment) {
            add_names(alloc, edges, origin, Way::Leads, statement.argument())?;
        }
    }
    Ok(())
}

// In which way a statement makes its module need others.
fn way_of(at: &Place<'_, '_>) -> Option<Way>
    ensures { result ≡ way_of (place at.now) }
{
    if at.statement.is(Keyword::Path) {
        if at.lent {
            Some(Way::LeadsLent)
        } else {
            Some(Way::Leads)
        }
    } else if at.statement.is(Keyword::Type) || at.statement.is(Keyword::Uses) {
        Some(Way::Borrows)
    } else {
        None
    }
}

// A module needs those that the statements of a file name, at any depth.
fn add_places(
    alloc: Global,
    edges: &mut Vec<Edge>,
    origin: Origin<'_, '_>,
    root: &Statement<'_>,
) -> Result<(), AllocError>
    ensures { OnOk result (edges.new.items ≡ edges.old.items
        ++ flat_map (place_edges origin.entry.number (lookup origin.entry.prefixes.now))
        (places root.now)) }
{
    let list = places(alloc, root)?;
    for at in &list {
        if let Some(way) = way_of(at) {
            add_names(alloc, edges, origin, way, at.statement.argument())?;
        }
    }
    Ok(())
}

// The edges by a file.
fn add_file(
    alloc: Global,
    edges: &mut Vec<Edge>,
    modules: &Table<'_>,
    root: &Statement<'_>,
) -> Result<(), AllocError>
    ensures { OnOk result (edges.new.items ≡ edges.old.items
        ++ file_edges (lookup modules.now) (Some root.now)) }
{
    let Some(module) = module_ref(modules, root) else {
        return Ok(());
    };
    let prefixes = prefixes(alloc, modules, root)?;
    let origin = Origin {
        number: module.number,
        prefixes: &prefixes,
    };
    add_augments(alloc, edges, origin, root)?;
    add_places(alloc, edges, origin, root)
}

// The module of the file with this root.
fn module_ref(modules: &Table<'_>, root: &Statement<'_>) -> Option<ModuleRef>
    ensures { result ≡ option_and_then (lookup modules.now) (module_of root.now) }
{
    modules.get(module_of(root)?)
}

// The module of a named file is required, unless `--import-only` names it.
fn add_named(
    edges: &mut Vec<Edge>,
    modules: &Table<'_>,
    root: &Statement<'_>,
) -> Result<(), AllocError>
    ensures { OnOk result (edges.new.items ≡ edges.old.items
        ++ start_edges (lookup modules.now) (Some root.now)) }
{
    if let Some(module) = module_ref(modules, root)
        && module.is_free
    {
        edges.push(Edge {
            from: Node::Start,
            to: Node::Required(module.number),
        })?;
    }
    Ok(())
}

/// All edges of the files with these roots, of which the first are those of named files.
pub(crate) fn all_edges(
    alloc: Global,
    modules: &Table<'_>,
    roots: &[Option<Statement<'_>>],
    named: usize,
) -> Result<Vec<Edge>, AllocError>
    ensures { IfOk result (λ edges. edges.items
        ≡ all_edges (lookup modules.now) roots.now named) }
{
    let mut edges = Vec::new(alloc);
    for root in first_of(roots, named) {
        if let Some(root) = root {
            add_named(&mut edges, modules, root)?;
        }
    }
    for root in roots {
        if let Some(root) = root {
            add_file(alloc, &mut edges, modules, root)?;
        }
    }
    Ok(edges)
}

// The first roots.
fn first_of<'r, 'a>(roots: &'r [Option<Statement<'a>>], count: usize) -> &'r [Option<Statement<'a>>]
    ensures { result.now ≡ take count roots.now }
{
    if count < roots.len() {
        &roots[..count]
    } else {
        roots
    }
}
