//! Which modules are required: those of named files, and those that they lead to.
ghost use Rattle.std.specs.{Prelude.{◌≡◌, map, string_bytes, IfOk}};
ghost use Rattle.yv_search.specs.{Roles.{IsTestOfRequired}, InnerRoles.{is_required}};

use crate::edges::{Node, all_edges};
use crate::graph::{graph_of, number_of};
use crate::modules::numbered_modules;
use crate::table::Table;
use std::alloc::{AllocError, Global};
use yv_base_graph::{is_marked, reachable_from};
use yv_text_statement::Statement;

/// The modules that have files, and marks on those that are required, by number.
#[derive(Drop)]
pub(crate) struct Requirements<'a> {
    modules: Table<'a>,
    marks: Vec<bool>,
}

impl<'a> Requirements<'a> {
    /// What the files with these roots require, of which the first are those of named files.
    pub(crate) fn read(
        alloc: Global,
        roots: &'a [Option<Statement<'_>>],
        named: usize,
        given: &[String],
    ) -> Result<Requirements<'a>, AllocError>
        ensures { IfOk result (λ r. IsTestOfRequired (record {
          roots = roots.now;
          named = named;
          import_only = map string_bytes given.now;
        }) (is_required r)) }
    {
        let modules = numbered_modules(alloc, roots, given)?;
        let edges = all_edges(alloc, &modules, roots, named)?;
        let count = roots.len();
        let graph = graph_of(alloc, &edges, count)?;
        let start = number_of(Node::Start, count);
        let marks = reachable_from(alloc, &graph, start)?;
        Ok(Requirements { modules, marks })
    }

    /// Whether a module is required.
    pub(crate) fn has(&self, name: &str) -> bool
        ensures { result ≡ is_required self.now name.now }
    {
        match self.modules.get(name) {
            Some(module) => is_marked(&self.marks, module.number),
            None => false,
        }
    }
}
