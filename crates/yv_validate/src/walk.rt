//! A walk over a document and its schema.
ghost use Rattle.yv_data_quiet.specs.{Quiet.{AreKnown}, Runs.{HasRuns}};

use std::alloc::Global;
use yv_data_faults::Trail;
use yv_data_leafrefs::RuleScope;
use yv_data_quiet::RunTable;
use yv_nodes::NodeId;
use yv_schema_tables::Schema;
use yv_text_statement::Kind;

/// A validation: where its memory comes from, the schema, what kind of document is asked for, and
/// what is known of the nodes of the schema and of children one after the other.
#[derive(Clone, Copy)]
pub(crate) struct Walk<'a> {
    pub(crate) alloc: Global,
    pub(crate) schema: &'a Schema,
    pub(crate) kind: Kind,
    pub(crate) known: &'a [Option<u64>],
    pub(crate) runs: &'a RunTable,
    ghost nodes: { AreKnown schema.now known.now },
    ghost children: { HasRuns schema.now runs.now },
}

/// A visit of a node: its scope, or the one around it, the node, the way to the object in which it
/// may be, and the number of that object. Where an object of the node is entered, the way leads to
/// this one.
#[derive(Clone, Copy)]
pub(crate) struct Visit<'v> {
    pub(crate) scope: RuleScope,
    pub(crate) id: NodeId,
    pub(crate) path: &'v Trail<'v>,
    pub(crate) position: u64,
}
