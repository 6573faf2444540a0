//! From numbered nodes to their schema.
ghost use Rattle.std.specs.Prelude.{◌≡◌, ◌≢◌, All, IfOk, OnOk, Some, None, Err};
ghost use Rattle.yv_text_statement.specs.{declared.refusal.Refusal.{Refusal}, declared.refusal.Stop.TheVariants.{Fault, PatternBuild}, Order.{IsLeast}};
ghost use Rattle.yv_nodes.specs.{Tree.{Forest}, Numbers.{numbers_from, rows_from}, Rows.{whole}};
ghost use Rattle.yv_schema_tables.specs.{Bad.{BadRows}, NodeNumbers.{AreModules, AreNumbered, made_of}, Sound.{IsNote}};

use crate::module_files::module_files_of;
use crate::names::node_names;
use crate::notes::{AugmentNote, Module};
use crate::schema::Schema;
use crate::table::Family;
use crate::tables::node_tables;
use std::alloc::Global;
use yv_node_keys::laws::targets_are_leafs;
use yv_node_keys::leaf_targets;
use yv_nodes::{Links, NodeId, Nodes};
use yv_text_statement::{Stop, lesser};

impl Schema {
    /// The schema of numbered nodes of these modules, with the numbers of those at the top, or the
    /// least refusal: of a node below a parent that has an earlier one of its module and name, also
    /// in choices and cases (RFC 7950, section 6.2.1), or of a list whose key or `unique`
    /// statements name what they may not (sections 7.8.2 and 7.8.3). The notes are of the augments
    /// that added some of the nodes, and the links of the leafrefs among them.
    pub fn number_nodes(
        alloc: Global,
        nodes: Nodes,
        top: Vec<NodeId>,
        modules: Vec<Module>,
        notes: Vec<AugmentNote>,
        links: Links,
    ) -> Result<Schema, Stop>
        // The modules are these.
        requires modules { AreModules modules.items }
        // The nodes, those at the top and the links fit together.
        requires numbers { AreNumbered modules.items nodes.rows top.items links }
        // Each note is of nodes that are there.
        requires notes { All
            (IsNote (made_of nodes.rows top.items nodes.limit modules.items notes.items links))
            notes.items }
        // The schema's tree is the one with these rows and these numbers at the top.
        ensures schema { (ts : Forest) → nodes.rows ≡ rows_from 0 ts → top.items ≡ numbers_from 0 ts
            → IfOk result (λ s. whole s ≡ ts) }
        // The limit is that of the nodes.
        ensures limit { IfOk result (λ s. s.limit ≡ nodes.limit) }
        // The modules are these.
        ensures modules { IfOk result (λ s. s.modules ≡ modules.items) }
        // The notes on augments are these.
        ensures augments { IfOk result (λ s. s.augments ≡ notes.items) }
        // The links are these.
        ensures links { IfOk result (λ s. s.links ≡ links) }
        // A schema is returned only if nothing is refused of the nodes.
        ensures clear { (ts : Forest) → nodes.rows ≡ rows_from 0 ts → top.items ≡ numbers_from 0 ts
            → OnOk result (IsLeast (BadRows ts) None) }
        // A refusal is the least that applies to them.
        ensures refusal { (ts : Forest) → nodes.rows ≡ rows_from 0 ts → top.items
            ≡ numbers_from 0 ts
            → (r : Refusal) → result ≡ Err (Fault r) → IsLeast (BadRows ts) (Some r) }
        // `PatternBuild` is never returned.
        ensures builds { result ≢ Err PatternBuild }
    {
        targets_are_leafs();
        // Each node has a number of 32 bits.
        let _nodes = nodes.len();
        let module_files = module_files_of(alloc, &modules)?;
        let named = node_names(alloc, &nodes)?;
        let at_top = Family::of(alloc, &nodes, &named.of_nodes, None, &top)?;
        let below = node_tables(alloc, &nodes, &named.of_nodes)?;
        let found = leaf_targets(alloc, &nodes)?;
        let duplicate = lesser(at_top.duplicate, below.duplicate);
        match lesser(duplicate, found.fault) {
            Some(refusal) => Err(Stop::Fault(refusal)),
            None => Ok(Schema {
                nodes,
                top,
                module_files,
                names: named.names,
                at_top: at_top.directory,
                directories: below.directories,
                leafs: found.targets,
                implemented: modules,
                notes,
                links,
            }),
        }
    }
}
