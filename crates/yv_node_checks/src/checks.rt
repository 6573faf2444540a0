//! All checks of a schema tree, except for duplicate names, for what keys and `unique` statements
//! name, and for paths.
ghost use Rattle.std.specs.Prelude.{◌≡◌, IfOk};
ghost use Rattle.yv_text_statement.specs.Order.{IsLeast};
ghost use Rattle.yv_nodes.specs.{Tree.{Forest}, Numbers.{rows_from}};
ghost use Rattle.yv_node_checks.specs.Bad.{BadTree};

use crate::above::least_by_above;
use crate::mandatory::least_by_default;
use std::alloc::{AllocError, Global};
use yv_nodes::Nodes;
use yv_text_statement::{Refusal, lesser};

/// The least refusal of these nodes, the rows of a schema tree: for their `config` statements, keys
/// that are there and fit, operations, `mandatory` statements and the defaults of choices, leafs
/// and leaf-lists (RFC 7950, sections 7.6.5, 7.7.4, 7.8.2, 7.9.3, 7.15, 7.16 and 7.21.1). It takes
/// time linear in the nodes and the names of cases, and fails only if memory runs out.
pub fn least_in_tree(alloc: Global, nodes: &Nodes) -> Result<Option<Refusal>, AllocError>
    ensures { (ts : Forest) → nodes.now.rows ≡ rows_from 0 ts
        → IfOk result (λ least. IsLeast (BadTree ts) least) }
{
    // Each node has a number of 32 bits.
    let _count = nodes.len();
    let rows = nodes.all();
    let above = least_by_above(alloc, rows)?;
    let default = least_by_default(alloc, nodes)?;
    Ok(lesser(above, default))
}
