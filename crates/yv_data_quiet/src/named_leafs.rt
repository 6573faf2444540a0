//! The leafs whose values make entries of lists differ.
ghost use Rattle.std.specs.{Prelude.{◌≡◌, ◌||◌, ◌<◌, ℕ, length, map, IfOk, OnOk, Some}, BTreeSet.{contains}, Ordering.{nat_cmp}};
ghost use Rattle.yv_data_quiet.specs.NamedLeafs.{are_named, is_named, is_read, list_names};

use std::alloc::{AllocError, Global};
use std::collections::BTreeSet;
use yv_nodes::NodeId;
use yv_schema_tables::Schema;

/// The leafs that the keys and the `unique` statements of the lists of a schema name. It takes time
/// n log n.
pub(crate) fn named_leafs(alloc: Global, schema: &Schema) -> Result<BTreeSet<u32>, AllocError>
    ensures { IfOk result (λ named. (n : ℕ) → contains nat_cmp named n ≡ is_named schema.now n) }
{
    let mut named = BTreeSet::new(alloc);
    for index in 0..schema.len() {
        add_names(schema, NodeId(index), &mut named)?;
    }
    Ok(named)
}

/// Whether something asks for the default of a leaf or leaf-list that is in use: the key or a
/// `unique` statement of a list, or a leafref that requires an instance.
pub(crate) fn is_read(schema: &Schema, named: &BTreeSet<u32>, id: NodeId) -> bool
    requires { (n : ℕ) → contains nat_cmp named.now n ≡ is_named schema.now n }
    ensures { result ≡ is_read schema.now id.0 }
{
    schema.links().is_target(id) || named.contains(&id.0)
}

// Adds the leafs that a node's key and its `unique` statements name: only a list has some.
fn add_names(schema: &Schema, list: NodeId, named: &mut BTreeSet<u32>) -> Result<(), AllocError>
    requires { list.0 < length schema.now.nodes }
    ensures { OnOk result ((n : ℕ) → contains nat_cmp named.new n
        ≡ (list_names schema.now list n || contains nat_cmp named.old n)) }
{
    add_leafs(schema.keys(list), named)?;
    for leafs in schema.uniques(list) {
        add_leafs(leafs, named)?;
    }
    Ok(())
}

fn add_leafs(leafs: &[NodeId], named: &mut BTreeSet<u32>) -> Result<(), AllocError>
    ensures { OnOk result ((n : ℕ) → contains nat_cmp named.new n
        ≡ (are_named (map (λ leaf. Some leaf) leafs.now) n || contains nat_cmp named.old n)) }
{
    for leaf in leafs {
        named.insert(leaf.0)?;
    }
    Ok(())
}
