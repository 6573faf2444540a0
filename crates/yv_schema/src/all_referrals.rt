//! What nodes say as leafrefs.
ghost use Rattle.std.specs.{Prelude.{◌≡◌, ℕ, length, slice_get, IfOk}, Option.{option_and_then}};
ghost use Rattle.yv_link_scopes.specs.Views.{lent_in};
ghost use Rattle.yv_node_statements.specs.Context.{files_in, typing_in};
ghost use Rattle.yv_node_leafrefs.specs.Schema.{leafref_of_row};
ghost use Rattle.yv_schema.specs.Referrals.{referral_at};

use crate::draft::Draft;
use crate::referral_table::Referrals;
use std::alloc::{AllocError, Global};
use yv_expand_statements::Origin;
use yv_link_scopes::Rows;
use yv_node_statements::Definitions;

/// What nodes of these origins say as leafrefs (RFC 7950, section 9.9), the definitions being those
/// of these statements. A statement is asked for its type once, and a path is read once, or twice
/// where types that share it differ in whether an instance is required, however many nodes and
/// typedefs share it: it takes time n log n, and memory linear in the nodes and the texts. Err only
/// if memory runs out.
pub fn referrals<'a>(
    alloc: Global,
    rows: &Rows<'a, '_>,
    definitions: &Definitions<'_, 'a, '_>,
    origins: &[Origin],
) -> Result<Referrals, AllocError>
    // The definitions are those of these statements.
    requires { files_in definitions.now ≡ lent_in rows.now }
    // A number, or none, for each node.
    ensures each { IfOk result (λ r. length r.of.items ≡ length origins.now) }
    // It is that of what the statement of the node says as a leafref.
    ensures says { IfOk result (λ r. (n : ℕ) → leafref_of_row r.of.items r.leafrefs.items n
        ≡ option_and_then (referral_at (typing_in definitions.now) (files_in definitions.now))
        (slice_get origins.now n)) }
{
    let mut draft = Draft::new(alloc, rows, definitions)?;
    let mut of = Vec::new(alloc);
    for origin in origins {
        of.push(draft.of(alloc, rows, definitions, *origin)?)?;
    }
    Ok(Referrals {
        of,
        leafrefs: draft.leafrefs(),
    })
}
