//! What is wrong with identities and bases.
ghost use Rattle.std.specs.Prelude.{◌≡◌, ◌↔◌, IsTrue};
ghost use Rattle.yv_text_statement.specs.Order.{IsLeast};
ghost use Rattle.yv_link_scopes.specs.{Rows.{row}, Views.{files_in, rows_in}};
ghost use Rattle.yv_link_identities.specs.{Derivation.{IsDerivedFrom}, Refusals.{BadIdentities, BadRow, is_unknown}, InnerPairs.{AreIdentityCycles}};

use crate::draft::{Draft, is_base};
use yv_base_graph::is_marked;
use yv_link_scopes::Entry;
use yv_text_statement::{Code, Refusal, lesser, refusal_if};

// Whether a base's name means nothing.
fn is_unknown<'a, 'b>(draft: &Draft<'_, 'a, 'b>, entry: &Entry<'a, 'b>) -> bool
    ensures { result
        ≡ is_unknown (files_in draft.now.rows.now) (rows_in draft.now.rows.now) (row entry.now) }
{
    is_base(entry) && draft.meaning(entry).is_none()
}

// Whether a statement is an identity that is marked.
fn is_on_cycle(draft: &Draft<'_, '_, '_>, cycles: &[bool], number: usize) -> bool
    requires { AreIdentityCycles (files_in draft.now.rows.now) (rows_in draft.now.rows.now)
        cycles.now }
    ensures { IsTrue result
        ↔ IsDerivedFrom (files_in draft.now.rows.now) (rows_in draft.now.rows.now) number number }
{
    match draft.numbers.node(number) {
        Some(node) => is_marked(cycles, node),
        None => false,
    }
}

// What is wrong with a statement.
fn row_refusal<'a, 'b>(
    draft: &Draft<'_, 'a, 'b>,
    cycles: &[bool],
    number: usize,
    entry: &Entry<'a, 'b>,
) -> Option<Refusal>
    requires { AreIdentityCycles (files_in draft.now.rows.now) (rows_in draft.now.rows.now)
        cycles.now }
    ensures { IsLeast
        (BadRow (files_in draft.now.rows.now) (rows_in draft.now.rows.now) number (row entry.now))
        result }
{
    let unknown = is_unknown(draft, entry);
    let cyclic = is_on_cycle(draft, cycles, number);
    let cycle = refusal_if(cyclic, Code::IdentityCycle, entry.file, entry.statement);
    if !unknown {
        return cycle;
    }
    let name = refusal_if(unknown, Code::UnknownIdentity, entry.file, entry.statement);
    lesser(name, cycle)
}

/// The least that is wrong, those identities being marked that are derived from themselves.
pub(crate) fn first_refusal(draft: &Draft<'_, '_, '_>, cycles: &[bool]) -> Option<Refusal>
    requires { AreIdentityCycles (files_in draft.now.rows.now) (rows_in draft.now.rows.now)
        cycles.now }
    ensures { IsLeast (BadIdentities (files_in draft.now.rows.now) (rows_in draft.now.rows.now))
        result }
{
    let mut least = None;
    for (number, entry) in draft.rows.entries().iter().enumerate() {
        let fault = row_refusal(draft, cycles, number, entry);
        if fault.is_some() {
            least = lesser(least, fault);
        }
    }
    least
}
