//! What one type says as a leafref.
ghost use Rattle.std.specs.Prelude.{◌≡◌, Some, IfOk, OnOk};
ghost use Rattle.yv_link_scopes.specs.Views.{lent_in};
ghost use Rattle.yv_node_paths.specs.LeafPaths.{AreLeafPaths};
ghost use Rattle.yv_schema.specs.{Referrals.{referral_of}, InnerNumbers.{IsNumbered, KeepsNumbers}};

use std::alloc::{AllocError, Global};
use yv_link_scopes::Rows;
use yv_node_leafrefs::Leafref;
use yv_node_paths::{LeafPaths, LeafrefPath};
use yv_types::{TypeLeafref, path_of};

// The leafref that has this path.
fn leafref(path: LeafrefPath, is_required: bool) -> Leafref
    ensures { result
        ≡ record { climbs = path.climbs; steps = path.steps.items; is_required = is_required } }
{
    Leafref {
        climbs: path.climbs,
        steps: path.steps,
        is_required,
    }
}

/// What a type says, the paths being read by these. None where its leafref has no path.
pub(crate) fn read_leafref<'a>(
    alloc: Global,
    rows: &Rows<'a, '_>,
    paths: &LeafPaths<'a>,
    referring: TypeLeafref,
) -> Result<Option<Leafref>, AllocError>
    requires { AreLeafPaths (lent_in rows.now) paths.now }
    ensures { IfOk result (λ said. said ≡ referral_of (lent_in rows.now) (Some referring)) }
{
    match path_of(rows, referring.origin) {
        Some(written) => {
            let path = paths.referral(alloc, written.file as usize, written.text)?;
            Ok(Some(leafref(path, referring.is_required)))
        }
        None => Ok(None),
    }
}

/// Puts what is said after the others, and answers its number. None where nothing is said.
pub(crate) fn put(
    leafrefs: &mut Vec<Leafref>,
    said: Option<Leafref>,
) -> Result<Option<usize>, AllocError>
    ensures keeps { OnOk result (KeepsNumbers leafrefs.old.items leafrefs.new.items) }
    ensures number { IfOk result (λ number. IsNumbered leafrefs.new.items number said) }
{
    match said {
        Some(leafref) => {
            let number = leafrefs.len();
            leafrefs.push(leafref)?;
            Ok(Some(number))
        }
        None => Ok(None),
    }
}
