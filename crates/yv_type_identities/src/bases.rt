//! What is derived from all of some bases.
ghost use Rattle.std.specs.Prelude.{◌↔◌, IsTrue, IfOk, map};
ghost use Rattle.yv_text_statement.specs.Selection.{ModuleChoice};
ghost use Rattle.yv_link_scopes.specs.{Files.{Files, brief_of}, RowList.{rows_of}};
ghost use Rattle.yv_link_identities.specs.declared.references.IdentityRef.{IdentityRef};
ghost use Rattle.yv_link.specs.LinkedFiles.{AreLinked};
ghost use Rattle.yv_type_identities.specs.{InnerBases.{IsBelowKey}, InnerSets.{is_left}};

use crate::sets::{References, intersect};
use std::alloc::{AllocError, Global};
use yv_link::{IdentityRef, Linked};

/// The identities that are derived from all of the bases at some files and offsets; none where
/// there is no base.
pub(crate) fn below(
    alloc: Global,
    linked: &Linked<'_, '_>,
    key: &[(u32, u64)],
) -> Result<Option<References>, AllocError>
    ensures { IfOk result
        (λ left. (files : Files) (choice : ModuleChoice) → AreLinked files choice linked.now
        → (place : IdentityRef)
        → IsTrue (is_left left place)
        ↔ IsBelowKey (map brief_of files) (rows_of files) key.now place) }
{
    let mut left = None;
    for base in key {
        let (file, offset) = *base;
        let derived = linked.descendants(alloc, IdentityRef { file, offset })?;
        left = Some(intersect(alloc, &left, &derived)?);
    }
    Ok(left)
}
