//! The bases in each block.
ghost use Rattle.std.specs.{Prelude.{◌≡◌, ◌≢◌, ◌↔◌, ◌∷◌, ◌++◌, ◌<◌, ℕ, [], length, map, IsTrue, IfOk, OnOk}, List.{list_any}};
ghost use Rattle.yv_text_statement.specs.Selection.{ModuleChoice};
ghost use Rattle.yv_link_scopes.specs.{Files.{Files, brief_of}, RowList.{rows_of}, Rows.{row}};
ghost use Rattle.yv_link_identities.specs.{References.{is_at}, declared.references.IdentityRef.{IdentityRef}};
ghost use Rattle.yv_link.specs.LinkedFiles.{AreLinked};
ghost use Rattle.yv_type_identities.specs.{Bases.{NamesBase}, InnerBases.{base_of, bases_at}};

use std::alloc::{AllocError, Global};
use yv_link::{IdentityRef, Linked};
use yv_link_scopes::{Entry, name_of};
use yv_text_statement::Keyword;

/// The base that a statement gives the type or the identity in whose block it is.
pub(crate) fn base_of<'a, 'b>(linked: &Linked<'a, 'b>, entry: &Entry<'a, 'b>) -> Option<IdentityRef>
    ensures { (files : Files) (choice : ModuleChoice) → AreLinked files choice linked.now
        → result ≡ base_of (map brief_of files) (rows_of files) (row entry.now) }
{
    if entry.is(Keyword::Base) {
        linked.identity(entry.file, name_of(entry.statement))
    } else {
        None
    }
}

// Makes a block one of those that have a list.
fn grow(alloc: Global, lists: &mut Vec<Vec<IdentityRef>>, block: usize) -> Result<(), AllocError>
    ensures reaches { OnOk result (block < length lists.new.items) }
    ensures same { OnOk result
        ((k : ℕ) → bases_at lists.new.items k ≡ bases_at lists.old.items k) }
{
    while lists.len() <= block {
        lists.push(Vec::new(alloc))?;
    }
    Ok(())
}

// Puts a base after those of a block.
fn put(lists: &mut Vec<Vec<IdentityRef>>, block: usize, base: IdentityRef) -> Result<(), AllocError>
    requires { block < length lists.old.items }
    ensures here { OnOk result
        (bases_at lists.new.items block ≡ bases_at lists.old.items block ++ base ∷ []) }
    ensures elsewhere { OnOk result
        ((k : ℕ) → k ≢ block → bases_at lists.new.items k ≡ bases_at lists.old.items k) }
{
    lists[block].push(base)?;
    Ok(())
}

// The same where the block may have no list yet.
fn add(
    alloc: Global,
    lists: &mut Vec<Vec<IdentityRef>>,
    block: usize,
    base: IdentityRef,
) -> Result<(), AllocError>
    ensures here { OnOk result
        (bases_at lists.new.items block ≡ bases_at lists.old.items block ++ base ∷ []) }
    ensures elsewhere { OnOk result
        ((k : ℕ) → k ≢ block → bases_at lists.new.items k ≡ bases_at lists.old.items k) }
{
    grow(alloc, lists, block)?;
    put(lists, block, base)?;
    Ok(())
}

/// For each block the bases that its statements name, as often as they do. Blocks after the last
/// with a base have no list.
pub(crate) fn bases_inside(
    alloc: Global,
    linked: &Linked<'_, '_>,
) -> Result<Vec<Vec<IdentityRef>>, AllocError>
    ensures { IfOk result
        (λ inside. (files : Files) (choice : ModuleChoice) → AreLinked files choice linked.now
        → (block : ℕ) (base : IdentityRef)
        → IsTrue (list_any (is_at base) (bases_at inside.items block))
        ↔ NamesBase (map brief_of files) (rows_of files) block base) }
{
    let entries = linked.rows().entries();
    let mut inside = Vec::new(alloc);
    for entry in entries {
        if let Some(base) = base_of(linked, entry) {
            add(alloc, &mut inside, entry.scope, base)?;
        }
    }
    Ok(inside)
}
