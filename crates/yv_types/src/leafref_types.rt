//! What types say as leafrefs, and what readers ask of them.
ghost use Rattle.std.specs.Prelude.{◌≡◌, IfOk};
ghost use Rattle.yv_link_scopes.specs.{Files.{Files}, Views.{lent_in}};
ghost use Rattle.yv_type_chains.specs.Bases.{AreBases};

use crate::leafref_lookup::found_at;
use crate::leafref_path::TypeLeafref;
use std::alloc::{AllocError, Global};
use yv_base_tables::{Sparse, slots};
use yv_link_scopes::Rows;
use yv_type_chains::Bases;

/// What the types of files say as leafrefs, by number.
#[derive(Drop)]
pub struct LeafrefTypes {
    pub(crate) found: Sparse<TypeLeafref>,
}

impl LeafrefTypes {
    ghost use Rattle.yv_types.specs.{LeafrefTypes.{AreLeafrefTypes, found_in}, Referrals.{HasReferral}};

    /// Reads what the types of these statements say, the bases being theirs, in time and memory
    /// linear in statements: no way along typedefs is gone twice. Err only if memory runs out.
    pub fn read(
        alloc: Global,
        rows: &Rows<'_, '_>,
        bases: &Bases,
    ) -> Result<LeafrefTypes, AllocError>
        ensures { IfOk result
            (λ types. (files : Files) → lent_in rows.now ≡ files → AreBases files bases.now
            → AreLeafrefTypes files types) }
    {
        let order = bases.order();
        let mut found = slots::empty(alloc, rows.entries().len())?;
        for number in order {
            let referring = found_at(rows, bases, &found, *number);
            slots::put(&mut found, *number, referring);
        }
        let kept = Sparse::of(alloc, found)?;
        Ok(LeafrefTypes { found: kept })
    }

    /// What the type of this number says as a leafref (RFC 7950, sections 9.9.2 and 9.9.3): the
    /// statement whose path it has, its own or that of the leafref to which it leads along
    /// typedefs, and what the nearest `require-instance` on this way says. None for types that lead
    /// to no leafref, and for other statements.
    pub fn of(&self, number: usize) -> Option<TypeLeafref>
        // The leafref of the type of this number: the `type leafref` statement that gives its path,
        // and whether an instance is required, by the nearest `require-instance`; nothing for all
        // else.
        ensures tells { (files : Files) → AreLeafrefTypes files self.now
            → HasReferral files number result }
        // The same, as what is recorded at the number.
        ensures same { result ≡ found_in self.now number }
    {
        self.found.get(number).copied()
    }
}
