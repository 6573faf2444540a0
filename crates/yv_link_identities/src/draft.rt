//! What is known of the identities before their bases are followed.
ghost use Rattle.std.specs.Prelude.{◌≡◌, IfOk};
ghost use Rattle.yv_link_scopes.specs.{Rows.{row}, Tables.{table_of, first_of}, Views.{files_in, rows_in}, declared.kind.NameKind.TheVariants.{Identity}};
ghost use Rattle.yv_link_identities.specs.{Names.{is_base, identity_meant}, InnerNumbers.{AreNumbers}};

use crate::numbers::Numbers;
use std::alloc::{AllocError, Global};
use yv_link_scopes::{Entry, NameKind, NamePlaces, Rows, first_places, local, name_of};
use yv_text_statement::Keyword;

/// The statements, the names of the identities, and their numbers.
#[derive(Drop)]
pub(crate) struct Draft<'r, 'a, 'b> {
    pub rows: &'r Rows<'a, 'b>,
    pub names: NamePlaces<'a>,
    pub numbers: Numbers,
    ghost named: { table_of names ≡ first_of Identity (rows_in rows.now) },
    ghost numbered: { AreNumbers (rows_in rows.now) numbers },
}

impl<'r, 'a, 'b> Draft<'r, 'a, 'b> {
    /// Reads the identities of these statements.
    pub(crate) fn read(
        alloc: Global,
        rows: &'r Rows<'a, 'b>,
    ) -> Result<Draft<'r, 'a, 'b>, AllocError>
        ensures { IfOk result (λ draft. draft.rows.now ≡ rows.now) }
    {
        let names = first_places(alloc, NameKind::Identity, rows)?;
        let numbers = Numbers::read(alloc, rows)?;
        Ok(Draft {
            rows,
            names,
            numbers,
        })
    }

    /// The number of the statement of the identity that a statement's name means.
    pub(crate) fn meaning(&self, entry: &Entry<'a, 'b>) -> Option<usize>
        ensures { result
            ≡ identity_meant (files_in self.now.rows.now) (rows_in self.now.rows.now)
            (row entry.now) }
    {
        let name = name_of(entry.statement);
        let block = self.rows.block_of(entry.file as usize, name)?;
        self.names.get(block, local(name))
    }
}

/// Whether a statement names a base, of an identity or of a type.
pub(crate) fn is_base(entry: &Entry<'_, '_>) -> bool
    ensures { result ≡ is_base (row entry.now) }
{
    entry.is(Keyword::Base)
}
