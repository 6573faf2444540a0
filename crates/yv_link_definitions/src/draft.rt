//! Where definitions have their names, before these are looked at.
ghost use Rattle.std.specs.Prelude.{◌≡◌, Some, IfOk};
ghost use Rattle.yv_link_scopes.specs.{Rows.{Row, row}, Tables.{table_of, first_of}, Views.{rows_in}, declared.kind.NameKind.TheVariants.{Typedef, Grouping, Feature, Identity, Extension}};
ghost use Rattle.yv_link_definitions.specs.Duplicates.{kind_defined, is_of};

use std::alloc::{AllocError, Global};
use yv_link_scopes::{Entry, NameKind, NamePlaces, Rows, definition_places};
use yv_text_statement::Keyword;

/// The statements, and where a name of each kind occurs first in each block.
#[derive(Drop)]
pub(crate) struct Draft<'r, 'a, 'b> {
    pub rows: &'r Rows<'a, 'b>,
    pub features: NamePlaces<'a>,
    pub identities: NamePlaces<'a>,
    pub extensions: NamePlaces<'a>,
    pub typedefs: NamePlaces<'a>,
    pub groupings: NamePlaces<'a>,
    ghost first_features: { table_of features ≡ first_of Feature (rows_in rows.now) },
    ghost first_identities: { table_of identities ≡ first_of Identity (rows_in rows.now) },
    ghost first_extensions: { table_of extensions ≡ first_of Extension (rows_in rows.now) },
    ghost first_typedefs: { table_of typedefs ≡ first_of Typedef (rows_in rows.now) },
    ghost first_groupings: { table_of groupings ≡ first_of Grouping (rows_in rows.now) },
}

impl<'r, 'a, 'b> Draft<'r, 'a, 'b> {
    /// Reads the definitions of these statements.
    pub(crate) fn read(
        alloc: Global,
        rows: &'r Rows<'a, 'b>,
    ) -> Result<Draft<'r, 'a, 'b>, AllocError>
        ensures { IfOk result (λ draft. draft.rows.now ≡ rows.now) }
    {
        let places = definition_places(alloc, rows)?;
        Ok(Draft {
            rows,
            features: places.features,
            identities: places.identities,
            extensions: places.extensions,
            typedefs: places.typedefs,
            groupings: places.groupings,
        })
    }

    /// Where names of a kind occur that is defined in blocks.
    pub(crate) fn places(&self, kind: NameKind) -> &NamePlaces<'a>
        ensures { (r : Row) → kind_defined r ≡ Some kind
            → table_of result.now ≡ first_of kind (rows_in self.now.rows.now) }
    {
        match kind {
            NameKind::Feature => &self.features,
            NameKind::Identity => &self.identities,
            NameKind::Extension => &self.extensions,
            NameKind::Typedef => &self.typedefs,
            _ => &self.groupings,
        }
    }
}

/// Whether a statement has the keyword of a kind.
pub(crate) fn is_of(kind: NameKind, entry: &Entry<'_, '_>) -> bool
    ensures { result ≡ is_of kind (row entry.now) }
{
    match kind {
        NameKind::Prefix => entry.is(Keyword::Prefix),
        NameKind::Include => entry.is(Keyword::Include),
        NameKind::Typedef => entry.is(Keyword::Typedef),
        NameKind::Grouping => entry.is(Keyword::Grouping),
        NameKind::Feature => entry.is(Keyword::Feature),
        NameKind::Identity => entry.is(Keyword::Identity),
        NameKind::Extension => entry.is(Keyword::Extension),
    }
}
