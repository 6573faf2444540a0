//! The kinds of names, and where a name of a kind occurs first.
ghost use Rattle.std.specs.Prelude.{◌≡◌, ◌+◌, ℕ, List, Some, map, slice_get, take, IfOk, OnOk};
ghost use Rattle.yv_text_statement.specs.Keywords.{spelling};
ghost use Rattle.yv_link_scopes.specs.{Tables.{table_of, word_of, place_of_kind, first_of}, Files.{has_word}, Rows.{Row, row}, Views.{rows_in}, InnerPlaces.{AreFirst}, InnerDefinitions.{ArePlaces}, declared.kind.NameKind.TheVariants.{Typedef, Grouping, Feature, Identity, Extension}};

use crate::entry::Entry;
use crate::names::name_of;
use crate::places::NamePlaces;
use crate::rows::Rows;
use std::alloc::{AllocError, Global};
use yv_text_statement::Keyword;

/// The kind of a statement's name: what it names.
#[derive(Clone, Copy, Debug, PartialEq, Eq)]
pub enum NameKind {
    Prefix,
    Include,
    Typedef,
    Grouping,
    Feature,
    Identity,
    Extension,
}

impl NameKind {
    // The keyword of the statements that give such names.
    fn keyword(self) -> Keyword
        ensures { spelling result ≡ Some (word_of self) }
    {
        match self {
            NameKind::Prefix => Keyword::Prefix,
            NameKind::Include => Keyword::Include,
            NameKind::Typedef => Keyword::Typedef,
            NameKind::Grouping => Keyword::Grouping,
            NameKind::Feature => Keyword::Feature,
            NameKind::Identity => Keyword::Identity,
            NameKind::Extension => Keyword::Extension,
        }
    }

    // The number of the file or of the block in which a statement's name counts.
    fn place(self, entry: &Entry<'_, '_>) -> usize
        ensures { result ≡ place_of_kind self (row entry.now) }
    {
        match self {
            NameKind::Prefix | NameKind::Include => entry.file as usize,
            _ => entry.scope,
        }
    }
}

// Whether a statement gives names of a kind.
fn gives_names(kind: NameKind, entry: &Entry<'_, '_>) -> bool
    ensures { result ≡ has_word (word_of kind) (row entry.now).head }
{
    entry.is(kind.keyword())
}

// Keeps the name of the next statement, where that is of the kind and its name is new.
fn keep_name<'a>(
    places: &mut NamePlaces<'a>,
    kind: NameKind,
    number: usize,
    entry: &Entry<'a, '_>,
) -> Result<(), AllocError>
    ensures { (rows : List Row) → slice_get rows number ≡ Some (row entry.now)
        → AreFirst kind (take number rows) places.old
        → OnOk result (AreFirst kind (take (number + 1) rows) places.new) }
{
    if gives_names(kind, entry) {
        let place = kind.place(entry);
        let name = name_of(entry.statement);
        places.keep(place, name.as_bytes(), number)?;
    }
    Ok(())
}

/// The first of these statements of a kind with each name.
pub(crate) fn first_entries<'a>(
    alloc: Global,
    kind: NameKind,
    entries: &[Entry<'a, '_>],
) -> Result<NamePlaces<'a>, AllocError>
    ensures { IfOk result
        (λ places. (s : ℕ) (n : List ℕ) → table_of places s n
        ≡ first_of kind (map row entries.now) s n) }
{
    let mut places = NamePlaces::new(alloc);
    for (number, entry) in entries.iter().enumerate() {
        keep_name(&mut places, kind, number, entry)?;
    }
    Ok(places)
}

/// The first statement of a kind with each name, in its block, or for prefixes and includes in its
/// file.
pub fn first_places<'a>(
    alloc: Global,
    kind: NameKind,
    rows: &Rows<'a, '_>,
) -> Result<NamePlaces<'a>, AllocError>
    ensures { IfOk result (λ places. table_of places ≡ first_of kind (rows_in rows.now)) }
{
    first_entries(alloc, kind, rows.entries())
}

/// Where the names of definitions occur first, in their blocks.
#[derive(Drop)]
pub struct DefinitionPlaces<'a> {
    pub features: NamePlaces<'a>,
    pub identities: NamePlaces<'a>,
    pub extensions: NamePlaces<'a>,
    pub typedefs: NamePlaces<'a>,
    pub groupings: NamePlaces<'a>,
}

impl<'a> DefinitionPlaces<'a> {
    // Keeps the name of the next statement, where that is a definition and its name is new.
    fn add(&mut self, number: usize, entry: &Entry<'a, '_>) -> Result<(), AllocError>
        ensures { (rows : List Row) → slice_get rows number ≡ Some (row entry.now)
            → ArePlaces (take number rows) self.old
            → OnOk result (ArePlaces (take (number + 1) rows) self.new) }
    {
        match entry.kind() {
            Keyword::Feature => keep_name(&mut self.features, NameKind::Feature, number, entry),
            Keyword::Identity => keep_name(&mut self.identities, NameKind::Identity, number, entry),
            Keyword::Extension => keep_name(
                &mut self.extensions,
                NameKind::Extension,
                number,
                entry,
            ),
            Keyword::Typedef => keep_name(&mut self.typedefs, NameKind::Typedef, number, entry),
            Keyword::Grouping => keep_name(&mut self.groupings, NameKind::Grouping, number, entry),
            _ => Ok(()),
        }
    }
}

/// The first statement of each kind of definition with each name, in its block: what `first_places`
/// gives for each of these kinds, in one pass over the statements.
pub fn definition_places<'a>(
    alloc: Global,
    rows: &Rows<'a, '_>,
) -> Result<DefinitionPlaces<'a>, AllocError>
    // The first feature of each name in its block.
    ensures features { IfOk result
        (λ places. table_of places.features ≡ first_of Feature (rows_in rows.now)) }
    // The first identity of each.
    ensures identities { IfOk result
        (λ places. table_of places.identities ≡ first_of Identity (rows_in rows.now)) }
    // The first extension of each.
    ensures extensions { IfOk result
        (λ places. table_of places.extensions ≡ first_of Extension (rows_in rows.now)) }
    // The first typedef of each.
    ensures typedefs { IfOk result
        (λ places. table_of places.typedefs ≡ first_of Typedef (rows_in rows.now)) }
    // The first grouping of each.
    ensures groupings { IfOk result
        (λ places. table_of places.groupings ≡ first_of Grouping (rows_in rows.now)) }
{
    let mut places = DefinitionPlaces {
        features: NamePlaces::new(alloc),
        identities: NamePlaces::new(alloc),
        extensions: NamePlaces::new(alloc),
        typedefs: NamePlaces::new(alloc),
        groupings: NamePlaces::new(alloc),
    };
    for (number, entry) in rows.entries().iter().enumerate() {
        places.add(number, entry)?;
    }
    Ok(places)
}
