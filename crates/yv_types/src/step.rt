//! The plain types of one type.
ghost use Rattle.std.specs.{Prelude.{◌≡◌, ℕ, List, [], Some, true, map, slice_get, slice_index_or, IfOk, IfSome}, Option.{option_map}};
ghost use Rattle.yv_text_statement.specs.Selection.{ModuleChoice};
ghost use Rattle.yv_link_scopes.specs.{Files.{Files, brief_of}, Rows.{row}, RowList.{rows_of}};
ghost use Rattle.yv_type_chains.specs.Types.{RestsOn, is_kind, types_in};
ghost use Rattle.yv_type_enums.specs.TypeNames.{told_of};
ghost use Rattle.yv_link.specs.LinkedFiles.{AreLinked, truth_in};
ghost use Rattle.yv_values.specs.Types.{Plain, plain_of};
ghost use Rattle.yv_type_identities.specs.Identities.{AreIdentities};
ghost use Rattle.yv_types.specs.{Types.{AreLayers}, Spaces.{Space}, InnerTables.{AreKnown, FollowsNone, IsBare, IsListed, IsNewOrThere, IsSpace, IsUnrestricted, entry_at, entry_of, plains}};

use crate::layers::Layers;
use crate::table::{SharedTypes, join_members, list_at, list_of, one};
use std::alloc::{AllocError, Global};
use std::rc::RcSlice;
use yv_base_tables::{Families, Table};
use yv_link::Linked;
use yv_link_scopes::{Entry, name_of};
use yv_text_statement::Keyword;
use yv_type_enums::{NumberKind, TypeNames};
use yv_type_identities::IdentityLists;
use yv_values::PlainType;

// The plain type of an enumeration or of bits.
fn names_type(names: &TypeNames<'_>) -> Result<PlainType, AllocError>
    ensures { IfOk result (λ p. IsListed (told_of names.now) (plain_of p)) }
{
    let values = names.names.values()?;
    match names.kind {
        NumberKind::Enumeration => Ok(PlainType::Enumeration(values)),
        NumberKind::Bits => Ok(PlainType::Bits(values)),
    }
}

// Whether a statement is a type of this name.
fn is_kind(name: &str, entry: &Entry<'_, '_>) -> bool
    ensures { result ≡ is_kind name.now (row entry.now) }
{
    entry.is(Keyword::Type) && name_of(entry.statement) == name
}

// No types: a list with this number.
fn nothing(alloc: Global, list: usize) -> Result<SharedTypes, AllocError>
    ensures types { IfOk result (λ s. plains s ≡ []) }
    ensures number { IfOk result (λ s. s.list ≡ list) }
{
    let types = RcSlice::from_vec(Vec::new(alloc))?;
    Ok(SharedTypes { types, list })
}

// The types of a type that names a built-in type without facets or names: a list with this number.
fn built_in(
    alloc: Global,
    linked: &Linked<'_, '_>,
    identities: &mut IdentityLists,
    spaces: &Table<SharedTypes>,
    members: &[usize],
    number: usize,
    list: usize,
    entry: &Entry<'_, '_>,
) -> Result<Option<SharedTypes>, AllocError>
    ensures space { AreIdentities linked.now identities.old
        → IfOk result (λ s. (files : Files) (choice : ModuleChoice)
        → AreLinked files choice linked.now
        → slice_get (rows_of files) number ≡ Some (row entry.now) → members.now
        ≡ types_in (rows_of files) number
        → IsBare files (truth_in linked.now) number → FollowsNone files number
        → AreKnown files (truth_in linked.now) choice
        (RestsOn (map brief_of files) (rows_of files) number) spaces.now
        → IsSpace files (truth_in linked.now) choice number (option_map plains s)) }
    ensures keeps { AreIdentities linked.now identities.old
        → AreIdentities linked.now identities.new }
    ensures number { IfOk result (λ s. IfSome s (λ shared. shared.list ≡ list)) }
{
    if is_kind("leafref", entry) {
        return Ok(Some(nothing(alloc, list)?));
    }
    if is_kind("identityref", entry) {
        let values = identities.of(alloc, linked, number)?;
        return Ok(Some(one(alloc, PlainType::Identity(values), list)?));
    }
    if is_kind("union", entry) {
        join_members(alloc, spaces, members, list)
    } else {
        Ok(None)
    }
}

// Whether the numbered statement is a type that says nothing but a name.
fn is_unrestricted(linked: &Linked<'_, '_>, number: usize) -> bool
    ensures { (files : Files) (choice : ModuleChoice) → AreLinked files choice linked.now → result
        ≡ true → IsUnrestricted files number }
{
    match linked.rows().statement(number) {
        Some(statement) => statement.is(Keyword::Type) && statement.children().is_empty(),
        None => false,
    }
}

impl Layers<'_> {
    // The list of the type that the numbered type follows, if that has a plain type of which this
    // one takes nothing away.
    fn shared_types(
        &self,
        linked: &Linked<'_, '_>,
        spaces: &Table<SharedTypes>,
        number: usize,
    ) -> Result<Option<SharedTypes>, AllocError>
        ensures space { IfOk result
            (λ s. (files : Files) (choice : ModuleChoice) → AreLinked files choice linked.now
            → AreLayers files (truth_in linked.now) self.now
            → AreKnown files (truth_in linked.now) choice
            (RestsOn (map brief_of files) (rows_of files) number) spaces.now
            → (ps : List Plain) → option_map plains s ≡ Some ps
            → Space files (truth_in linked.now) choice number ps) }
        ensures there { IfOk result
            (λ s. (x : ℕ × List Plain) → option_map entry_of s ≡ Some x → (k : ℕ)
            × (entry_at spaces.now k ≡ Some x)) }
    {
        crate::laws::a_type_has_one_space();
        if !is_unrestricted(linked, number) {
            return Ok(None);
        }
        match self.bases.follows(number) {
            Some(followed) if self.faceted.plain(followed).is_some() => list_at(spaces, followed),
            _ => Ok(None),
        }
    }

    /// The plain types of the numbered type, the table having those of the types on which it rests.
    /// If one of the common places has them, it is that list; a list that isn't in the table has
    /// this number.
    pub(crate) fn types_at(
        &self,
        alloc: Global,
        linked: &Linked<'_, '_>,
        identities: &mut IdentityLists,
        inside: &Families,
        spaces: &Table<SharedTypes>,
        common: &[usize],
        number: usize,
        list: usize,
    ) -> Result<Option<SharedTypes>, AllocError>
        ensures space { AreIdentities linked.now identities.old
            → IfOk result
            (λ s. (files : Files) (choice : ModuleChoice) → AreLinked files choice linked.now
            → AreLayers files (truth_in linked.now) self.now
            → ((block : ℕ) → slice_index_or inside.now block [] ≡ types_in (rows_of files) block)
            → AreKnown files (truth_in linked.now) choice
            (RestsOn (map brief_of files) (rows_of files) number) spaces.now
            → IsSpace files (truth_in linked.now) choice number (option_map plains s)) }
        ensures keeps { AreIdentities linked.now identities.old
            → AreIdentities linked.now identities.new }
        ensures number { IfOk result (IsNewOrThere spaces.now list) }
    {
        if let Some(plain) = self.faceted.plain(number) {
            if let Some(shared) = self.shared_types(linked, spaces, number)? {
                return Ok(Some(shared));
            }
            return Ok(Some(list_of(alloc, spaces, common, plain, list)?));
        }
        if let Some(names) = self.lists.names(number) {
            return Ok(Some(one(alloc, names_type(names)?, list)?));
        }
        if let Some(followed) = self.bases.follows(number) {
            return list_at(spaces, followed);
        }
        let members = inside.at(number);
        match linked.rows().entries().get(number) {
            Some(entry) => built_in(
                alloc, linked, identities, spaces, members, number, list, entry,
            ),
            None => Ok(None),
        }
    }
}
