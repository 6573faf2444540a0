//! The plain types of types, and what readers ask of them.
ghost use Rattle.std.specs.{Prelude.{◌≡◌, ℕ, List, None, Some, codes, map, IfOk, IfSome}, Option.{option_copied, option_map}, Rc.{rc_slice_items}};
ghost use Rattle.yv_text_statement.specs.Selection.{ModuleChoice};
ghost use Rattle.yv_link_scopes.specs.{Files.{Files}, RowList.{rows_of}};
ghost use Rattle.yv_link_definitions.specs.References.{number_at};
ghost use Rattle.yv_type_enums.specs.Types.{Truth};
ghost use Rattle.yv_values.specs.Types.{Plain, plain_of};
ghost use Rattle.yv_types.specs.{Spaces.{Space}, InnerTables.{AreNumbered}};
ghost use Rattle.yv_text_statement.specs.TextInFile.{written_of};

use crate::defaults::TypedefDefaults;
use crate::leafref_path::TypeLeafref;
use crate::leafref_types::LeafrefTypes;
use crate::table::{SharedTypes, get, list_at};
use std::alloc::AllocError;
use std::rc::RcSlice;
use yv_base_tables::Table;
use yv_link_definitions::PlaceList;
use yv_text_statement::{Statement, WrittenText};
use yv_values::PlainType;

/// The plain types and the defaults of the types of files in which nothing is wrong with types, and
/// what they say as leafrefs.
#[derive(Drop)]
pub struct Types {
    pub(crate) spaces: Table<SharedTypes>,
    pub(crate) defaults: TypedefDefaults,
    pub(crate) leafrefs: LeafrefTypes,
    pub(crate) places: PlaceList,
    ghost numbered: { AreNumbered spaces },
}

impl Types {
    ghost use Rattle.yv_types.specs.Types.{AreTypes, default_at, referring_at, sharing_at, space_at};

    /// The plain types of the first type statement at an offset (bytes) of a file, typedefs
    /// followed and unions opened in order (RFC 7950, section 9.12): no types for a leafref, whose
    /// values are its target's. None where there is no type, and for types that lead to
    /// instance-identifier and unions with such a member. Takes time log n.
    pub fn plain(&self, file: u32, offset: u64) -> Option<&[PlainType]>
        // The plain types of the type statement at an offset of a file, unions opened in order;
        // none only if it has none.
        ensures tells { (files : Files) (choice : ModuleChoice) (truth : Truth)
            → AreTypes files choice truth self.now
            → IfSome result
            (λ types. (k : ℕ) × (number_at (rows_of files) (codes "type") file offset ≡ Some k)
            × Space files truth choice k (map plain_of types.now)) }
        ensures none { (files : Files) (choice : ModuleChoice) (truth : Truth)
            → AreTypes files choice truth self.now
            → result ≡ None → (k : ℕ) → number_at (rows_of files) (codes "type") file offset
            ≡ Some k
            → (types : List Plain) → Space files truth choice k types → ⊥ }
        ensures same { option_map (λ types. map plain_of types.now) result
            ≡ space_at self.now file offset }
    {
        let number = self.places.get(file, offset)?;
        Some(get(&self.spaces, number)?.types.as_slice())
    }

    /// The same for a type statement of a file, by the place of its keyword.
    pub fn plain_of(&self, file: u32, statement: &Statement<'_>) -> Option<&[PlainType]>
        // The plain types of the type statement of the file that begins where this one does.
        ensures tells { (files : Files) (choice : ModuleChoice) (truth : Truth)
            → AreTypes files choice truth self.now
            → IfSome result
            (λ types. (k : ℕ)
            × (number_at (rows_of files) (codes "type") file statement.now.head.offset ≡ Some k)
            × Space files truth choice k (map plain_of types.now)) }
        // Without an answer the statement has no plain types.
        ensures none { (files : Files) (choice : ModuleChoice) (truth : Truth)
            → AreTypes files choice truth self.now
            → result ≡ None → (k : ℕ)
            → number_at (rows_of files) (codes "type") file statement.now.head.offset ≡ Some k
            → (types : List Plain) → Space files truth choice k types → ⊥ }
        // The same, as what is recorded at the place.
        ensures same { option_map (λ types. map plain_of types.now) result
            ≡ space_at self.now file statement.now.head.offset }
    {
        self.plain(file, statement.offset())
    }

    /// The same, as the list itself, which its types share.
    pub fn at(&self, file: u32, offset: u64) -> Result<Option<RcSlice<PlainType>>, AllocError>
        // The plain types of the type statement at this place, as a shared list.
        ensures tells { IfOk result
            (λ found. (files : Files) (choice : ModuleChoice) (truth : Truth)
            → AreTypes files choice truth self.now
            → IfSome found
            (λ types. (k : ℕ) × (number_at (rows_of files) (codes "type") file offset ≡ Some k)
            × Space files truth choice k (map plain_of (rc_slice_items types)))) }
        // Without an answer the statement has no plain types.
        ensures none { IfOk result
            (λ found. (files : Files) (choice : ModuleChoice) (truth : Truth)
            → AreTypes files choice truth self.now
            → found ≡ None → (k : ℕ) → number_at (rows_of files) (codes "type") file offset ≡ Some k
            → (types : List Plain) → Space files truth choice k types → ⊥) }
        // The same, as what is recorded at the place.
        ensures same { IfOk result
            (λ found. option_map (λ types. map plain_of (rc_slice_items types)) found
            ≡ space_at self.now file offset) }
    {
        let Some(number) = self.places.get(file, offset) else {
            return Ok(None);
        };
        match list_at(&self.spaces, number)? {
            Some(shared) => Ok(Some(shared.types)),
            None => Ok(None),
        }
    }

    /// The default that the first type statement at an offset (bytes) of a file has by its typedefs
    /// (RFC 7950, section 7.3.4), with the file in which it is written. None where there is no
    /// type, and where no typedef says one.
    pub fn default_at(&self, file: u32, offset: u64) -> Option<&WrittenText>
        ensures { option_map written_of (option_copied result) ≡ default_at self.now file offset }
    {
        let number = self.places.get(file, offset)?;
        self.defaults.of(number)
    }

    /// Numbers of the list of plain types of the first type statement at an offset (bytes) of a
    /// file, and of the typedef that says its default. Type statements with the same numbers have
    /// the same plain types and the same default. None where there is no list or no default.
    pub fn sharing_at(&self, file: u32, offset: u64) -> Option<(usize, usize)>
        // What is recorded as the numbers of the plain types and of the default of the type
        // statement at an offset of a file.
        ensures numbers { result ≡ sharing_at self.now file offset }
        // Type statements with the same numbers have the same plain types and the same default.
        ensures same { (f o : ℕ) (numbers : ℕ × ℕ) → result ≡ Some numbers → sharing_at self.now f o
            ≡ Some numbers
            → (space_at self.now f o ≡ space_at self.now file offset)
            × (default_at self.now f o ≡ default_at self.now file offset) }
    {
        let number = self.places.get(file, offset)?;
        let list = get(&self.spaces, number)?.list;
        let typedef = self.defaults.typedef(number)?;
        Some((list, typedef))
    }

    /// What the first type statement at an offset (bytes) of a file says as a leafref, by itself or
    /// along its typedefs (RFC 7950, sections 9.9.2 and 9.9.3). None where there is no type, and
    /// where it leads to no leafref.
    pub fn referring_at(&self, file: u32, offset: u64) -> Option<TypeLeafref>
        ensures { result ≡ referring_at self.now file offset }
    {
        let number = self.places.get(file, offset)?;
        self.leafrefs.of(number)
    }
}
