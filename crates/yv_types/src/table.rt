//! Plain types by number.
ghost use Rattle.std.specs.{Prelude.{◌≡◌, ◌≢◌, ◌⊎◌, ◌∷◌, ◌++◌, ℕ, [], true, map, take, IfOk, IfSome, OnOk, Some}, Option.{option_map, option_copied}};
ghost use Rattle.yv_values.specs.Types.{plain_of};
ghost use Rattle.yv_types.specs.InnerTables.{entry_at, entry_of, joined_from, plains, plains_at};

use std::alloc::{AllocError, Global};
use std::rc::RcSlice;
use yv_base_tables::Table;
use yv_values::PlainType;

/// The plain types of a type. Those that share them have one list.
#[derive(Drop)]
pub(crate) struct SharedTypes {
    pub types: RcSlice<PlainType>,
    /// A number of this list, which no other list has.
    pub list: usize,
}

impl SharedTypes {
    /// The same types once more, over the same list.
    pub(crate) fn copy(&self) -> Result<SharedTypes, AllocError>
        ensures { IfOk result (λ copy. entry_of copy ≡ entry_of self.now) }
    {
        Ok(SharedTypes {
            types: self.types.clone()?,
            list: self.list,
        })
    }
}

/// The types at a place.
pub(crate) fn get(spaces: &Table<SharedTypes>, place: usize) -> Option<&SharedTypes>
    ensures types { option_map plains (option_copied result) ≡ plains_at spaces.now place }
    ensures entry { option_map entry_of (option_copied result) ≡ entry_at spaces.now place }
{
    spaces.get(place)
}

/// The types at a place once more.
pub(crate) fn list_at(
    spaces: &Table<SharedTypes>,
    place: usize,
) -> Result<Option<SharedTypes>, AllocError>
    ensures types { IfOk result (λ s. option_map plains s ≡ plains_at spaces.now place) }
    ensures entry { IfOk result (λ s. option_map entry_of s ≡ entry_at spaces.now place) }
{
    match get(spaces, place) {
        Some(space) => Ok(Some(space.copy()?)),
        None => Ok(None),
    }
}

/// Puts types, or none, at a place.
pub(crate) fn put(
    spaces: &mut Table<SharedTypes>,
    place: usize,
    space: Option<SharedTypes>,
) -> Result<(), AllocError>
    ensures here { OnOk result (plains_at spaces.new place ≡ option_map plains space) }
    ensures elsewhere { OnOk result
        ((k : ℕ) → k ≢ place → plains_at spaces.new k ≡ plains_at spaces.old k) }
    ensures entries { OnOk result
        ((k : ℕ) → (entry_at spaces.new k ≡ entry_at spaces.old k)
        ⊎ (entry_at spaces.new k ≡ option_map entry_of space)) }
{
    spaces.put(place, space)?;
    Ok(())
}

/// A list of one type, with this number.
pub(crate) fn one(alloc: Global, plain: PlainType, list: usize) -> Result<SharedTypes, AllocError>
    ensures types { IfOk result (λ shared. plains shared ≡ plain_of plain ∷ []) }
    ensures number { IfOk result (λ shared. shared.list ≡ list) }
{
    let mut all = Vec::with_capacity(alloc, 1)?;
    all.push(plain)?;
    let types = RcSlice::from_vec(all)?;
    Ok(SharedTypes { types, list })
}

// Whether these are one type, and are seen to be this one.
fn is_one(types: &[PlainType], plain: &PlainType) -> bool
    ensures { result ≡ true → map plain_of types.now ≡ plain_of plain.now ∷ [] }
{
    match types {
        [only] => only.is_same(plain),
        _ => false,
    }
}

// The list at one of these places that is seen to have this type alone, if there is one.
fn shared_at(
    spaces: &Table<SharedTypes>,
    places: &[usize],
    plain: &PlainType,
) -> Result<Option<SharedTypes>, AllocError>
    ensures types { IfOk result
        (λ s. IfSome s (λ shared. plains shared ≡ plain_of plain.now ∷ [])) }
    ensures there { IfOk result (λ s. IfSome s
        (λ shared. (k : ℕ) × (entry_at spaces.now k ≡ Some (entry_of shared)))) }
{
    for place in places {
        match get(spaces, *place) {
            Some(space) if is_one(&space.types, plain) => return Ok(Some(space.copy()?)),
            _ => {}
        }
    }
    Ok(None)
}

/// A list of one type: one at these places that is seen to have it, or else one with this number.
pub(crate) fn list_of(
    alloc: Global,
    spaces: &Table<SharedTypes>,
    places: &[usize],
    plain: &PlainType,
    list: usize,
) -> Result<SharedTypes, AllocError>
    ensures types { IfOk result (λ shared. plains shared ≡ plain_of plain.now ∷ []) }
    ensures number { IfOk result (λ shared. (shared.list ≡ list)
        ⊎ ((k : ℕ) × (entry_at spaces.now k ≡ Some (entry_of shared)))) }
{
    match shared_at(spaces, places, plain)? {
        Some(shared) => Ok(shared),
        None => one(alloc, plain.copy()?, list),
    }
}

// Puts copies of types after others.
fn extend(all: &mut Vec<PlainType>, types: &[PlainType]) -> Result<(), AllocError>
    ensures { OnOk result
        (map plain_of all.new.items ≡ map plain_of all.old.items ++ map plain_of types.now) }
{
    for plain in types {
        all.push(plain.copy()?)?;
    }
    Ok(())
}

/// The types of members, one after the other, if each has some: a list with this number.
pub(crate) fn join_members(
    alloc: Global,
    spaces: &Table<SharedTypes>,
    members: &[usize],
    list: usize,
) -> Result<Option<SharedTypes>, AllocError>
    ensures types { IfOk result
        (λ shared. option_map plains shared ≡ joined_from spaces.now [] members.now) }
    ensures number { IfOk result (λ shared. IfSome shared (λ s. s.list ≡ list)) }
{
    let mut all = Vec::new(alloc);
    for member in members {
        let Some(space) = get(spaces, *member) else {
            return Ok(None);
        };
        extend(&mut all, &space.types)?;
    }
    let types = RcSlice::from_vec(all)?;
    Ok(Some(SharedTypes { types, list }))
}
