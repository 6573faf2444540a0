//! Identities with numbers, in one order.
ghost use Rattle.std.specs.{Prelude.{◌≡◌, ◌<◌, ◌-◌, ◌&&◌, Some, true, false, Bool, IfNone, IfOk, IfSome, IsTrue, is_some, map, slice_get}, List.{Contains, list_any}, List.Sorted.{IsSortedByKey}, Ordering.{is_lt}, declared.cmp.Ordering.TheVariants.{Less, Greater}};
ghost use Rattle.yv_values.specs.{Identities.{HasTwins, NumberedId, RiseById, between, id_cmp, id_of, ids_of, is_identity, numbered_of}, InnerMembers.{HasStop, entry_id}};

use crate::members::{Member, Members};
use crate::names::compare;
use std::alloc::{AllocError, Global};
use std::cmp::Ordering;
use std::marker::Model;
use std::rc::{RcSlice, RcStr};

/// An identity with a number. Types take the identities whose numbers follow one another.
#[derive(PartialEq, Eq, PartialOrd, Ord, Drop)]
pub struct NumberedMember {
    pub member: Member,
    pub number: usize,
}

/// Identities with numbers, in the order of their modules and then of their names and each once, so
/// that one is found by halves. Contracts see them as that list. Types share it.
#[derive(Drop)]
pub struct NumberedMembers {
    members: RcSlice<NumberedMember>,
    // The places at which another module begins. Names of modules may be long, so a search goes by
    // these. It looks at what it finds, and only its time depends on them.
    starts: RcSlice<usize>,
}

impl Model for NumberedMembers {
    ghost use Rattle.std.specs.{Prelude.{List, map}, Rc.{rc_slice_items}};
    ghost use Rattle.yv_values.specs.{Identities.{NumberedId, RiseById, numbered_of}, InnerMembers.{entry_id}};

    ghost Value = { List NumberedId };

    ghost view = { λ i. map numbered_of (rc_slice_items i.members) };

    ghost invariant = { λ i. RiseById (map entry_id (rc_slice_items i.members)) };
}

impl NumberedMembers {
    /// Puts identities into their order; nothing, if one of them is there twice.
    pub fn new(members: Vec<NumberedMember>) -> Result<Option<NumberedMembers>, AllocError>
        // Identities with numbers, in the order of their modules and names: each is one with its
        // number exactly if it was one; nothing, if one is there twice.
        ensures same { IfOk result (λ found. IfSome found (λ all. (p : NumberedId → Bool)
            → list_any p all ≡ list_any p (map numbered_of members.items))) }
        // It is nothing only if one is there twice.
        ensures twins { IfOk result (λ found.
            IfNone found (HasTwins (map numbered_of members.items))) }
    {
        let mut members = members;
        // Names of modules may be long. This puts the identities into their order without reading
        // those that are shared, and then one comparison of each shows that they are in order. No
        // contract says that texts are the same which are at one place; where the comparison
        // doesn't show it, all are read.
        members.sort_by(|one, other| quick_order(&one.member, &other.member))?;
        if rise(&members) {
            Ok(Some(NumberedMembers::from_rising(members)?))
        } else {
            NumberedMembers::by_texts(members)
        }
    }

    // Puts identities into their order by all of their texts; nothing, if one of them is there
    // twice.
    fn by_texts(members: Vec<NumberedMember>) -> Result<Option<NumberedMembers>, AllocError>
        ensures same { IfOk result (λ found. IfSome found (λ all. (p : NumberedId → Bool)
            → list_any p all ≡ list_any p (map numbered_of members.items))) }
        ensures twins { IfOk result (λ found.
            IfNone found (HasTwins (map numbered_of members.items))) }
    {
        let mut members = members;
        members.sort()?;
        NumberedMembers::from_sorted(members)
    }

    // Takes identities in their order, if none of them is there twice.
    fn from_sorted(members: Vec<NumberedMember>) -> Result<Option<NumberedMembers>, AllocError>
        requires { IsSortedByKey entry_id id_cmp members.items }
        ensures same { IfOk result (λ found. IfSome found (λ all.
            all ≡ map numbered_of members.items)) }
        ensures twins { IfOk result (λ found.
            IfNone found (HasTwins (map numbered_of members.items))) }
    {
        if !rise(&members) {
            return Ok(None);
        }
        Ok(Some(NumberedMembers::from_rising(members)?))
    }

    /// Takes identities in their order.
    pub(crate) fn from_rising(members: Vec<NumberedMember>) -> Result<NumberedMembers, AllocError>
        requires { RiseById (map entry_id members.items) }
        ensures { IfOk result (λ all. all ≡ map numbered_of members.items) }
    {
        let starts = starts_of(*members.allocator(), &members)?;
        Ok(NumberedMembers {
            members: RcSlice::from_vec(members)?,
            starts,
        })
    }

    /// Those whose numbers are from the low one up to the high one, and not that.
    pub fn between(&self, low: usize, high: usize) -> Result<Members, AllocError>
        // Those whose numbers are from the low one up to the high one, and not that, over the same
        // list.
        ensures same { IfOk result (λ members. members ≡ between self.now low high) }
        // They are in order.
        ensures rises { IfOk result (λ members. RiseById members) }
    {
        Members::of_numbers(self.copy()?, low, high)
    }

    /// They, in their order.
    pub(crate) fn as_slice(&self) -> &[NumberedMember]
        ensures { map numbered_of result.now ≡ self.now }
    {
        &self.members
    }

    /// The identity of this module and name, where it is one of these.
    pub(crate) fn find(&self, module: &[u8], name: &[u8]) -> Option<&NumberedMember>
        ensures value { is_some result
            ≡ list_any (is_identity module.now name.now) (ids_of self.now) }
        ensures same { IfSome result (λ m. id_of m.now.member
            ≡ record { module_name = module.now; name = name.now }) }
        ensures there { IfSome result (λ m. Contains self.now (numbered_of m.now)) }
    {
        let at = self.likely_place(module, name);
        match self.match_at(at, module, name) {
            Some(member) => Some(member),
            None if self.is_absent(at, module, name) => None,
            None => self.search(module, name),
        }
    }

    // Where the identity of this module and name is, or would be, if the starts are right.
    fn likely_place(&self, module: &[u8], name: &[u8]) -> usize {
        let count = self
            .starts
            .partition_point(|start| self.is_up_to(*start, module));
        let low = match count.checked_sub(1) {
            Some(last) => self.starts.get(last).copied().unwrap_or(0),
            None => 0,
        };
        let high = self
            .starts
            .get(count)
            .copied()
            .unwrap_or(self.members.len());
        match self.members.get(low..high) {
            Some(span) => {
                low.saturating_add(span.partition_point(|entry| entry.member.is_below(name)))
            }
            None => low,
        }
    }

    // Whether the module of the identity at a place is this one or comes before it.
    fn is_up_to(&self, place: usize, module: &[u8]) -> bool {
        match self.members.get(place) {
            Some(entry) => compare(entry.member.module.as_str().as_bytes(), module).is_le(),
            None => false,
        }
    }

    // The identity at a place, if it is the one of this module and name.
    fn match_at(&self, place: usize, module: &[u8], name: &[u8]) -> Option<&NumberedMember>
        ensures any { IfSome result (λ m.
            list_any (is_identity module.now name.now) (ids_of self.now) ≡ true) }
        ensures same { IfSome result (λ m. id_of m.now.member
            ≡ record { module_name = module.now; name = name.now }) }
        ensures there { IfSome result (λ m. Contains self.now (numbered_of m.now)) }
    {
        match self.members.get(place) {
            Some(entry) if entry.member.is_named(module, name) => Some(entry),
            _ => None,
        }
    }

    // Whether the identities before and at a place show that none is of this module and name.
    fn is_absent(&self, place: usize, module: &[u8], name: &[u8]) -> bool
        ensures { IsTrue result
            → list_any (is_identity module.now name.now) (ids_of self.now) ≡ false }
    {
        stands_after(&self.members, place, module, name)
            && stands_before(&self.members, place, module, name)
    }

    // The same as `find`, whatever the starts are.
    fn search(&self, module: &[u8], name: &[u8]) -> Option<&NumberedMember>
        ensures value { is_some result
            ≡ list_any (is_identity module.now name.now) (ids_of self.now) }
        ensures same { IfSome result (λ m. id_of m.now.member
            ≡ record { module_name = module.now; name = name.now }) }
        ensures there { IfSome result (λ m. Contains self.now (numbered_of m.now)) }
    {
        match self
            .members
            .binary_search_by(|entry| entry.member.compare(module, name))
        {
            Ok(at) => Some(&self.members[at]),
            Err(_) => None,
        }
    }

    /// They are in their order.
    pub(crate) fn rise(&self)
        ensures { RiseById (ids_of self.now) }
    {
        // What a value keeps is known where it is read.
        let _count = self.members.len();
    }

    /// The same identities once more, over the same list.
    pub(crate) fn copy(&self) -> Result<NumberedMembers, AllocError>
        ensures { IfOk result (λ copy. copy ≡ self.now) }
    {
        let members = self.members.clone()?;
        let starts = self.starts.clone()?;
        Ok(NumberedMembers { members, starts })
    }
}

// Whether this identity is after the one before a place, where there is one.
fn stands_after(members: &[NumberedMember], place: usize, module: &[u8], name: &[u8]) -> bool
    ensures { IsTrue result → 0 < place
        → (m : NumberedMember) × (slice_get members.now (place - 1) ≡ Some m)
        × (id_cmp (entry_id m) record { module_name = module.now; name = name.now } ≡ Less) }
{
    if place == 0 {
        return true;
    }
    match members.get(place - 1) {
        Some(entry) => entry.member.compare(module, name).is_lt(),
        None => false,
    }
}

// Whether this identity comes before the one at a place, where there is one.
fn stands_before(members: &[NumberedMember], place: usize, module: &[u8], name: &[u8]) -> bool
    ensures { IsTrue result → (m : NumberedMember) → slice_get members.now place ≡ Some m
        → id_cmp (entry_id m) record { module_name = module.now; name = name.now } ≡ Greater }
{
    match members.get(place) {
        Some(entry) => entry.member.compare(module, name).is_gt(),
        None => true,
    }
}

/// The order of two identities. Those of one file share the text of its module, which is not read.
pub(crate) fn quick_order(one: &Member, other: &Member) -> Ordering {
    if RcStr::ptr_eq(&one.module, &other.module) {
        one.name.cmp(&other.name)
    } else {
        one.cmp(other)
    }
}

// Whether each identity comes before the next.
fn rise(members: &[NumberedMember]) -> bool
    ensures rises { IsTrue result → RiseById (map entry_id members.now) }
    ensures stops { result ≡ false → HasStop members.now }
{
    for place in 1..members.len() {
        if !stands_first(&members[place - 1].member, &members[place].member) {
            return false;
        }
    }
    true
}

// Whether an identity comes before another.
fn stands_first(one: &Member, other: &Member) -> bool
    ensures first { IsTrue result → id_cmp (id_of one.now) (id_of other.now) ≡ Less }
    ensures not { result ≡ false → is_lt (id_cmp (id_of one.now) (id_of other.now)) ≡ false }
{
    let module = other.module.as_str().as_bytes();
    let name = other.name.as_str().as_bytes();
    one.compare(module, name).is_lt()
}

// Whether two identities are of different modules. Those of one file share the text of its module.
fn are_apart(one: &Member, other: &Member) -> bool {
    !RcStr::ptr_eq(&one.module, &other.module) && one.module != other.module
}

// The places at which another module begins.
fn starts_of(alloc: Global, members: &[NumberedMember]) -> Result<RcSlice<usize>, AllocError> {
    let mut starts = Vec::new(alloc);
    for place in 1..members.len() {
        if are_apart(&members[place - 1].member, &members[place].member) {
            starts.push(place)?;
        }
    }
    RcSlice::from_vec(starts)
}
