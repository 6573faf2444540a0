//! The identities of an identityref type, in one order.
ghost use Rattle.std.specs.{Prelude.{◌≡◌, ◌&&◌, List, ℕ, IfOk, IfSome, is_some, map, take}, List.{list_any}, List.Sorted.{IsSortedByKey}, Rc.{rc_str_bytes}, Str.{bytes_eq}};
ghost use Rattle.yv_values.specs.{Identities.{RiseById, between, id_cmp, id_of, identity_in, is_between, is_identity, numbered_of}, InnerMembers.{with_zero}};

use crate::names::compare;
use crate::numbered_members::{NumberedMember, NumberedMembers, quick_order};
use std::alloc::{AllocError, Global};
use std::cmp::Ordering;
use std::marker::Model;
use std::rc::RcStr;

/// A member of a type, an identity: the module that defines it, and its name. Texts are shared by
/// its copies.
#[derive(PartialEq, Eq, PartialOrd, Ord, Drop)]
pub struct Member {
    pub module: RcStr,
    pub name: RcStr,
}

/// The members of an identityref type, its identities, in the order of their modules and then of
/// their names and each once. Contracts see them as that list. They are some of a list that types
/// share: those whose numbers are from the low one up to the high one, and not that.
#[derive(Drop)]
pub struct Members {
    all: NumberedMembers,
    low: usize,
    high: usize,
}

impl Model for Members {
    ghost use Rattle.std.specs.Prelude.{List};
    ghost use Rattle.yv_values.specs.Identities.{Id, RiseById, between, ids_of};

    ghost Value = { List Id };

    ghost view = { λ i. between i.all i.low i.high };

    ghost invariant = { λ i. RiseById (ids_of i.all) };
}

impl Members {
    /// Puts the identities of a type into their order, each once.
    pub fn new(members: Vec<Member>) -> Result<Members, AllocError>
        // The identities, each once and in the order of their modules and names.
        ensures rises { IfOk result (λ sorted. RiseById sorted) }
        // Each is one exactly if it was one.
        ensures same { IfOk result (λ sorted. (module_name called : List ℕ) →
            identity_in sorted module_name called
            ≡ identity_in (map id_of members.items) module_name called) }
    {
        let mut members = members;
        // Names of modules may be long. This puts the identities into their order without reading
        // those that are shared, and then one comparison of each shows that they are in order.
        members.sort_by(|one, other| quick_order(one, other))?;
        members.sort()?;
        Members::from_sorted(members)
    }

    // Takes the identities of a type in their order, of which some may be there more than once.
    fn from_sorted(members: Vec<Member>) -> Result<Members, AllocError>
        requires { IsSortedByKey id_of id_cmp members.items }
        ensures rises { IfOk result (λ sorted. RiseById sorted) }
        ensures same { IfOk result (λ sorted. (module_name called : List ℕ) →
            identity_in sorted module_name called
            ≡ identity_in (map id_of members.items) module_name called) }
    {
        let mut members = members;
        members.dedup_by(|later, earlier| later.is_same(earlier));
        Members::from_rising(members)
    }

    // Takes the identities of a type in their order.
    fn from_rising(members: Vec<Member>) -> Result<Members, AllocError>
        requires { RiseById (map id_of members.items) }
        ensures { IfOk result (λ sorted. sorted ≡ map id_of members.items) }
    {
        let all = NumberedMembers::from_rising(without_numbers(members)?)?;
        Members::of_numbers(all, 0, 1)
    }

    /// Those of a list whose numbers are from the low one up to the high one, and not that.
    pub(crate) fn of_numbers(
        all: NumberedMembers,
        low: usize,
        high: usize,
    ) -> Result<Members, AllocError>
        ensures same { IfOk result (λ members. members ≡ between all low high) }
        ensures rises { IfOk result (λ members. RiseById members) }
    {
        all.rise();
        Ok(Members { all, low, high })
    }

    /// The first of them, so many at most.
    pub fn front(&self, alloc: Global, most: usize) -> Result<Vec<&Member>, AllocError>
        ensures { IfOk result
            (λ front. map (λ m. id_of m.now) front.items ≡ take most self.now) }
    {
        front_between(alloc, self.all.as_slice(), self.low, self.high, most)
    }

    /// The identity of this module and name, where it is one of these.
    pub(crate) fn find(&self, module: &[u8], name: &[u8]) -> Option<&Member>
        ensures value { is_some result ≡ list_any (is_identity module.now name.now) self.now }
        ensures same { IfSome result
            (λ m. id_of m.now ≡ record { module_name = module.now; name = name.now }) }
    {
        let entry = self.all.find(module, name)?;
        if is_between(self.low, self.high, entry.number) {
            Some(&entry.member)
        } else {
            None
        }
    }

    /// They are in their order.
    pub(crate) fn rise(&self)
        ensures { RiseById self.now }
    {
        // What a value keeps is known where it is read.
        let _low = self.low;
    }

    /// The same identities once more, over the same list.
    pub fn copy(&self) -> Result<Members, AllocError>
        // They are the same.
        ensures same { IfOk result (λ copy. copy ≡ self.now) }
        // They are in order.
        ensures rises { IfOk result (λ copy. RiseById copy) }
    {
        Members::of_numbers(self.all.copy()?, self.low, self.high)
    }
}

impl Member {
    /// The same identity once more, over the same texts.
    pub fn copy(&self) -> Result<Member, AllocError>
        ensures { IfOk result (λ copy. id_of copy ≡ id_of self.now) }
    {
        Ok(Member {
            module: self.module.clone()?,
            name: self.name.clone()?,
        })
    }

    /// Whether it is the identity of this module and name. Names come first, since most differ.
    pub(crate) fn is_named(&self, module: &[u8], name: &[u8]) -> bool
        ensures { result ≡ (bytes_eq (rc_str_bytes self.now.name) name.now
            && bytes_eq (rc_str_bytes self.now.module) module.now) }
    {
        self.name.as_str().as_bytes() == name && self.module.as_str().as_bytes() == module
    }

    // Whether it is the same identity as another.
    fn is_same(&self, other: &Member) -> bool
        ensures { result ≡ (bytes_eq (rc_str_bytes self.now.name) (rc_str_bytes other.now.name)
            && bytes_eq (rc_str_bytes self.now.module) (rc_str_bytes other.now.module)) }
    {
        self.is_named(
            other.module.as_str().as_bytes(),
            other.name.as_str().as_bytes(),
        )
    }

    /// Whether its name comes before another.
    pub(crate) fn is_below(&self, name: &[u8]) -> bool {
        compare(self.name.as_str().as_bytes(), name).is_lt()
    }

    /// Its order beside the identity of this module and name.
    pub(crate) fn compare(&self, module: &[u8], name: &[u8]) -> Ordering
        ensures { result
            ≡ id_cmp (id_of self.now) record { module_name = module.now; name = name.now } }
    {
        compare(self.module.as_str().as_bytes(), module).then(compare(
            self.name.as_str().as_bytes(),
            name,
        ))
    }
}

// Whether a number is from the low one up to the high one, and not that.
fn is_between(low: usize, high: usize, number: usize) -> bool
    ensures { result ≡ is_between low high number }
{
    low <= number && number < high
}

// The first of these whose numbers are from the low one up to the high one, and not that.
fn front_between(
    alloc: Global,
    entries: &[NumberedMember],
    low: usize,
    high: usize,
    most: usize,
) -> Result<Vec<&Member>, AllocError>
    ensures { IfOk result
        (λ front. map (λ m. id_of m.now) front.items
        ≡ take most (between (map numbered_of entries.now) low high)) }
{
    let mut front = Vec::new(alloc);
    for entry in entries {
        if front.len() >= most {
            break;
        }
        if is_between(low, high, entry.number) {
            front.push(&entry.member)?;
        }
    }
    Ok(front)
}

// The same identities, each with the number 0.
fn without_numbers(members: Vec<Member>) -> Result<Vec<NumberedMember>, AllocError>
    ensures { IfOk result (λ entries. entries.items ≡ map with_zero members.items) }
{
    let alloc = *members.allocator();
    members
        .into_iter()
        .map(|member| NumberedMember { member, number: 0 })
        .collect(alloc)
}
