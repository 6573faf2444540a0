//! The names of an enumeration or of a bits type, in one order.
ghost use Rattle.std.specs.{Prelude.{◌≡◌, ℕ, List, IfOk, IfSome, is_some, length}, Cmp.Lexicographic.{slice_cmp}, List.{filter}, Ordering.{nat_cmp}, Rc.{rc_str_bytes}, Str.{bytes_eq}};
ghost use Rattle.yv_values.specs.{InnerNames.{is_below, Ascends}, NameOrder.{Rises, is_named}, Values.{texts}};

use std::alloc::AllocError;
use std::cmp::Ordering;
use std::marker::Model;
use std::rc::{RcSlice, RcStr};

/// The names of an enumeration or of a bits type, in the order of their bytes and each once, so
/// that each set of bits is one list, and a name is found by halves. Contracts see it as that list.
#[derive(Drop)]
pub struct NameSet {
    names: RcSlice<RcStr>,
}

impl Model for NameSet {
    ghost use Rattle.std.specs.{Prelude.{ℕ, List}, Rc.{rc_slice_items}};
    ghost use Rattle.yv_values.specs.{NameOrder.{Rises}, Values.{texts}};

    ghost Value = { List (List ℕ) };

    ghost view = { λ b. texts (rc_slice_items b.names) };

    ghost invariant = { λ b. Rises (texts (rc_slice_items b.names)) };
}

impl NameSet {
    /// Puts the names of a type into their order, each once.
    pub fn new(names: Vec<RcStr>) -> Result<NameSet, AllocError>
        // The names, each once and in the order of their bytes.
        ensures rises { IfOk result (λ sorted. Rises sorted) }
        // Each text is a name exactly if it was one.
        ensures same { IfOk result
            (λ sorted. (s : List ℕ) → is_named sorted s ≡ is_named (texts names.items) s) }
    {
        let mut names = names;
        names.sort()?;
        names.dedup();
        Ok(NameSet {
            names: RcSlice::from_vec(names)?,
        })
    }

    /// How many there are.
    pub(crate) fn len(&self) -> usize
        ensures { result ≡ length self.now }
    {
        self.names.len()
    }

    /// They, in their order.
    pub fn as_slice(&self) -> &[RcStr]
        ensures { texts result.now ≡ self.now }
    {
        &self.names
    }

    pub(crate) fn has(&self, text: &[u8]) -> bool
        ensures { result ≡ is_named self.now text.now }
    {
        !self.equal_to(text).is_empty()
    }

    /// The name that is this text, as the type keeps it.
    pub(crate) fn find(&self, text: &[u8]) -> Option<&RcStr>
        ensures value { is_some result ≡ is_named self.now text.now }
        ensures same { IfSome result (λ name. rc_str_bytes name.now ≡ text.now) }
    {
        self.equal_to(text).first()
    }

    /// The names that are this text: one where it is a name, since each occurs once.
    pub(crate) fn equal_to(&self, text: &[u8]) -> &[RcStr]
        ensures names { texts result.now ≡ filter (λ n. bytes_eq n text.now) self.now }
        ensures order { Ascends self.now }
    {
        let low = self
            .names
            .partition_point(|name| is_below(name.as_str().as_bytes(), text));
        let (_, rest) = self.names.split_at(low);
        let count = rest.partition_point(|name| !is_below(text, name.as_str().as_bytes()));
        &rest[..count]
    }

    /// They are in their order.
    pub(crate) fn rise(&self)
        ensures { Rises self.now }
    {
        // What a value keeps is known where it is read.
        let _count = self.names.len();
    }

    pub(crate) fn copy(&self) -> Result<NameSet, AllocError>
        ensures { IfOk result (λ copy. copy ≡ self.now) }
    {
        Ok(NameSet {
            names: self.names.clone()?,
        })
    }
}

// Whether the one text comes before the other.
fn is_below(one: &[u8], other: &[u8]) -> bool
    ensures { result ≡ is_below one.now other.now }
{
    compare(one, other).is_lt()
}

/// The order of the bytes.
pub fn compare<'a>(one: &'a [u8], other: &'a [u8]) -> Ordering
    ensures { result ≡ slice_cmp nat_cmp one.now other.now }
{
    Ord::cmp(&one, &other)
}
