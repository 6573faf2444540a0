//! The numbers of the names of enumerations and bits.
ghost use Rattle.std.specs.Prelude.{◌≡◌, ℕ, List, None, Some, is_some, IfOk};
ghost use Rattle.yv_base_numbers.specs.{InnerEarlierEntries.{Adds, Gives, Tells, first_with}, Numberings.{Pair, number_in, keep_numbers, is_wrong_in, pair_in, IsFirstWrong, table_of}};

use crate::stated_numbers::agrees;
use std::alloc::{AllocError, Global};
use std::collections::BTreeMap;
use std::marker::Model;

/// What is numbered: the values of an enumeration, by the numbers of int32, or bits, by those of
/// uint32.
#[derive(Clone, Copy, Drop)]
pub enum NumberKind {
    Enumeration,
    Bits,
}

/// An entry: an `enum` or `bit` statement. It has its name, and the text of its `value` or
/// `position`, where it has one. Contracts see the name, and what the text states.
#[derive(Drop)]
pub struct ListedEntry<'a> {
    pub name: &'a str,
    pub number: Option<&'a str>,
}

impl<'a> Model for ListedEntry<'a> {
    ghost use Rattle.std.specs.Option.{option_map};
    ghost use Rattle.yv_base_numbers.specs.Entries.{Entry, stated_number};

    ghost Value = { Entry };

    ghost view = { λ l. record { name = l.name.now; stated = stated_number (option_map (λ t. t.now) l.number) } };
}

/// The numbers of the names of one type. A look-up takes time logarithmic in their count.
#[derive(Drop)]
pub struct Numbering<'a> {
    map: BTreeMap<&'a [u8], i64>,
}

/// The result for a type's entries: the numbers of those that are right, so that types derived from
/// this one are judged only by them, and the place of the first wrong one among the entries.
#[derive(Drop)]
pub struct NumberedEntries<'a> {
    pub numbering: Numbering<'a>,
    pub first_wrong: Option<usize>,
}

impl<'a> Numbering<'a> {
    /// No names.
    pub(crate) fn new(alloc: Global) -> Numbering<'a>
        ensures { (name : List ℕ) → table_of result name ≡ None }
    {
        Numbering {
            map: BTreeMap::new(alloc),
        }
    }

    /// The number of a name, or `None` where the type hasn't that name.
    pub fn number(&self, name: &'a str) -> Option<i64>
        ensures { result ≡ table_of self.now name.now }
    {
        self.map.get(&name.as_bytes()).copied()
    }

    /// Gives a name its number.
    pub(crate) fn put(&mut self, name: &'a str, number: i64) -> Result<(), AllocError>
        ensures { IfOk result (λ _. Gives self.old self.new name.now number) }
    {
        self.put_bytes(name.as_bytes(), number)
    }

    fn put_bytes(&mut self, name: &'a [u8], number: i64) -> Result<(), AllocError>
        ensures { IfOk result (λ _. Gives self.old self.new name.now number) }
    {
        self.map.insert(name, number)?;
        Ok(())
    }

    /// The numbers of a type that is derived from the one with these numbers and lists some of its
    /// names (RFC 7950, sections 9.6.3 and 9.7.3): each keeps its number. An entry is wrong where
    /// its name is not one of this type's or is a right one's before it, or where something other
    /// than its number is stated. It takes time n log n.
    pub fn derive(
        &self,
        alloc: Global,
        entries: &[ListedEntry<'a>],
    ) -> Result<NumberedEntries<'a>, AllocError>
        // Each name that is right keeps the number that it has here.
        ensures numbers { IfOk result (λ r. (name : List ℕ)
            → table_of r.numbering name
            ≡ number_in (keep_numbers (table_of self.now) entries.now) name) }
        // The first wrong entry, or none if all are right.
        ensures wrong { IfOk result (λ r.
            IsFirstWrong (keep_numbers (table_of self.now)) (is_wrong_in (table_of self.now))
            entries.now r.first_wrong) }
    {
        let mut numbering = Numbering::new(alloc);
        let mut first_wrong = None;
        for (at, listed) in entries.iter().enumerate() {
            let is_right = numbering.keep(self, listed)?;
            first_wrong = first_with(first_wrong, at, is_right);
        }
        Ok(NumberedEntries {
            numbering,
            first_wrong,
        })
    }
}

impl<'a> Numbering<'a> {
    // Adds an entry of a derived type, where it isn't wrong.
    fn keep(&mut self, base: &Numbering<'a>, listed: &ListedEntry<'a>) -> Result<bool, AllocError>
        ensures { IfOk result (Adds Tells
            (λ ps. is_wrong_in (table_of base.now) ps listed.now)
            (λ ps. pair_in (table_of base.now) listed.now)
            self.old self.new) }
    {
        match base.number(listed.name) {
            Some(number) => {
                if agrees(listed.number, number) {
                    self.keep_new(listed.name, number)
                } else {
                    Ok(false)
                }
            }
            None => Ok(false),
        }
    }

    // Adds a name with its number, where it is new.
    fn keep_new(&mut self, name: &'a str, number: i64) -> Result<bool, AllocError>
        ensures { IfOk result (Adds Tells
            (λ ps. is_some (number_in ps name.now))
            (λ ps. record { name = name.now; number = number })
            self.old self.new) }
    {
        if self.has(name) {
            return Ok(false);
        }
        self.put(name, number)?;
        Ok(true)
    }

    /// Whether the name has a number.
    pub(crate) fn has(&self, name: &'a str) -> bool
        ensures { result ≡ is_some (table_of self.now name.now) }
    {
        self.number(name).is_some()
    }
}

/// The first place where an entry was wrong, with one more entry, at this place.
pub(crate) fn first_with(found: Option<usize>, at: usize, is_right: bool) -> Option<usize>
    ensures { result ≡ first_with found at is_right }
{
    if is_right || found.is_some() {
        found
    } else {
        Some(at)
    }
}
