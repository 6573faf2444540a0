//! The entries of a new enumeration or bits type, one after another.
ghost use Rattle.std.specs.{Prelude.{◌≡◌, ℕ, ℤ, List, [], Some, ◌||◌, false, is_some, IfOk, IfNone, IfSome}, BTreeSet.{contains}, Ordering.{int_cmp}};
ghost use Rattle.yv_base_numbers.specs.{InnerEarlierEntries.{Adds, Keeps, number_behind}, Numberings.{number_in, is_taken, higher, next_number, pair_of, number_entries, is_number, is_wrong, IsFirstWrong, table_of}};

use crate::numbering::{ListedEntry, NumberKind, NumberedEntries, Numbering, first_with};
use crate::stated_numbers::whole_number;
use std::alloc::{AllocError, Global};
use std::collections::BTreeSet;

/// The numbers of a new type with these entries (RFC 7950, sections 9.6.4.2 and 9.7.4.2): the
/// stated one; else 0 for the first, and one more than the highest so far for a later one. An entry
/// is wrong where its name or its number is that of a right one before it, where the kind hasn't
/// its number, or where it states what is not a whole number; it is left out. It takes time n log
/// n.
pub fn number_entries<'a>(
    alloc: Global,
    kind: NumberKind,
    entries: &[ListedEntry<'a>],
) -> Result<NumberedEntries<'a>, AllocError>
    // The number of each name of a new enumeration or bits type; a wrong entry is left out.
    ensures numbers { IfOk result (λ r. (name : List ℕ)
        → table_of r.numbering name ≡ number_in (number_entries kind entries.now) name) }
    // The first wrong entry, or none if all are right.
    ensures wrong { IfOk result (λ r.
        IsFirstWrong (number_entries kind) (is_wrong kind) entries.now r.first_wrong) }
{
    let mut seen = EarlierEntries::new(alloc);
    let mut first_wrong = None;
    for (at, listed) in entries.iter().enumerate() {
        let is_right = seen.add(kind, listed)?;
        first_wrong = first_with(first_wrong, at, is_right);
    }
    Ok(NumberedEntries {
        numbering: seen.into_names(),
        first_wrong,
    })
}

// What is kept of the entries that were passed: their names with their numbers, the numbers, and
// the highest one.
#[derive(Drop)]
struct EarlierEntries<'a> {
    names: Numbering<'a>,
    taken: BTreeSet<i64>,
    highest: Option<i64>,
}

impl<'a> EarlierEntries<'a> {
    fn new(alloc: Global) -> EarlierEntries<'a>
        ensures { Keeps result [] }
    {
        EarlierEntries {
            names: Numbering::new(alloc),
            taken: BTreeSet::new(alloc),
            highest: None,
        }
    }

    // Adds an entry, where it isn't wrong.
    fn add(&mut self, kind: NumberKind, listed: &ListedEntry<'a>) -> Result<bool, AllocError>
        ensures { IfOk result (Adds Keeps
            (λ ps. is_wrong kind ps listed.now) (λ ps. pair_of ps listed.now) self.old self.new) }
    {
        match number_of(self.highest, listed.number) {
            Some(number) => {
                if is_number(kind, number) {
                    self.put(listed.name, number)
                } else {
                    Ok(false)
                }
            }
            None => Ok(false),
        }
    }

    // Adds a name with its number, where both are free.
    fn put(&mut self, name: &'a str, number: i64) -> Result<bool, AllocError>
        ensures { IfOk result (Adds Keeps
            (λ ps. is_some (number_in ps name.now) || is_taken ps number)
            (λ ps. record { name = name.now; number = number }) self.old self.new) }
    {
        if self.has(name, number) {
            return Ok(false);
        }
        self.names.put(name, number)?;
        self.taken.insert(number)?;
        self.highest = Some(higher(self.highest, number));
        Ok(true)
    }

    // Whether the name or the number is taken.
    fn has(&self, name: &'a str, number: i64) -> bool
        ensures { result
            ≡ (is_some (table_of self.now.names name.now)
            || contains int_cmp self.now.taken number) }
    {
        self.names.has(name) || self.taken.contains(&number)
    }

    fn into_names(self) -> Numbering<'a>
        ensures { result ≡ self.entry.names }
    {
        let EarlierEntries {
            names,
            taken: _,
            highest: _,
        } = self;
        names
    }
}

fn higher(highest: Option<i64>, number: i64) -> i64
    ensures { result ≡ higher highest number }
{
    match highest {
        Some(highest) => highest.max(number),
        None => number,
    }
}

// The number that is stated, or the next one; none where either kind hasn't that.
fn number_of(highest: Option<i64>, stated: Option<&str>) -> Option<i64>
    ensures some { IfSome result (λ n. number_behind highest stated.entry ≡ Some n) }
    ensures none { IfNone result
        ((kind : NumberKind) (n : ℤ) → number_behind highest stated.entry ≡ Some n
        → is_number kind n ≡ false) }
{
    match stated {
        Some(text) => whole_number(text),
        None => next_number(highest),
    }
}

fn next_number(highest: Option<i64>) -> Option<i64>
    ensures some { IfSome result (λ n. n ≡ next_number highest) }
    ensures none { IfNone result
        ((kind : NumberKind) → is_number kind (next_number highest) ≡ false) }
{
    match highest {
        Some(highest) => highest.checked_add(1),
        None => Some(0),
    }
}

fn is_number(kind: NumberKind, number: i64) -> bool
    ensures { result ≡ is_number kind number }
{
    match kind {
        NumberKind::Enumeration => number >= -2147483648 && number <= 2147483647,
        NumberKind::Bits => number >= 0 && number <= 4294967295,
    }
}
