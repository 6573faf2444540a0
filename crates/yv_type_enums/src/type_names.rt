//! The names of a type.
ghost use Rattle.std.specs.Prelude.{◌≡◌, ◌≢◌, ℕ, List, [], ◌&&◌, Option, IfOk};
ghost use Rattle.yv_link.specs.LinkedFiles.{truth_in};
ghost use Rattle.yv_base_numbers.specs.Numberings.{IsFirstWrong, is_wrong, is_wrong_in, keep_numbers, number_in, number_entries, table_of};
ghost use Rattle.yv_values.specs.NameOrder.{Rises, is_named};
ghost use Rattle.yv_type_enums.specs.{Entries.{entries, is_on_among, listing}, InnerEntries.{counts, entries_in, refusal_of_entry, borrow}, Names.{IsRefusal, is_value, is_value_among, is_value_from, number_from, number_of}};

use crate::common::Common;
use crate::entries::listing;
use crate::if_features::IfFeatures;
use crate::numbers::{derived_numbers, new_numbers, refusal_of_entry};
use crate::values::Values;
use std::alloc::{AllocError, Global};
use std::rc::Rc;
use yv_base_numbers::{NumberKind, NumberedEntries};
use yv_link::Linked;
use yv_text_statement::{Refusal, Statement};
use yv_values::{NameSet, PlainType};

/// The names of an enumeration or of bits, with their numbers, and which of them are values: a name
/// whose `if-feature` is false keeps its number and is not a value. What a type shares with those
/// derived from it that list nothing is kept once.
#[derive(Drop)]
pub struct NamedEntries<'a> {
    shared: Rc<Common<'a>>,
}

/// What a `type` statement lists: the names, and the refusal of the first entry that is wrong. A
/// wrong entry gives no name.
#[derive(Drop)]
pub struct Listing<'a> {
    pub names: NamedEntries<'a>,
    pub fault: Option<Refusal>,
}

impl<'a> NamedEntries<'a> {
    /// The names of a `type` statement of this file that isn't derived from another enumeration or
    /// other bits (RFC 7950, sections 9.6.4 and 9.7.4). It takes time n log n in the statements,
    /// besides that of their conditions.
    pub fn new(
        alloc: Global,
        linked: &Linked<'a, '_>,
        file: u32,
        kind: NumberKind,
        statement: &'a Statement<'_>,
    ) -> Result<Listing<'a>, AllocError>
        // The number of each name that an enumeration or bits type lists; wrong entries are left
        // out.
        ensures numbers { IfOk result (λ l. (name : List ℕ)
            → number_of l.names name
            ≡ number_in (number_entries kind (entries kind statement.now)) name) }
        // The names that are values: those with a number whose conditions hold.
        ensures values { IfOk result (λ l. (name : List ℕ) → is_value l.names name
            ≡ is_value_among (number_of l.names)
            (is_on_among (truth_in linked.now) file (listing kind statement.now)) name) }
        // The least that is wrong with the entries, or none.
        ensures fault { IfOk result
            (λ l. IsRefusal (number_entries kind) (is_wrong kind) kind file statement.now l.fault) }
    {
        let lines = listing(alloc, kind, statement)?;
        let found = new_numbers(alloc, kind, &lines)?;
        let conditions = IfFeatures { linked, file };
        NamedEntries::make(alloc, conditions, found, None, &lines)
    }

    /// The names of a `type` statement of this file that is derived from this type, of the same
    /// kind (RFC 7950, sections 9.6.3 and 9.7.3). Where it lists nothing, it takes constant time
    /// besides that for the statement's substatements, else time n log n in the statements, besides
    /// that of their conditions.
    pub fn derive(
        &self,
        alloc: Global,
        linked: &Linked<'a, '_>,
        file: u32,
        kind: NumberKind,
        statement: &'a Statement<'_>,
    ) -> Result<Listing<'a>, AllocError>
        // The same for a type that is derived from one with these names.
        ensures numbers { IfOk result (λ l. (name : List ℕ)
            → number_of l.names name
            ≡ number_from (number_of self.now) (entries kind statement.now) name) }
        // The names that are values: those that the base has and whose conditions hold here too.
        ensures values { IfOk result (λ l. (name : List ℕ) → is_value l.names name
            ≡ is_value_from (is_value self.now) (number_of l.names)
            (is_on_among (truth_in linked.now) file)
            (listing kind statement.now) name) }
        // The least that is wrong with the entries, or none.
        ensures fault { IfOk result
            (λ l. IsRefusal (keep_numbers (number_of self.now)) (is_wrong_in (number_of self.now))
            kind
            file statement.now l.fault) }
    {
        let lines = listing(alloc, kind, statement)?;
        if lines.is_empty() {
            return Ok(Listing {
                names: self.copy()?,
                fault: None,
            });
        }
        self.fewer(alloc, linked, file, kind, &lines)
    }

    // The names of a type that is derived from this type and lists these entries, which are some.
    fn fewer(
        &self,
        alloc: Global,
        linked: &Linked<'a, '_>,
        file: u32,
        kind: NumberKind,
        lines: &[&'a Statement<'_>],
    ) -> Result<Listing<'a>, AllocError>
        requires { borrow lines.now ≢ [] }
        ensures numbers { IfOk result (λ l. (name : List ℕ)
            → number_of l.names name
            ≡ number_from (number_of self.now) (entries_in kind lines.now) name) }
        ensures values { IfOk result (λ l. (name : List ℕ) → is_value l.names name
            ≡ is_value_from (is_value self.now) (number_of l.names)
            (is_on_among (truth_in linked.now) file) (borrow lines.now) name) }
        ensures fault { IfOk result (λ l. (first : Option ℕ)
            × IsFirstWrong (keep_numbers (number_of self.now)) (is_wrong_in (number_of self.now))
            (entries_in kind lines.now) first
            × (l.fault ≡ refusal_of_entry file (borrow lines.now) first)) }
    {
        let found = derived_numbers(alloc, &self.shared.numbering, kind, lines)?;
        let conditions = IfFeatures { linked, file };
        NamedEntries::make(alloc, conditions, found, Some(&self.shared.values), lines)
    }

    /// The same names once more, over the same tables. It takes constant time.
    pub fn copy(&self) -> Result<NamedEntries<'a>, AllocError>
        // The names have the same numbers.
        ensures numbers { IfOk result
            (λ copy. (name : List ℕ) → number_of copy name ≡ number_of self.now name) }
        // The same names are values.
        ensures values { IfOk result
            (λ copy. (name : List ℕ) → is_value copy name ≡ is_value self.now name) }
    {
        Ok(NamedEntries {
            shared: self.shared.clone()?,
        })
    }

    /// The number of a name that is right, be it a value or not.
    pub fn number(&self, name: &'a str) -> Option<i64>
        ensures { result ≡ number_of self.now name.now }
    {
        self.shared.numbering.number(name)
    }

    /// Whether a name is a value.
    pub fn is_value(&self, name: &'a str) -> bool
        ensures { result ≡ is_value self.now name.now }
    {
        self.shared.values.has(name)
    }

    /// The names that are values, as plain types take them. The list is shared: it takes constant
    /// time.
    pub fn values(&self) -> Result<NameSet, AllocError>
        // Exactly the names that are values.
        ensures same { IfOk result
            (λ names. (name : List ℕ) → is_named names name ≡ is_value self.now name) }
        // Each once, in the order of their bytes.
        ensures rises { IfOk result (λ names. Rises names) }
    {
        match self.shared.list.copy()? {
            PlainType::Enumeration(names) => {
                yv_values::laws::names_rise(&names);
                Ok(names)
            }
            _ => unreachable!(),
        }
    }

    // The names of a listing, by its numbers.
    fn make(
        alloc: Global,
        conditions: IfFeatures<'_, 'a, '_>,
        found: NumberedEntries<'a>,
        base: Option<&Values<'a>>,
        lines: &[&'a Statement<'_>],
    ) -> Result<Listing<'a>, AllocError>
        ensures numbers { IfOk result
            (λ l. (name : List ℕ) → number_of l.names name ≡ table_of found.entry.numbering name) }
        ensures values { IfOk result (λ l. (name : List ℕ) → is_value l.names name
            ≡ (counts found.entry.numbering base.entry name
            && is_on_among (truth_in conditions.entry.linked.now) conditions.entry.file
            (borrow lines.now) name)) }
        ensures fault { IfOk result
            (λ l. l.fault
            ≡ refusal_of_entry conditions.entry.file (borrow lines.now) found.entry.first_wrong) }
    {
        let NumberedEntries {
            numbering,
            first_wrong,
        } = found;
        let fault = refusal_of_entry(conditions.file, lines, first_wrong);
        let values = conditions.values(alloc, &numbering, base, lines)?;
        let list = PlainType::Enumeration(values.names(alloc)?);
        let shared = Rc::new(
            alloc,
            Common {
                numbering,
                values,
                list,
            },
        )?;
        Ok(Listing {
            names: NamedEntries { shared },
            fault,
        })
    }
}
