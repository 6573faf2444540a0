//! The values of a key, and their order.
ghost use Rattle.std.specs.{Prelude.{◌≡◌, ◌∷◌, [], ◌++◌, Some, is_ok, if◌then◌else◌}, Cmp.{eq_by_cmp_equiv, partial_equiv_from_equiv, partial_order_from_total}, Cmp.Lexicographic.{slice_cmp}, Ordering.{eq_by_cmp, nat_cmp}};
ghost use mathlib.Core.Path.{refl};
ghost use Rattle.yv_values.specs.{InnerKeys.{atoms_of, number_of, numbers_of, row_cmp, key_cmp, key_total}};

use crate::value::Atom;
use std::alloc::{AllocError, Global};
use std::cmp::Ordering;
use std::mem::replace;
use yv_base_numbers::Integer;

/// The values of a key, in a row. One takes no memory of its own, since most keys are of one leaf.
/// Keys are compared by their values alone, however these are kept.
#[derive(Drop)]
pub(crate) enum Key {
    Nothing,
    One(Atom),
    Many(Vec<Atom>),
}

impl Key {
    /// The values.
    pub(crate) fn as_slice(&self) -> &[Atom]
        ensures { result.now ≡ atoms_of self.now }
    {
        match self {
            Key::Nothing => &[],
            Key::One(atom) => std::slice::from_ref(atom),
            Key::Many(atoms) => atoms.as_slice(),
        }
    }

    /// Adds a value at the end.
    pub(crate) fn push(&mut self, alloc: Global, atom: Atom) -> Result<(), AllocError>
        ensures { atoms_of self.new
            ≡ (if is_ok result then atoms_of self.old ++ atom ∷ [] else atoms_of self.old) }
    {
        match self {
            Key::Nothing => *self = Key::One(atom),
            Key::One(first) => {
                let mut both = Vec::with_capacity(alloc, 2)?;
                both.push_reserved(replace(first, Atom::Empty));
                both.push_reserved(atom);
                *self = Key::Many(both);
            }
            Key::Many(atoms) => atoms.push(atom)?,
        }
        Ok(())
    }
}

impl PartialEq for Key {
    ghost eq = { eq_by_cmp key_cmp };

    ghost laws = { partial_equiv_from_equiv (eq_by_cmp_equiv key_total) };

    fn eq(&self, other: &Key) -> bool {
        self.cmp(other).is_eq()
    }
}

impl Eq for Key {
    ghost laws = { eq_by_cmp_equiv key_total };
}

impl PartialOrd for Key {
    ghost partial_cmp = { λ x y. Some (key_cmp x y) };

    ghost laws = { partial_order_from_total key_total };

    fn partial_cmp(&self, other: &Key) -> Option<Ordering> {
        Some(self.cmp(other))
    }
}

impl Ord for Key {
    ghost cmp = { key_cmp };

    ghost total = { key_total };

    ghost matches_partial_cmp = { λ x y. refl };

    ghost matches_eq = { λ x y. refl };

    // Most keys are one number or one text. These are compared first, since a search of an index
    // compares many keys.
    fn cmp(&self, other: &Key) -> Ordering {
        match (self, other) {
            (
                Key::One(Atom::Whole(Integer::Natural(one))),
                Key::One(Atom::Whole(Integer::Natural(another))),
            ) => one.cmp(another),
            (Key::One(Atom::Text(one)), Key::One(Atom::Text(another))) => one.cmp(another),
            _ => compare(self.as_slice(), other.as_slice()),
        }
    }
}

// The order of the values. Their numbers are compared first, since that costs least: they are kept
// in the row itself.
fn compare<'a>(one: &'a [Atom], other: &'a [Atom]) -> Ordering
    ensures { result ≡ row_cmp one.now other.now }
{
    let order = compare_numbers(one, other);
    if order.is_ne() {
        return order;
    }
    Ord::cmp(&one, &other)
}

fn compare_numbers(one: &[Atom], other: &[Atom]) -> Ordering
    ensures { result ≡ slice_cmp nat_cmp (numbers_of one.now) (numbers_of other.now) }
{
    for i in 0..one.len().min(other.len()) {
        let order = number_of(&one[i]).cmp(&number_of(&other[i]));
        if order.is_ne() {
            return order;
        }
    }
    one.len().cmp(&other.len())
}

fn number_of(atom: &Atom) -> u64
    ensures { result ≡ number_of atom.now }
{
    match atom {
        Atom::Whole(Integer::Natural(number)) => *number,
        _ => 0,
    }
}
