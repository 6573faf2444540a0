//! Values, and tuples of them.
ghost use Rattle.std.specs.Prelude.{◌≡◌, [], ◌∷◌, ◌++◌, IfOk, is_ok, IsTrue, ◌↔◌, if◌then◌else◌};

use crate::key::Key;
use std::alloc::{AllocError, Global};
use std::marker::Model;
use std::rc::{RcSlice, RcStr};
use yv_base_numbers::Integer;

/// What a value holds, in 24 bytes. Its order serves to find keys again, and means nothing besides.
/// Texts and lists are shared by the copies of a value, and names are texts that the type keeps, so
/// that neither costs more where they are long.
#[derive(PartialEq, Eq, PartialOrd, Ord, Drop)]
pub(crate) enum Atom {
    Whole(Integer),
    /// A decimal from zero on: its digits after the point, and the number.
    Decimal(u32, u64),
    /// A decimal below zero: its digits after the point, and n where the number is -1 - n.
    DecimalBelow(u32, u64),
    Text(RcStr),
    Boolean(bool),
    Name(RcStr),
    Bits(RcSlice<RcStr>),
    Binary(RcSlice<u8>),
    /// Its name and its module, in this order, since names differ sooner.
    Identity(RcStr, RcStr),
    Empty,
}

/// The value of a leaf: its kind and content. Values can't be compared outside this crate; an
/// `Index` does it.
#[derive(Drop)]
pub struct Value {
    atom: Atom,
}

impl Model for Value {
    ghost use Rattle.yv_values.specs.Values.{Val, value_of};

    ghost Value = { Val };

    ghost view = { λ v. value_of v.atom };
}

impl Value {
    ghost use Rattle.yv_base_numbers.specs.Numbers.{integer};
    ghost use Rattle.yv_values.specs.Values.{whole, decimal, boolean, name, bits, binary, identity, empty, texts};
    ghost use Rattle.yv_values.specs.Values as spec;
    ghost use Rattle.std.specs.Rc.{rc_str_bytes, rc_slice_items};

    pub(crate) fn whole(number: Integer) -> Value
        ensures { result ≡ whole (integer number) }
    {
        Value {
            atom: Atom::Whole(number),
        }
    }

    pub(crate) fn decimal(digits: u32, number: Integer) -> Value
        ensures { result ≡ decimal digits (integer number) }
    {
        let atom = match number {
            Integer::Natural(scaled) => Atom::Decimal(digits, scaled),
            Integer::Below(scaled) => Atom::DecimalBelow(digits, scaled),
        };
        Value { atom }
    }

    pub(crate) fn boolean(truth: bool) -> Value
        ensures { result ≡ boolean truth }
    {
        Value {
            atom: Atom::Boolean(truth),
        }
    }

    pub(crate) fn name(text: RcStr) -> Value
        ensures { result ≡ name (rc_str_bytes text) }
    {
        Value {
            atom: Atom::Name(text),
        }
    }

    pub(crate) fn text(text: RcStr) -> Value
        ensures { result ≡ spec.text (rc_str_bytes text) }
    {
        Value {
            atom: Atom::Text(text),
        }
    }

    pub(crate) fn binary(octets: RcSlice<u8>) -> Value
        ensures { result ≡ binary (rc_slice_items octets) }
    {
        Value {
            atom: Atom::Binary(octets),
        }
    }

    pub(crate) fn bits(names: RcSlice<RcStr>) -> Value
        ensures { result ≡ bits (texts (rc_slice_items names)) }
    {
        Value {
            atom: Atom::Bits(names),
        }
    }

    pub(crate) fn identity(module: RcStr, name: RcStr) -> Value
        ensures { result ≡ identity (rc_str_bytes «module») (rc_str_bytes name) }
    {
        Value {
            atom: Atom::Identity(name, module),
        }
    }

    pub(crate) fn empty() -> Value
        ensures { result ≡ empty }
    {
        Value { atom: Atom::Empty }
    }

    /// The same value once more, over the same texts and lists: it takes no memory, however long
    /// they are.
    pub fn copy(&self, _alloc: Global) -> Result<Value, AllocError>
        ensures { IfOk result (λ copy. copy ≡ self.now) }
    {
        Ok(Value {
            atom: self.atom.copy()?,
        })
    }
}

impl Atom {
    ghost use Rattle.yv_values.specs.Values.{value_of};

    fn copy(&self) -> Result<Atom, AllocError>
        ensures { IfOk result (λ copy. value_of copy ≡ value_of self.now) }
    {
        match self {
            Atom::Whole(number) => Ok(Atom::Whole(*number)),
            Atom::Decimal(digits, number) => Ok(Atom::Decimal(*digits, *number)),
            Atom::DecimalBelow(digits, number) => Ok(Atom::DecimalBelow(*digits, *number)),
            Atom::Text(text) => Ok(Atom::Text(text.clone()?)),
            Atom::Boolean(truth) => Ok(Atom::Boolean(*truth)),
            Atom::Name(name) => Ok(Atom::Name(name.clone()?)),
            Atom::Bits(names) => Ok(Atom::Bits(names.clone()?)),
            Atom::Binary(octets) => Ok(Atom::Binary(octets.clone()?)),
            Atom::Identity(name, module) => Ok(Atom::Identity(name.clone()?, module.clone()?)),
            Atom::Empty => Ok(Atom::Empty),
        }
    }
}

/// A tuple of values, as a key of an `Index`.
#[derive(Drop)]
pub struct Tuple {
    alloc: Global,
    key: Key,
}

impl Model for Tuple {
    ghost use Rattle.std.specs.Prelude.{List};
    ghost use Rattle.yv_values.specs.{InnerKeys.{key_of}, Values.{Val}};

    ghost Value = { List Val };

    ghost view = { λ t. key_of t.key };
}

impl Tuple {
    ghost use Rattle.yv_values.specs.InnerKeys.{key_of};

    /// A tuple of no values.
    pub fn new(alloc: Global) -> Tuple
        ensures { result ≡ [] }
    {
        Tuple {
            alloc,
            key: Key::Nothing,
        }
    }

    /// Adds a value at the end.
    pub fn push(&mut self, value: Value) -> Result<(), AllocError>
        ensures { self.new ≡ (if is_ok result then self.old ++ value ∷ [] else self.old) }
    {
        self.key.push(self.alloc, value.atom)?;
        Ok(())
    }

    // Whether it is this value, alone.
    pub(crate) fn is_alone(&self, value: &Value) -> bool
        ensures { IsTrue result ↔ (self.now ≡ value.now ∷ []) }
    {
        match self.key.as_slice() {
            [atom] => *atom == value.atom,
            _ => false,
        }
    }

    pub(crate) fn as_key(&self) -> &Key
        ensures { key_of result.now ≡ self.now }
    {
        &self.key
    }

    pub(crate) fn into_key(self) -> Key
        ensures { key_of result ≡ self }
    {
        self.key
    }
}
