//! The defaults of a node.
ghost use Rattle.std.specs.Prelude.{◌≡◌, ◌≤◌, List, [], ◌∷◌, ◌++◌, IfOk, OnOk, IsTrue, ◌↔◌, length};
ghost use Rattle.yv_values.specs.{InnerDefaults.{KeepsAlone, Tells}, Pairs.{IsAlone}, Same.{has_same, is_among}, Values.{Val}};

use crate::index::Index;
use crate::value::{Tuple, Value};
use std::alloc::{AllocError, Global};
use std::marker::Model;

/// The default values of a leaf or leaf-list, which are in use together (RFC 7950, sections 7.6.1
/// and 7.7.2), in order. Contracts see them as that list. Two or more are kept in an index too, so
/// that one is found in time log n.
#[derive(Drop)]
pub struct Defaults {
    values: Vec<Value>,
    known: ValueIndex,
}

// What is known of values: an index of them, where there are two or more, and whether two of them
// are the same.
#[derive(Drop)]
struct ValueIndex {
    index: Option<Index>,
    repeats: bool,
}

impl Model for Defaults {
    ghost use Rattle.std.specs.Prelude.{◌≡◌, ◌≤◌, List, length};
    ghost use Rattle.yv_values.specs.{InnerDefaults.{Tells}, Same.{has_same}, Values.{Val}};

    ghost Value = { List Val };

    ghost view = { λ d. d.values.items };

    ghost invariant = { λ d. record {
      few : length d.values.items ≤ 1024;
      told : Tells d.known.index d.values.items;
      repeated : d.known.repeats ≡ has_same d.values.items;
    } };
}

impl Defaults {
    /// The most values that it keeps.
    pub const MOST: usize = 1024;

    /// These values. Takes time n log n.
    pub fn of(alloc: Global, values: Vec<Value>) -> Result<Defaults, AllocError>
        // There are at most 1,024 values.
        requires few { length values.items ≤ Self.MOST }
        // These values.
        ensures { IfOk result (λ defaults. defaults ≡ values.items) }
    {
        let known = index_few(alloc, values.as_slice())?;
        Ok(Defaults { values, known })
    }

    /// The values, in order.
    pub fn values(&self) -> &[Value]
        // The values, in order, at most 1,024.
        ensures value { result.now ≡ self.now }
        // There are at most 1,024.
        ensures few { length result.now ≤ 1024 }
    {
        self.values.as_slice()
    }

    /// Whether two of them are the same (RFC 7950, section 9): of one kind, with one content.
    pub fn repeats(&self) -> bool
        ensures { result ≡ has_same self.now }
    {
        self.known.repeats
    }

    // Whether the key is one of the values, alone.
    pub(crate) fn has(&self, key: &Tuple) -> bool
        ensures { IsTrue result ↔ IsAlone key.now self.now }
    {
        match &self.known.index {
            Some(index) => index.is_within(key, 0, 0),
            None => has_first(self.values.as_slice(), key),
        }
    }
}

// Whether the key is the only value, where there is one at most.
fn has_first(values: &[Value], key: &Tuple) -> bool
    requires { length values.now ≤ 1 }
    ensures { IsTrue result ↔ IsAlone key.now values.now }
{
    match values.first() {
        Some(value) => key.is_alone(value),
        None => false,
    }
}

fn index_few(alloc: Global, values: &[Value]) -> Result<ValueIndex, AllocError>
    ensures tells { IfOk result (λ known. Tells known.index values.now) }
    ensures repeats { IfOk result (λ known. known.repeats ≡ has_same values.now) }
{
    if values.len() < 2 {
        return Ok(ValueIndex {
            index: None,
            repeats: false,
        });
    }
    index_many(alloc, values)
}

// An index of these values, and whether two of them are the same.
fn index_many(alloc: Global, values: &[Value]) -> Result<ValueIndex, AllocError>
    ensures tells { IfOk result (λ known. Tells known.index values.now) }
    ensures repeats { IfOk result (λ known. known.repeats ≡ has_same values.now) }
{
    let mut index = Index::new(alloc);
    let mut repeats = false;
    for value in values {
        let is_known = keep(alloc, &mut index, value)?;
        repeats = repeats || is_known;
    }
    Ok(ValueIndex {
        index: Some(index),
        repeats,
    })
}

// Keeps a value with others, and says whether it is one of them.
fn keep(alloc: Global, index: &mut Index, value: &Value) -> Result<bool, AllocError>
    ensures knows { IfOk result
        (λ known. (vs : List Val) → KeepsAlone index.old vs → known ≡ is_among value.now vs) }
    ensures keeps { OnOk result
        ((vs : List Val) → KeepsAlone index.old vs → KeepsAlone index.new (vs ++ value.now ∷ [])) }
{
    let mut key = Tuple::new(alloc);
    key.push(value.copy(alloc)?)?;
    let found = index.find_or_keep(key, 0)?;
    Ok(found.is_some())
}
