//! What is shared by all nodes that lack something, or that are of a built-in type.
ghost use Rattle.std.specs.{Prelude.{◌≡◌, [], IfOk, IfSome}, Rc.{rc_slice_items, rc_str_bytes}};

use std::alloc::{AllocError, Global};
use std::rc::{Rc, RcSlice, RcStr};
use yv_link_definitions::BUILT_INS;
use yv_node_content::{Keys, PathPiece, PathStep};
use yv_text_statement::WrittenText;
use yv_values::{Defaults, PlainType};

/// Empty texts, types, keys, paths, defaults and values: a node that has nothing of a kind shares
/// these. Most leafs share the name of a built-in type.
#[derive(Drop)]
pub(crate) struct Nothing {
    text: RcStr,
    built_ins: Vec<RcStr>,
    types: RcSlice<PlainType>,
    keys: Rc<Keys>,
    uniques: Rc<Vec<Vec<Vec<Option<PathStep>>>>>,
    path: Rc<Vec<PathPiece>>,
    defaults: RcSlice<WrittenText>,
    values: Rc<Defaults>,
    ghost no_text: { rc_str_bytes text ≡ [] },
    ghost no_types: { rc_slice_items types ≡ [] },
    ghost no_keys: { keys.value ≡ [] },
    ghost no_uniques: { uniques.value.items ≡ [] },
    ghost no_path: { path.value.items ≡ [] },
    ghost no_defaults: { rc_slice_items defaults ≡ [] },
    ghost no_values: { values.value ≡ [] },
}

// The names of the built-in types.
fn built_in_names(alloc: Global) -> Result<Vec<RcStr>, AllocError> {
    let mut names = Vec::with_capacity(alloc, BUILT_INS.len())?;
    for name in &BUILT_INS {
        names.push(RcStr::from_str(alloc, name)?)?;
    }
    Ok(names)
}

// The one of these names that is the text.
fn shared_name<'n>(names: &'n [RcStr], text: &str) -> Option<&'n RcStr>
    ensures { IfSome result (λ name. rc_str_bytes name.now ≡ text.now) }
{
    names.iter().find(|name| name.as_str() == text)
}

impl Nothing {
    /// All of this.
    pub(crate) fn new(alloc: Global) -> Result<Nothing, AllocError> {
        let keys = Keys::of(alloc, Vec::new(alloc))?;
        let values = Defaults::of(alloc, Vec::new(alloc))?;
        Ok(Nothing {
            text: RcStr::from_str(alloc, "")?,
            built_ins: built_in_names(alloc)?,
            types: RcSlice::from_vec(Vec::new(alloc))?,
            keys: Rc::new(alloc, keys)?,
            uniques: Rc::new(alloc, Vec::new(alloc))?,
            path: Rc::new(alloc, Vec::new(alloc))?,
            defaults: RcSlice::from_vec(Vec::new(alloc))?,
            values: Rc::new(alloc, values)?,
        })
    }

    /// No text.
    pub(crate) fn text(&self) -> Result<RcStr, AllocError>
        ensures { IfOk result (λ text. rc_str_bytes text ≡ []) }
    {
        self.text.clone()
    }

    /// This text, over the memory of no text where it is empty.
    pub(crate) fn or_text(&self, alloc: Global, text: &str) -> Result<RcStr, AllocError>
        ensures { IfOk result (λ shared. rc_str_bytes shared ≡ text.now) }
    {
        if text.is_empty() {
            self.text()
        } else {
            RcStr::from_str(alloc, text)
        }
    }

    /// The text of a type. That of a built-in type takes no memory of its own.
    pub(crate) fn type_text(&self, alloc: Global, text: &str) -> Result<RcStr, AllocError>
        ensures { IfOk result (λ shared. rc_str_bytes shared ≡ text.now) }
    {
        match shared_name(&self.built_ins, text) {
            Some(name) => name.clone(),
            None => self.or_text(alloc, text),
        }
    }

    /// No types.
    pub(crate) fn types(&self) -> Result<RcSlice<PlainType>, AllocError>
        ensures { IfOk result (λ types. rc_slice_items types ≡ []) }
    {
        self.types.clone()
    }

    /// No keys.
    pub(crate) fn keys(&self) -> Result<Rc<Keys>, AllocError>
        ensures { IfOk result (λ keys. keys.value ≡ []) }
    {
        self.keys.clone()
    }

    /// No `unique` statements.
    pub(crate) fn uniques(&self) -> Result<Rc<Vec<Vec<Vec<Option<PathStep>>>>>, AllocError>
        ensures { IfOk result (λ uniques. uniques.value.items ≡ []) }
    {
        self.uniques.clone()
    }

    /// No path.
    pub(crate) fn path(&self) -> Result<Rc<Vec<PathPiece>>, AllocError>
        ensures { IfOk result (λ path. path.value.items ≡ []) }
    {
        self.path.clone()
    }

    /// No defaults.
    pub(crate) fn defaults(&self) -> Result<RcSlice<WrittenText>, AllocError>
        ensures { IfOk result (λ defaults. rc_slice_items defaults ≡ []) }
    {
        self.defaults.clone()
    }

    /// No values.
    pub(crate) fn values(&self) -> Result<Rc<Defaults>, AllocError>
        ensures { IfOk result (λ values. values.value ≡ []) }
    {
        self.values.clone()
    }
}
