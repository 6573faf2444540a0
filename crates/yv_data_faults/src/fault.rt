//! What is wrong at a place of a document.
ghost use Rattle.std.specs.Prelude.{◌≡◌};

use crate::path::Path;
use std::marker::Model;

/// The kind of a fault: what is wrong at a place of a document.
#[derive(Clone, Copy, Debug, PartialEq, Eq)]
pub enum FaultKind {
    /// A member names no child data node.
    Unknown,
    /// A container, an anydata node, a list entry or the document is not an object, or a list or
    /// leaf-list is not an array.
    Shape,
    /// The types of a leaf, or of an item of a leaf-list, don't read its value.
    Value,
    /// An entry of a list lacks a key (RFC 7950, section 7.8.2).
    MissingKey,
    /// The keys of an entry, or a value of a configuration leaf-list, are the same as earlier ones
    /// (RFC 7950, sections
    /// 7.8.2 and 7.7).
    Duplicate,
    /// An entry has the same values as an earlier one for a `unique` statement (RFC 7950, section
    /// 7.8.3).
    Unique,
    /// A leaf, choice, anydata or anyxml node is missing that must be there (RFC 7950, sections
    /// 7.6.5 and 7.9.4).
    Mandatory,
    /// A list or leaf-list has too few entries (RFC 7950, section 7.7.5).
    Min,
    /// A list or leaf-list has too many entries (RFC 7950, section 7.7.6).
    Max,
    /// Two or more cases of a choice exist (RFC 7950, section 7.9).
    Choice,
    /// The value of a leafref, or of an item of a leaf-list of them, is the same as none that its
    /// path reaches (RFC 7950, sections
    /// 9.9 and 9.9.3).
    Reference,
    /// State is in a document that is to have configuration only (RFC 7950, section 7.21.1).
    State,
}

impl FaultKind {
    ghost use Rattle.yv_data_faults.specs.Line.{kind_name};

    /// What the kind is called in a line.
    pub fn name(self) -> &'static str
        ensures { result.now ≡ kind_name self }
    {
        match self {
            FaultKind::Unknown => "unknown",
            FaultKind::Shape => "shape",
            FaultKind::Value => "value",
            FaultKind::MissingKey => "missing-key",
            FaultKind::Duplicate => "duplicate",
            FaultKind::Unique => "unique",
            FaultKind::Mandatory => "mandatory",
            FaultKind::Min => "min",
            FaultKind::Max => "max",
            FaultKind::Choice => "choice",
            FaultKind::Reference => "reference",
            FaultKind::State => "state",
        }
    }
}

/// A fault: its kind, the path to its place from the top, and the number of the schema statement
/// that it is about, or 0 where it is about none.
#[derive(Drop)]
pub struct Fault {
    pub kind: FaultKind,
    pub path: Path,
    pub number: u32,
    /// The number from 1 of the first entry or item that this one repeats, for `Duplicate` and
    /// `Unique`.
    pub earlier: Option<u32>,
}

impl Model for Fault {
    ghost use Rattle.yv_data_faults.specs.Flaw.{Flaw};

    ghost Value = { Flaw };

    ghost view = { λ f. record { kind = f.kind; path = f.path; number = f.number; earlier = f.earlier } };
}
