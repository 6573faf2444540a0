//! Refusals, and their order.
ghost use Rattle.std.specs.Prelude.{◌≡◌, IsTrue, ◌↔◌, if◌then◌else◌, Some, None};
ghost use Rattle.yv_text_statement.specs.{Codes.{name_of, number_of, phase_of}, Order.{IsLesser, IsUpTo, refusal_at}};

use crate::statement::Statement;
use std::alloc::{AllocError, AllocFailed};
use std::fmt;

/// The code of a refusal. They are in the order in which the refusals at one place are ranked.
#[derive(Clone, Copy, Debug, PartialEq, Eq)]
pub enum Code {
    NotUtf8,
    BadCharacter,
    BadToken,
    BadEscape,
    BadSyntax,
    TooDeep,
    TooLarge,
    Unsupported,
    UnknownStatement,
    Cardinality,
    BadArgument,
    DuplicateModule,
    MissingModule,
    Revision,
    ImportCycle,
    UnknownPrefix,
    Submodule,
    UnknownFeature,
    FeatureCycle,
    UnknownIdentity,
    IdentityCycle,
    DuplicateName,
    UnknownType,
    TypeCycle,
    UnknownGrouping,
    GroupingCycle,
    TooManyNodes,
    RefineTarget,
    BadRefine,
    AugmentTarget,
    BadAugment,
    TreeTooDeep,
    BadRestriction,
    BadPattern,
    BadNumbering,
    BadType,
    TooManyMembers,
    DuplicateNode,
    BadKey,
    BadUnique,
    BadConfig,
    BadDefault,
    BadMandatory,
    BadPath,
    PathCycle,
    BadOperation,
}

/// A refusal: what for, the file's place in the list of files, the keyword's or the token's offset
/// in bytes, and its line, from 1.
#[derive(Clone, Copy, Debug, PartialEq, Eq)]
pub struct Refusal {
    pub code: Code,
    pub file: u32,
    pub offset: u64,
    pub line: u64,
}

/// What stops a call: why it has no answer.
#[derive(Clone, Copy, Debug, PartialEq, Eq)]
pub enum Stop {
    /// The files are refused.
    Fault(Refusal),
    /// A pattern of the dialect that the regular expressions' library doesn't build.
    PatternBuild,
    NoMemory,
}

/// The name that a refusal's line ends with.
impl fmt::Display for Code {
    ghost use Rattle.std.specs.Prelude.{Some};
    ghost use Rattle.yv_text_statement.specs.Codes.{name_of};

    ghost output = { λ code. Some (name_of code) };

    fn fmt<W: fmt::Write>(&self, f: &mut fmt::Formatter<W>) -> fmt::Result {
        f.write_str(self.name())
    }
}

/// The number of its file, its line, and its code, as in `file 0, line 12: UnknownType`.
impl fmt::Display for Refusal {
    ghost use Rattle.std.specs.Prelude.{Some};
    ghost use Rattle.yv_text_statement.specs.RefusalText.{refusal_text};

    ghost output = { λ refusal. Some (refusal_text refusal) };

    fn fmt<W: fmt::Write>(&self, f: &mut fmt::Formatter<W>) -> fmt::Result {
        write!(
            f,
            "file {}, line {}: {}",
            self.file,
            self.line,
            self.code.name()
        )
    }
}

/// The refusal, or in a few words what else stopped the call.
impl fmt::Display for Stop {
    ghost use Rattle.std.specs.Prelude.{Some};
    ghost use Rattle.yv_text_statement.specs.RefusalText.{stop_text};

    ghost output = { λ stop. Some (stop_text stop) };

    fn fmt<W: fmt::Write>(&self, f: &mut fmt::Formatter<W>) -> fmt::Result {
        match self {
            Stop::Fault(refusal) => write!(f, "{refusal}"),
            Stop::PatternBuild => f.write_str("pattern not built"),
            Stop::NoMemory => f.write_str("out of memory"),
        }
    }
}

impl std::error::Error for Stop {}

impl From<AllocError> for Stop {
    ghost use Rattle.std.specs.Prelude.{◌≡◌};
    ghost use Rattle.yv_text_statement.specs.declared.refusal.Stop.TheVariants.{NoMemory};

    ghost from_gives = { λ _ stop. stop ≡ NoMemory };

    fn from(_error: AllocError) -> Stop {
        Stop::NoMemory
    }
}

impl<T: Drop> From<AllocFailed<T>> for Stop {
    ghost use Rattle.std.specs.Prelude.{◌≡◌};
    ghost use Rattle.yv_text_statement.specs.declared.refusal.Stop.TheVariants.{NoMemory};

    ghost from_gives = { λ _ stop. stop ≡ NoMemory };

    fn from(_error: AllocFailed<T>) -> Stop {
        Stop::NoMemory
    }
}

impl Code {
    /// The name that a refusal's line ends with.
    pub fn name(self) -> &'static str
        ensures { result.now ≡ name_of self }
    {
        match self {
            Code::NotUtf8 => "NotUtf8",
            Code::BadCharacter => "BadCharacter",
            Code::BadToken => "BadToken",
            Code::BadEscape => "BadEscape",
            Code::BadSyntax => "BadSyntax",
            Code::TooDeep => "TooDeep",
            Code::TooLarge => "TooLarge",
            Code::Unsupported => "Unsupported",
            Code::UnknownStatement => "UnknownStatement",
            Code::Cardinality => "Cardinality",
            Code::BadArgument => "BadArgument",
            Code::DuplicateModule => "DuplicateModule",
            Code::MissingModule => "MissingModule",
            Code::Revision => "Revision",
            Code::ImportCycle => "ImportCycle",
            Code::UnknownPrefix => "UnknownPrefix",
            Code::Submodule => "Submodule",
            Code::UnknownFeature => "UnknownFeature",
            Code::FeatureCycle => "FeatureCycle",
            Code::UnknownIdentity => "UnknownIdentity",
            Code::IdentityCycle => "IdentityCycle",
            Code::DuplicateName => "DuplicateName",
            Code::UnknownType => "UnknownType",
            Code::TypeCycle => "TypeCycle",
            Code::UnknownGrouping => "UnknownGrouping",
            Code::GroupingCycle => "GroupingCycle",
            Code::TooManyNodes => "TooManyNodes",
            Code::RefineTarget => "RefineTarget",
            Code::BadRefine => "BadRefine",
            Code::AugmentTarget => "AugmentTarget",
            Code::BadAugment => "BadAugment",
            Code::TreeTooDeep => "TreeTooDeep",
            Code::BadRestriction => "BadRestriction",
            Code::BadPattern => "BadPattern",
            Code::BadNumbering => "BadNumbering",
            Code::BadType => "BadType",
            Code::TooManyMembers => "TooManyMembers",
            Code::DuplicateNode => "DuplicateNode",
            Code::BadKey => "BadKey",
            Code::BadUnique => "BadUnique",
            Code::BadConfig => "BadConfig",
            Code::BadDefault => "BadDefault",
            Code::BadMandatory => "BadMandatory",
            Code::BadPath => "BadPath",
            Code::PathCycle => "PathCycle",
            Code::BadOperation => "BadOperation",
        }
    }

    /// The phase of compilation in which the code is asked, from 1 to 10.
    pub fn phase(self) -> u8
        ensures { result ≡ phase_of self }
    {
        match self {
            Code::NotUtf8
            | Code::BadCharacter
            | Code::BadToken
            | Code::BadEscape
            | Code::BadSyntax
            | Code::TooDeep
            | Code::TooLarge => 1,
            Code::Unsupported | Code::UnknownStatement | Code::Cardinality | Code::BadArgument => 2,
            Code::DuplicateModule
            | Code::MissingModule
            | Code::Revision
            | Code::ImportCycle
            | Code::UnknownPrefix
            | Code::Submodule => 3,
            Code::UnknownFeature | Code::FeatureCycle => 4,
            Code::UnknownIdentity | Code::IdentityCycle => 5,
            Code::DuplicateName
            | Code::UnknownType
            | Code::TypeCycle
            | Code::UnknownGrouping
            | Code::GroupingCycle => 6,
            Code::TooManyNodes => 7,
            Code::RefineTarget
            | Code::BadRefine
            | Code::AugmentTarget
            | Code::BadAugment
            | Code::TreeTooDeep => 8,
            Code::BadRestriction
            | Code::BadPattern
            | Code::BadNumbering
            | Code::BadType
            | Code::TooManyMembers => 9,
            Code::DuplicateNode
            | Code::BadKey
            | Code::BadUnique
            | Code::BadConfig
            | Code::BadDefault
            | Code::BadMandatory
            | Code::BadPath
            | Code::PathCycle
            | Code::BadOperation => 10,
        }
    }

    // Its place among all codes.
    #[tactic(auto, unfolding(crate::specs::Codes::number_of))]
    fn number(self) -> u8
        ensures { result ≡ number_of self }
    {
        self as u8
    }
}

impl Refusal {
    // Whether this one comes first, or both are one. It is seldom asked, and stays a function of
    // its own, so that `lesser` is small.
    #[inline(never)]
    fn is_up_to(&self, other: &Refusal) -> bool
        ensures { IsTrue result ↔ IsUpTo self.now other.now }
    {
        let phase = self.code.phase();
        let other_phase = other.code.phase();
        if phase != other_phase {
            return phase < other_phase;
        }
        if self.file != other.file {
            return self.file < other.file;
        }
        if self.offset != other.offset {
            return self.offset < other.offset;
        }
        let number = self.code.number();
        let other_number = other.code.number();
        if number != other_number {
            return number < other_number;
        }
        self.line <= other.line
    }
}

/// The lesser of two answers, by phase, file, offset and code.
#[inline(always)]
pub fn lesser(first: Option<Refusal>, second: Option<Refusal>) -> Option<Refusal>
    ensures { IsLesser first second result }
{
    match (first, second) {
        (Some(r), Some(s)) => { if r.is_up_to(&s) { Some(r) } else { Some(s) } }
        (Some(r), None) => Some(r),
        (None, other) => other,
    }
}

/// The refusal of this statement of a file, where it is bad.
pub fn refusal_if(bad: bool, code: Code, file: u32, statement: &Statement) -> Option<Refusal>
    ensures { result ≡ (if bad then Some (refusal_at code file statement.now.head) else None) }
{
    if bad {
        Some(Refusal {
            code,
            file,
            offset: statement.offset(),
            line: statement.line(),
        })
    } else {
        None
    }
}
