//! The rules.
ghost use Rattle.std.specs.Prelude.{◌≡◌, ◌<◌};
ghost use Rattle.yv_lint.specs.{InnerRules.{number}, Rules.{name_of}};

/// A rule: what a finding is about.
#[derive(Clone, Copy, PartialEq, Eq, Debug)]
pub enum Rule {
    FileName,
    NoRevision,
    IncompleteHeader,
    StatementOrder,
    UnusedImport,
    VersionMix,
    NoSuchDate,
    RevisionOrder,
    Version11,
    MinAboveMax,
    UnusedTypedef,
    UnusedGrouping,
    PatternAnchor,
    NoDescription,
}

/// How many rules there are.
pub const COUNT: usize = 14;

/// All rules, in the order of the findings at one statement.
pub static RULES: [Rule; COUNT] = [
    Rule::FileName,
    Rule::NoRevision,
    Rule::IncompleteHeader,
    Rule::StatementOrder,
    Rule::UnusedImport,
    Rule::VersionMix,
    Rule::NoSuchDate,
    Rule::RevisionOrder,
    Rule::Version11,
    Rule::MinAboveMax,
    Rule::UnusedTypedef,
    Rule::UnusedGrouping,
    Rule::PatternAnchor,
    Rule::NoDescription,
];

impl Rule {
    /// The name that the rule has in lines of findings, and on a command line.
    pub fn name(self) -> &'static str
        ensures { result.now ≡ name_of self }
    {
        match self {
            Rule::FileName => "FileName",
            Rule::NoRevision => "NoRevision",
            Rule::IncompleteHeader => "IncompleteHeader",
            Rule::StatementOrder => "StatementOrder",
            Rule::UnusedImport => "UnusedImport",
            Rule::VersionMix => "VersionMix",
            Rule::NoSuchDate => "NoSuchDate",
            Rule::RevisionOrder => "RevisionOrder",
            Rule::Version11 => "Version11",
            Rule::MinAboveMax => "MinAboveMax",
            Rule::UnusedTypedef => "UnusedTypedef",
            Rule::UnusedGrouping => "UnusedGrouping",
            Rule::PatternAnchor => "PatternAnchor",
            Rule::NoDescription => "NoDescription",
        }
    }

    /// The rule's place among all.
    pub(crate) fn index(self) -> usize
        ensures number { result ≡ number self }
        ensures below { result < 14 }
    {
        self as usize
    }
}
