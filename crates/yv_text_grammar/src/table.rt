//! Which substatements each statement may have, and how often.
ghost use Rattle.std.specs.Prelude.{◌≡◌, map};
ghost use Rattle.yv_text_grammar.specs.{InnerEntries.{row}, Table.{is_one, rows_of}};

use yv_text_statement::Keyword;

/// How often a substatement may occur in a block.
#[derive(Clone, Copy, PartialEq, Eq, Debug)]
pub enum Occurs {
    /// Exactly once.
    One,
    /// At most once.
    Optional,
    /// Any number of times.
    Any,
}

impl Occurs {
    pub fn is_one(self) -> bool
        ensures { result ≡ is_one self }
    {
        matches!(self, Occurs::One)
    }
}

/// A substatement that is allowed in a block.
pub struct Row {
    pub child: Keyword,
    pub occurs: Occurs,
}

macro_rules! rows {
    ($($child:ident: $occurs:ident),* $(,)?) => {
        &[$(Row { child: Keyword::$child, occurs: Occurs::$occurs }),*]
    };
}

static MODULE: &[Row] = rows![
    YangVersion: Optional, Namespace: One, Prefix: One, Organization: Optional, Contact: Optional,
    Description: Optional, Reference: Optional, Import: Any, Include: Any, Revision: Any,
    Container: Any, Leaf: Any, LeafList: Any, List: Any, Choice: Any, Anydata: Any, Anyxml: Any,
    Uses: Any, Augment: Any, Rpc: Any, Notification: Any, Typedef: Any, Grouping: Any,
    Identity: Any, Feature: Any, Extension: Any,
];

static SUBMODULE: &[Row] = rows![
    YangVersion: Optional, BelongsTo: One, Organization: Optional, Contact: Optional,
    Description: Optional, Reference: Optional, Import: Any, Include: Any, Revision: Any,
    Container: Any, Leaf: Any, LeafList: Any, List: Any, Choice: Any, Anydata: Any, Anyxml: Any,
    Uses: Any, Augment: Any, Rpc: Any, Notification: Any, Typedef: Any, Grouping: Any,
    Identity: Any, Feature: Any, Extension: Any,
];

static IMPORT: &[Row] = rows![
    Prefix: One, RevisionDate: Optional, Description: Optional, Reference: Optional,
];

static INCLUDE: &[Row] = rows![
    RevisionDate: Optional, Description: Optional, Reference: Optional,
];

static BELONGS_TO: &[Row] = rows![
    Prefix: One,
];

static REVISION: &[Row] = rows![
    Description: Optional, Reference: Optional,
];

static TYPEDEF: &[Row] = rows![
    Type: One, Default: Optional, Units: Optional, Status: Optional, Description: Optional,
    Reference: Optional,
];

static TYPE: &[Row] = rows![
    Base: Any, Bit: Any, Enum: Any, FractionDigits: Optional, Length: Optional, Path: Optional,
    Pattern: Any, Range: Optional, RequireInstance: Optional, Type: Any,
];

static CONTAINER: &[Row] = rows![
    Container: Any, Leaf: Any, LeafList: Any, List: Any, Choice: Any, Anydata: Any, Anyxml: Any,
    Uses: Any, Action: Any, Notification: Any, Typedef: Any, Grouping: Any, Config: Optional,
    Presence: Optional, Must: Any, When: Optional, IfFeature: Any, Status: Optional,
    Description: Optional, Reference: Optional,
];

static MUST: &[Row] = rows![
    ErrorMessage: Optional, ErrorAppTag: Optional, Description: Optional, Reference: Optional,
];

static WHEN: &[Row] = rows![
    Description: Optional, Reference: Optional,
];

static LEAF: &[Row] = rows![
    Type: One, Units: Optional, Default: Optional, Config: Optional, Mandatory: Optional, Must: Any,
    When: Optional, IfFeature: Any, Status: Optional, Description: Optional, Reference: Optional,
];

static LEAF_LIST: &[Row] = rows![
    Type: One, Units: Optional, Default: Any, Config: Optional, MinElements: Optional,
    MaxElements: Optional, OrderedBy: Optional, Must: Any, When: Optional, IfFeature: Any,
    Status: Optional, Description: Optional, Reference: Optional,
];

static LIST: &[Row] = rows![
    Container: Any, Leaf: Any, LeafList: Any, List: Any, Choice: Any, Anydata: Any, Anyxml: Any,
    Uses: Any, Action: Any, Notification: Any, Typedef: Any, Grouping: Any, Config: Optional,
    Key: Optional, Unique: Any, MinElements: Optional, MaxElements: Optional, OrderedBy: Optional,
    Must: Any, When: Optional, IfFeature: Any, Status: Optional, Description: Optional,
    Reference: Optional,
];

static CHOICE: &[Row] = rows![
    Case: Any, Choice: Any, Container: Any, Leaf: Any, LeafList: Any, List: Any, Anydata: Any,
    Anyxml: Any, Default: Optional, Config: Optional, Mandatory: Optional, When: Optional,
    IfFeature: Any, Status: Optional, Description: Optional, Reference: Optional,
];

static CASE: &[Row] = rows![
    Container: Any, Leaf: Any, LeafList: Any, List: Any, Choice: Any, Anydata: Any, Anyxml: Any,
    Uses: Any, When: Optional, IfFeature: Any, Status: Optional, Description: Optional,
    Reference: Optional,
];

static ANYDATA: &[Row] = rows![
    Config: Optional, Mandatory: Optional, Must: Any, When: Optional, IfFeature: Any,
    Status: Optional, Description: Optional, Reference: Optional,
];

static ANYXML: &[Row] = rows![
    Config: Optional, Mandatory: Optional, Must: Any, When: Optional, IfFeature: Any,
    Status: Optional, Description: Optional, Reference: Optional,
];

static GROUPING: &[Row] = rows![
    Container: Any, Leaf: Any, LeafList: Any, List: Any, Choice: Any, Anydata: Any, Anyxml: Any,
    Uses: Any, Action: Any, Notification: Any, Typedef: Any, Grouping: Any, Status: Optional,
    Description: Optional, Reference: Optional,
];

static USES: &[Row] = rows![
    Refine: Any, Augment: Any, When: Optional, IfFeature: Any, Status: Optional,
    Description: Optional, Reference: Optional,
];

static REFINE: &[Row] = rows![
    Default: Any, Config: Optional, Mandatory: Optional, Presence: Optional, MinElements: Optional,
    MaxElements: Optional, Must: Any, IfFeature: Any, Description: Optional, Reference: Optional,
];

static AUGMENT: &[Row] = rows![
    Container: Any, Leaf: Any, LeafList: Any, List: Any, Choice: Any, Anydata: Any, Anyxml: Any,
    Uses: Any, Case: Any, Action: Any, Notification: Any, When: Optional, IfFeature: Any,
    Status: Optional, Description: Optional, Reference: Optional,
];

static RPC: &[Row] = rows![
    Input: Optional, Output: Optional, Typedef: Any, Grouping: Any, IfFeature: Any,
    Status: Optional, Description: Optional, Reference: Optional,
];

static ACTION: &[Row] = rows![
    Input: Optional, Output: Optional, Typedef: Any, Grouping: Any, IfFeature: Any,
    Status: Optional, Description: Optional, Reference: Optional,
];

static INPUT: &[Row] = rows![
    Container: Any, Leaf: Any, LeafList: Any, List: Any, Choice: Any, Anydata: Any, Anyxml: Any,
    Uses: Any, Must: Any, Typedef: Any, Grouping: Any,
];

static OUTPUT: &[Row] = rows![
    Container: Any, Leaf: Any, LeafList: Any, List: Any, Choice: Any, Anydata: Any, Anyxml: Any,
    Uses: Any, Must: Any, Typedef: Any, Grouping: Any,
];

static NOTIFICATION: &[Row] = rows![
    Container: Any, Leaf: Any, LeafList: Any, List: Any, Choice: Any, Anydata: Any, Anyxml: Any,
    Uses: Any, Must: Any, Typedef: Any, Grouping: Any, IfFeature: Any, Status: Optional,
    Description: Optional, Reference: Optional,
];

static IDENTITY: &[Row] = rows![
    Base: Any, IfFeature: Any, Status: Optional, Description: Optional, Reference: Optional,
];

static FEATURE: &[Row] = rows![
    IfFeature: Any, Status: Optional, Description: Optional, Reference: Optional,
];

static EXTENSION: &[Row] = rows![
    Argument: Optional, Status: Optional, Description: Optional, Reference: Optional,
];

static ARGUMENT: &[Row] = rows![
    YinElement: Optional,
];

static ENUM: &[Row] = rows![
    Value: Optional, IfFeature: Any, Status: Optional, Description: Optional, Reference: Optional,
];

static BIT: &[Row] = rows![
    Position: Optional, IfFeature: Any, Status: Optional, Description: Optional,
    Reference: Optional,
];

static RANGE: &[Row] = rows![
    ErrorMessage: Optional, ErrorAppTag: Optional, Description: Optional, Reference: Optional,
];

static LENGTH: &[Row] = rows![
    ErrorMessage: Optional, ErrorAppTag: Optional, Description: Optional, Reference: Optional,
];

static PATTERN: &[Row] = rows![
    Modifier: Optional, ErrorMessage: Optional, ErrorAppTag: Optional, Description: Optional,
    Reference: Optional,
];

/// The children that a statement with this keyword may have.
#[tactic(auto, unfolding(crate::specs::Table::rows_of))]
pub fn rows(parent: Keyword) -> &'static [Row]
    ensures { map row result.now ≡ rows_of parent }
{
    match parent {
        Keyword::Module => MODULE,
        Keyword::Submodule => SUBMODULE,
        Keyword::Import => IMPORT,
        Keyword::Include => INCLUDE,
        Keyword::BelongsTo => BELONGS_TO,
        Keyword::Revision => REVISION,
        Keyword::Typedef => TYPEDEF,
        Keyword::Type => TYPE,
        Keyword::Container => CONTAINER,
        Keyword::Must => MUST,
        Keyword::When => WHEN,
        Keyword::Leaf => LEAF,
        Keyword::LeafList => LEAF_LIST,
        Keyword::List => LIST,
        Keyword::Choice => CHOICE,
        Keyword::Case => CASE,
        Keyword::Anydata => ANYDATA,
        Keyword::Anyxml => ANYXML,
        Keyword::Grouping => GROUPING,
        Keyword::Uses => USES,
        Keyword::Refine => REFINE,
        Keyword::Augment => AUGMENT,
        Keyword::Rpc => RPC,
        Keyword::Action => ACTION,
        Keyword::Input => INPUT,
        Keyword::Output => OUTPUT,
        Keyword::Notification => NOTIFICATION,
        Keyword::Identity => IDENTITY,
        Keyword::Feature => FEATURE,
        Keyword::Extension => EXTENSION,
        Keyword::Argument => ARGUMENT,
        Keyword::Enum => ENUM,
        Keyword::Bit => BIT,
        Keyword::Range => RANGE,
        Keyword::Length => LENGTH,
        Keyword::Pattern => PATTERN,
        _ => &[],
    }
}
