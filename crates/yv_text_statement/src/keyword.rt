//! The keywords of YANG statements.
ghost use Rattle.std.specs.Prelude.{◌≡◌, map};
ghost use Rattle.yv_text_statement.specs.{InnerKeywords.{entry}, Keywords.{keyword_in, keyword_of}};

/// What a statement's keyword means (RFC 7950, section 14).
#[derive(Clone, Copy, PartialEq, Eq, Debug)]
pub enum Keyword {
    Module,
    Submodule,
    Import,
    Include,
    BelongsTo,
    Revision,
    Typedef,
    Type,
    Container,
    Leaf,
    LeafList,
    List,
    Choice,
    Case,
    Anydata,
    Anyxml,
    Grouping,
    Uses,
    Refine,
    Augment,
    Rpc,
    Action,
    Input,
    Output,
    Notification,
    Identity,
    Feature,
    Extension,
    Argument,
    Enum,
    Bit,
    Range,
    Length,
    Pattern,
    YangVersion,
    Namespace,
    Prefix,
    Organization,
    Contact,
    Description,
    Reference,
    RevisionDate,
    Default,
    Units,
    Status,
    Base,
    FractionDigits,
    Path,
    RequireInstance,
    Config,
    Presence,
    Mandatory,
    MinElements,
    MaxElements,
    OrderedBy,
    Key,
    Unique,
    IfFeature,
    YinElement,
    Value,
    Position,
    ErrorMessage,
    ErrorAppTag,
    Modifier,
    Must,
    When,
    Deviation,
    Deviate,
    /// One with a prefix, of an extension.
    Extended,
    /// No keyword of the language.
    Unknown,
}

// A keyword and how it is written.
struct Name(&'static str, Keyword);

// The keywords that files have most of come first, since they are searched for in this order.
static NAMES: [Name; 68] = [
    Name("leaf", Keyword::Leaf),
    Name("type", Keyword::Type),
    Name("description", Keyword::Description),
    Name("container", Keyword::Container),
    Name("list", Keyword::List),
    Name("key", Keyword::Key),
    Name("reference", Keyword::Reference),
    Name("enum", Keyword::Enum),
    Name("leaf-list", Keyword::LeafList),
    Name("uses", Keyword::Uses),
    Name("path", Keyword::Path),
    Name("mandatory", Keyword::Mandatory),
    Name("default", Keyword::Default),
    Name("config", Keyword::Config),
    Name("value", Keyword::Value),
    Name("range", Keyword::Range),
    Name("units", Keyword::Units),
    Name("status", Keyword::Status),
    Name("typedef", Keyword::Typedef),
    Name("grouping", Keyword::Grouping),
    Name("case", Keyword::Case),
    Name("choice", Keyword::Choice),
    Name("base", Keyword::Base),
    Name("identity", Keyword::Identity),
    Name("pattern", Keyword::Pattern),
    Name("length", Keyword::Length),
    Name("if-feature", Keyword::IfFeature),
    Name("augment", Keyword::Augment),
    Name("bit", Keyword::Bit),
    Name("position", Keyword::Position),
    Name("presence", Keyword::Presence),
    Name("min-elements", Keyword::MinElements),
    Name("max-elements", Keyword::MaxElements),
    Name("ordered-by", Keyword::OrderedBy),
    Name("unique", Keyword::Unique),
    Name("refine", Keyword::Refine),
    Name("require-instance", Keyword::RequireInstance),
    Name("revision", Keyword::Revision),
    Name("import", Keyword::Import),
    Name("prefix", Keyword::Prefix),
    Name("module", Keyword::Module),
    Name("submodule", Keyword::Submodule),
    Name("include", Keyword::Include),
    Name("belongs-to", Keyword::BelongsTo),
    Name("anydata", Keyword::Anydata),
    Name("anyxml", Keyword::Anyxml),
    Name("rpc", Keyword::Rpc),
    Name("action", Keyword::Action),
    Name("input", Keyword::Input),
    Name("output", Keyword::Output),
    Name("notification", Keyword::Notification),
    Name("feature", Keyword::Feature),
    Name("extension", Keyword::Extension),
    Name("argument", Keyword::Argument),
    Name("yang-version", Keyword::YangVersion),
    Name("namespace", Keyword::Namespace),
    Name("organization", Keyword::Organization),
    Name("contact", Keyword::Contact),
    Name("revision-date", Keyword::RevisionDate),
    Name("fraction-digits", Keyword::FractionDigits),
    Name("yin-element", Keyword::YinElement),
    Name("error-message", Keyword::ErrorMessage),
    Name("error-app-tag", Keyword::ErrorAppTag),
    Name("modifier", Keyword::Modifier),
    Name("must", Keyword::Must),
    Name("when", Keyword::When),
    Name("deviation", Keyword::Deviation),
    Name("deviate", Keyword::Deviate),
];

impl Keyword {
    /// The keyword that a text writes. One with a colon is an extension's (RFC 7950, section
    /// 6.3.1).
    #[tactic(auto, unfolding(crate::specs::Keywords::keyword_of))]
    pub fn read(text: &str) -> Keyword
        ensures { result ≡ keyword_of text.now }
    {
        if text.as_bytes().contains(&b':') {
            Keyword::Extended
        } else {
            find(&NAMES, text)
        }
    }
}

// The keyword of this name among names.
fn find(names: &[Name], text: &str) -> Keyword
    ensures { result ≡ keyword_in (map entry names.now) text.now }
{
    for name in names {
        if name.0 == text {
            return name.1;
        }
    }
    Keyword::Unknown
}
