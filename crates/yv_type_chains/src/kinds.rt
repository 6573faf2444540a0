//! The built-in types, and the substatements that each takes.
ghost use Rattle.std.specs.Prelude.{◌≡◌, map};
ghost use Rattle.yv_type_chains.specs.{Kinds.{is_of_built_in, is_foreign, needs, needs_any}, InnerPairs.{is_in_pair, is_one_of, is_paired, may_be_needed, pair}};

use yv_text_statement::{Keyword, Statement};

// A built-in type and the keyword of a substatement.
struct Pair {
    kind: &'static str,
    keyword: Keyword,
}

// Keywords by their names.
macro_rules! keywords {
    ($($keyword:ident,)*) => {
        [$(Keyword::$keyword),*]
    };
}

// Pairs, each of a type and a substatement.
macro_rules! pairs {
    ($($kind:literal $keyword:ident,)*) => {
        [$(Pair { kind: $kind, keyword: Keyword::$keyword }),*]
    };
}

static RESTRICTIONS: [Keyword; 10] = keywords![
    Range,
    FractionDigits,
    Length,
    Pattern,
    Enum,
    Bit,
    Base,
    Path,
    RequireInstance,
    Type,
];

static OF_BUILT_IN: [Keyword; 4] = keywords![FractionDigits, Path, Base, Type,];

static TAKEN: [Pair; 20] = pairs![
    "int8" Range,
    "int16" Range,
    "int32" Range,
    "int64" Range,
    "uint8" Range,
    "uint16" Range,
    "uint32" Range,
    "uint64" Range,
    "decimal64" Range,
    "decimal64" FractionDigits,
    "string" Length,
    "string" Pattern,
    "binary" Length,
    "enumeration" Enum,
    "bits" Bit,
    "identityref" Base,
    "leafref" Path,
    "leafref" RequireInstance,
    "union" Type,
    "instance-identifier" RequireInstance,
];

static NEEDED: [Pair; 6] = pairs![
    "decimal64" FractionDigits,
    "enumeration" Enum,
    "bits" Bit,
    "identityref" Base,
    "leafref" Path,
    "union" Type,
];

// Whether the keyword is one of these.
fn is_one_of(keywords: &[Keyword], keyword: Keyword) -> bool
    ensures { result ≡ is_one_of keywords.now keyword }
{
    for word in keywords {
        if keyword == *word {
            return true;
        }
    }
    false
}

// Whether the two are a pair.
fn is_paired(pairs: &[Pair], kind: &str, keyword: Keyword) -> bool
    ensures { result ≡ is_paired (map pair pairs.now) kind.now keyword }
{
    for pair in pairs {
        if keyword == pair.keyword && pair.kind == kind {
            return true;
        }
    }
    false
}

// Whether the type is in a pair.
fn is_in_pair(pairs: &[Pair], kind: &str) -> bool
    ensures { result ≡ is_in_pair (map pair pairs.now) kind.now }
{
    for pair in pairs {
        if pair.kind == kind {
            return true;
        }
    }
    false
}

// Whether a type may need a substatement of this keyword. Most are none, and then no names are
// compared.
fn may_be_needed(keyword: Keyword) -> bool
    ensures { result ≡ may_be_needed keyword }
{
    matches!(
        keyword,
        Keyword::FractionDigits
            | Keyword::Enum
            | Keyword::Bit
            | Keyword::Base
            | Keyword::Path
            | Keyword::Type
    )
}

/// Whether a substatement is a restriction that the built-in type doesn't take.
pub(crate) fn is_foreign(kind: &str, statement: &Statement<'_>) -> bool
    ensures { result ≡ is_foreign kind.now statement.now.head.keyword }
{
    let keyword = statement.kind();
    is_one_of(&RESTRICTIONS, keyword) && !is_paired(&TAKEN, kind, keyword)
}

/// Whether a substatement is one that no derived type takes.
pub(crate) fn is_of_built_in(statement: &Statement<'_>) -> bool
    ensures { result ≡ is_of_built_in statement.now.head.keyword }
{
    is_one_of(&OF_BUILT_IN, statement.kind())
}

/// Whether the built-in type must have a substatement.
pub(crate) fn needs(kind: &str, statement: &Statement<'_>) -> bool
    ensures { result ≡ needs kind.now statement.now.head.keyword }
{
    let keyword = statement.kind();
    may_be_needed(keyword) && is_paired(&NEEDED, kind, keyword)
}

/// Whether there is a substatement that the built-in type must have.
#[tactic(auto, unfolding(crate::specs::Kinds::needs_any))]
pub(crate) fn needs_any(kind: &str) -> bool
    ensures { result ≡ needs_any kind.now }
{
    is_in_pair(&NEEDED, kind)
}
