//! Statements that are misplaced, duplicate, missing or misspelt.
use yv_note_statements::{Guess, Message, Site, Sites, is_among, nearest_word, say_guess};
use yv_text_statement::{Code, Keyword};

const FILES: &str = "module submodule";

const SCOPES: &str =
    "module submodule container list grouping rpc action input output notification";

const NODES: &str =
    "module submodule container list choice case grouping augment input output notification";

const BLOCKS: &str =
    "module submodule container list case grouping augment input output notification";

const CONDITIONED: &str =
    "container leaf leaf-list list choice case anydata anyxml uses refine augment rpc action \
    notification identity feature enum bit";

const DESCRIBED: &str =
    "module submodule import include revision typedef container leaf leaf-list list choice case \
    anydata anyxml grouping uses refine augment rpc action notification identity feature \
    extension enum bit range length pattern";

const STATUS: &str =
    "typedef container leaf leaf-list list choice case anydata anyxml grouping uses augment rpc \
    action notification identity feature extension enum bit";

static KEYWORDS: &str =
    "yang-version namespace prefix belongs-to organization contact import include revision \
    revision-date identity feature extension rpc typedef grouping container leaf leaf-list \
    list choice anydata anyxml uses case augment refine action notification input output type \
    units default config mandatory presence key unique min-elements max-elements ordered-by \
    if-feature status description reference base range length pattern enum bit path \
    fraction-digits require-instance value position modifier error-message error-app-tag \
    argument yin-element module submodule must when deviation deviate";

/// Whether YANG has statements of a keyword.
pub(crate) fn is_known(keyword: Keyword) -> bool {
    !matches!(keyword, Keyword::Extended | Keyword::Unknown)
}

// Statements of these keywords, and those of which they may be substatements (RFC 7950, sections 7
// and 9).
static PARENTS: &[(&str, &str)] = &[
    (
        "yang-version organization contact import include revision identity feature \
            extension rpc",
        FILES,
    ),
    ("namespace", "module"),
    ("prefix", "module import belongs-to"),
    ("belongs-to", "submodule"),
    ("revision-date", "import include"),
    ("typedef grouping", SCOPES),
    ("container leaf leaf-list list choice anydata anyxml", NODES),
    ("uses", BLOCKS),
    ("case", "choice augment"),
    ("augment", "module submodule uses"),
    ("refine", "uses"),
    ("action", "container list grouping augment"),
    (
        "notification",
        "module submodule container list grouping augment",
    ),
    ("input output", "rpc action"),
    ("type", "leaf leaf-list typedef type"),
    ("units", "leaf leaf-list typedef"),
    ("default", "leaf leaf-list typedef choice refine"),
    (
        "config",
        "container leaf leaf-list list choice anydata anyxml refine",
    ),
    ("mandatory", "leaf choice anydata anyxml refine"),
    ("presence", "container refine"),
    ("key unique", "list"),
    ("min-elements max-elements", "leaf-list list refine"),
    ("ordered-by", "leaf-list list"),
    ("if-feature", CONDITIONED),
    ("status", STATUS),
    ("description reference", DESCRIBED),
    ("base", "identity type"),
    (
        "range length pattern enum bit path fraction-digits require-instance",
        "type",
    ),
    ("value", "enum"),
    ("position", "bit"),
    ("modifier", "pattern"),
    ("error-message error-app-tag", "range length pattern"),
    ("argument", "extension"),
    ("yin-element", "argument"),
];

// The statements of which one of this keyword may be a substatement.
fn parents_of(keyword: &str) -> &'static str {
    match PARENTS
        .iter()
        .find(|(keywords, _)| is_among(keyword, keywords))
    {
        Some((_, parents)) => parents,
        None => "",
    }
}

// Statements of these keywords, and a substatement that they need, with how it is written.
struct Need {
    keywords: &'static [Keyword],
    needed: Keyword,
    word: &'static str,
}

static NEEDS: &[Need] = &[
    Need {
        keywords: &[Keyword::Module],
        needed: Keyword::Namespace,
        word: "namespace",
    },
    Need {
        keywords: &[Keyword::Module, Keyword::BelongsTo, Keyword::Import],
        needed: Keyword::Prefix,
        word: "prefix",
    },
    Need {
        keywords: &[Keyword::Submodule],
        needed: Keyword::BelongsTo,
        word: "belongs-to",
    },
    Need {
        keywords: &[Keyword::Leaf, Keyword::LeafList, Keyword::Typedef],
        needed: Keyword::Type,
        word: "type",
    },
];

// The statements after one, in whose block they may be.
fn next_sites<'s, 'a>(site: &Site<'s, 'a>) -> Sites<'s, 'a> {
    Sites::after(site.entries, site.number)
}

// The first statement of this keyword in a block.
fn first_inner<'s, 'a>(site: &Site<'s, 'a>, keyword: Keyword) -> Option<Site<'s, 'a>> {
    next_sites(site).find(|inner| inner.is(keyword) && inner.is_right_in(site))
}

// The first substatement that a statement needs and lacks.
fn missing_substatement(site: &Site<'_, '_>) -> Option<&'static str> {
    let need = NEEDS.iter().find(|need| {
        site.is_one_of(need.keywords) && first_inner(site, need.needed).is_none()
    })?;
    Some(need.word)
}

// The first of a block's statements whose keyword means nothing, and is like one that is needed.
fn misspelt<'s, 'a>(site: &Site<'s, 'a>, needed: &str) -> Option<Site<'s, 'a>> {
    next_sites(site).find(|inner| inner.is_right_in(site) && is_misspelt(inner, needed))
}

// Whether a statement's keyword means nothing, and is like one that is needed.
fn is_misspelt(site: &Site<'_, '_>, needed: &str) -> bool {
    Guess::of(site.keyword(), needed, None).is_some() && !is_known(site.kind())
}

// The first statement of the same keyword in the same block, if this is a later one.
fn first_of_keyword<'s, 'a>(site: &Site<'s, 'a>, parent: &Site<'s, 'a>) -> Option<Site<'s, 'a>> {
    first_inner(parent, site.kind()).filter(|first| first.number < site.number)
}

// Adds the statements in which a statement may be.
fn say_parents(telling: &mut Message<'_>, keyword: &str) {
    let parents = parents_of(keyword);
    let count = parents.split_whitespace().count();
    for (place, parent) in parents.split_whitespace().enumerate() {
        telling.say(link(place, count));
        telling.say(parent);
    }
    telling.say(if parents.is_empty() { "" } else { "." });
}

// What is said before a parent, of so many.
fn link(place: usize, count: usize) -> &'static str {
    if place == 0 {
        " It can be in "
    } else if place.saturating_add(1) == count {
        " or "
    } else {
        ", "
    }
}

// Adds that a statement is not where it may be.
fn tell_misplaced<'a>(telling: &mut Message<'a>, site: &Site<'_, 'a>, parent: &Site<'_, 'a>) {
    telling.subject("", " can't be in ");
    telling.statement("", parent, ".");
    say_parents(telling, site.keyword());
}

// Adds that a statement may be there only once.
fn tell_second_statement<'a>(
    telling: &mut Message<'a>,
    site: &Site<'_, 'a>,
    parent: &Site<'_, 'a>,
) {
    telling.subject("", " is here a second time: ");
    telling.statement("", parent, " can have only one.");
    if let Some(first) = first_of_keyword(site, parent) {
        telling.point(" The first is at ", &first, ".");
    }
}

// Adds which substatement is missing, and whether one seems to be meant for it.
fn tell_lacking<'a>(telling: &mut Message<'a>, site: &Site<'_, 'a>, needed: &'a str) {
    telling.subject("", " needs the substatement `");
    telling.say(needed);
    telling.say("`.");
    if let Some(child) = misspelt(site, needed) {
        telling.quote(" Is it meant by ", child.keyword(), "");
        telling.point(" at ", &child, "?");
    }
}

/// Adds why a statement may not be where it is, or what it lacks.
pub fn tell_cardinality<'a>(telling: &mut Message<'a>, site: &Site<'_, 'a>) {
    let Some(parent) = site.parent() else {
        tell_root(telling, site);
        return;
    };
    if !is_among(parent.keyword(), parents_of(site.keyword())) {
        tell_misplaced(telling, site, &parent);
    } else if let Some(needed) = missing_substatement(site) {
        tell_lacking(telling, site, needed);
    } else {
        tell_second_statement(telling, site, &parent);
    }
}

// The keywords of the outermost statements of files.
static ROOTS: &[Keyword] = &[Keyword::Module, Keyword::Submodule];

fn tell_root<'a>(telling: &mut Message<'a>, site: &Site<'_, 'a>) {
    match missing_substatement(site) {
        Some(needed) if site.is_one_of(ROOTS) => tell_lacking(telling, site, needed),
        _ => telling.subject(
            "",
            " can't be the outermost statement of a file: that is `module` or `submodule`.",
        ),
    }
}

/// Adds what may be meant by a keyword that YANG doesn't have.
pub fn tell_keyword<'a>(telling: &mut Message<'a>, site: &Site<'_, 'a>) {
    telling.sentence(Code::UnknownStatement);
    say_guess(telling, nearest_word(site.keyword(), KEYWORDS));
}
