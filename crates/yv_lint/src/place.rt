//! Where a statement is.
ghost use Rattle.std.specs.{Prelude.{◌≡◌, List, [], ◌∷◌, ◌++◌, Option}, Option.{option_map}};
ghost use Rattle.yv_text_statement.specs.Tree.{Tree};
ghost use Rattle.yv_link_scopes.specs.Files.{tree_name};
ghost use Rattle.yv_lint.specs.{Dates.{is_not_before, is_unsorted}, Groups.{is_out_of_order}, InnerPlaces.{IsEarlier, date_after, place_of}, Newer.{is_newer, is_newer_condition, is_newer_default, is_newer_type}};

use crate::dates::is_earlier;
use crate::groups::group_of;
use crate::newer::{
    is_expression, is_link, is_module, is_type, restricts_names, takes_if_feature, takes_must,
};
use yv_link_scopes::name_of;
use yv_text_statement::{Keyword, Statement};

/// What is known of the statements that come before one in its block.
#[derive(Clone, Copy)]
pub struct Earlier<'a> {
    group: u8,
    date: Option<&'a str>,
    has_base: bool,
    has_default: bool,
}

// The date of the last revision, after one more statement.
fn date_after<'a>(date: Option<&'a str>, statement: &'a Statement<'_>) -> Option<&'a str>
    ensures { option_map (λ d. d.now) result
        ≡ date_after (option_map (λ d. d.now) date.entry) statement.now }
{
    if statement.is(Keyword::Revision) {
        Some(name_of(statement))
    } else {
        date
    }
}

// Whether a date isn't before another that may be there.
fn is_not_before(date: &str, other: Option<&str>) -> bool
    ensures { (r : Option Tree) → option_map tree_name r ≡ option_map (λ d. d.now) other.entry
        → result ≡ is_not_before date.now r }
{
    match other {
        None => false,
        Some(other) => !is_earlier(date, other),
    }
}

impl<'a> Earlier<'a> {
    /// At the beginning of a block.
    pub fn none() -> Earlier<'a>
        ensures { IsEarlier [] result }
    {
        Earlier {
            group: 0,
            date: None,
            has_base: false,
            has_default: false,
        }
    }

    /// Adds one more statement.
    pub fn note(&mut self, statement: &'a Statement<'_>)
        ensures { (before : List Tree) → IsEarlier before self.old
            → IsEarlier (before ++ statement.now ∷ []) self.new }
    {
        *self = self.and(statement);
    }

    // With one more statement.
    fn and(self, statement: &'a Statement<'_>) -> Earlier<'a>
        ensures { (before : List Tree) → IsEarlier before self.entry
            → IsEarlier (before ++ statement.now ∷ []) result }
    {
        Earlier {
            group: self.group.max(group_of(statement.kind())),
            date: date_after(self.date, statement),
            has_base: self.has_base || statement.is(Keyword::Base),
            has_default: self.has_default || statement.is(Keyword::Default),
        }
    }
}

/// A statement, and where it is.
#[derive(Clone, Copy)]
pub struct Place<'a, 'b> {
    /// The statement.
    pub statement: &'a Statement<'b>,
    /// The one in whose block it is.
    pub parent: &'a Statement<'b>,
    /// Whether that is the root.
    pub is_top: bool,
    /// Those that come before it in that block.
    pub earlier: Earlier<'a>,
    /// The number of the first statement in that block.
    pub start: usize,
    /// The number after that of the last one below it.
    pub end: usize,
}

impl Place<'_, '_> {
    /// Whether it is at the top, after a statement of a later group.
    pub fn is_out_of_order(&self) -> bool
        ensures { (before : List Tree) → IsEarlier before self.now.earlier
            → result ≡ is_out_of_order (place_of before self.now) }
    {
        self.is_top && group_of(self.statement.kind()) < self.earlier.group
    }

    /// Whether it is a revision whose date isn't before that of the revision before it.
    pub fn is_unsorted(&self) -> bool
        ensures { (before : List Tree) → IsEarlier before self.now.earlier
            → result ≡ is_unsorted (place_of before self.now) }
    {
        self.statement.is(Keyword::Revision)
            && is_not_before(name_of(self.statement), self.earlier.date)
    }

    // Whether it is a default of a leaf-list, or of a refine that has another one before it.
    fn is_newer_default(&self) -> bool
        ensures { (before : List Tree) → IsEarlier before self.now.earlier
            → result ≡ is_newer_default (place_of before self.now) }
    {
        self.parent.is(Keyword::LeafList)
            || self.parent.is(Keyword::Refine) && self.earlier.has_default
    }

    // Whether it is an `if-feature` that YANG 1 doesn't have.
    fn is_newer_condition(&self) -> bool
        ensures { (before : List Tree) → result ≡ is_newer_condition (place_of before self.now) }
    {
        is_expression(name_of(self.statement)) || takes_if_feature(self.parent.kind())
    }

    /// Whether it is one that YANG 1 doesn't have.
    pub fn is_newer(&self) -> bool
        ensures { (before : List Tree) → IsEarlier before self.now.earlier
            → result ≡ is_newer (place_of before self.now) }
    {
        match self.statement.kind() {
            Keyword::Action | Keyword::Anydata | Keyword::Modifier => true,
            Keyword::Notification => !is_module(self.parent.kind()),
            Keyword::Choice => self.parent.is(Keyword::Choice),
            Keyword::IfFeature => self.is_newer_condition(),
            Keyword::Description | Keyword::Reference => is_link(self.parent.kind()),
            Keyword::Must => takes_must(self.parent.kind()),
            Keyword::Base => self.earlier.has_base,
            Keyword::Enum | Keyword::Bit => restricts_names(self.parent),
            Keyword::RequireInstance => is_type(self.parent, "leafref"),
            Keyword::Type => self.is_newer_type(),
            Keyword::Default => self.is_newer_default(),
            _ => false,
        }
    }

    // Whether it is `type empty` in a union.
    fn is_newer_type(&self) -> bool
        ensures { (before : List Tree) → result ≡ is_newer_type (place_of before self.now) }
    {
        self.parent.is(Keyword::Type) && name_of(self.statement) == "empty"
    }
}
