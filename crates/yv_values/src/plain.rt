//! Plain types.
ghost use Rattle.std.specs.Prelude.{◌≡◌, ◌↔◌, true, IsTrue, IfOk};
ghost use Rattle.yv_base_numbers.specs.Intervals.{interval};
ghost use Rattle.yv_values.specs.{Types.{plain_of, strings}, SameTypes.{is_one, is_simple}};

use crate::members::Members;
use crate::names::NameSet;
use crate::patterns::PatternTests;
use std::alloc::AllocError;
use yv_base_numbers::{Intervals, Span};

/// A type of whole numbers: whether JSON writes them as texts, as it does those of 64 bits (RFC
/// 7951, section 6.1), and the intervals of its range.
#[derive(Drop)]
pub struct WholeType {
    pub is_text: bool,
    pub spans: Intervals,
}

/// A decimal64: its fraction digits, and the intervals of the number scaled by them.
#[derive(Drop)]
pub struct DecimalType {
    pub digits: u32,
    pub spans: Intervals,
}

/// A string type: the intervals of its lengths in characters, and its patterns, all of which must
/// match.
#[derive(Drop)]
pub struct TextType {
    pub lengths: Intervals,
    pub patterns: PatternTests,
}

/// A type with typedefs, unions and leafrefs followed, so that one test decides its values. Its
/// lists are shared by its copies.
#[derive(Drop)]
pub enum PlainType {
    Whole(WholeType),
    Decimal(DecimalType),
    Text(TextType),
    Boolean,
    /// The names that are values; one whose `if-feature` is false is not among them.
    Enumeration(NameSet),
    Bits(NameSet),
    /// The intervals of the lengths in octets.
    Binary(Intervals),
    /// The identities that are values.
    Identity(Members),
    Empty,
}

impl PlainType {
    /// The same type once more, over the same lists.
    pub fn copy(&self) -> Result<PlainType, AllocError>
        ensures { IfOk result (λ copy. plain_of copy ≡ plain_of self.now) }
    {
        match self {
            PlainType::Whole(whole) => Ok(PlainType::Whole(WholeType {
                is_text: whole.is_text,
                spans: whole.spans.copy()?,
            })),
            PlainType::Decimal(decimal) => Ok(PlainType::Decimal(DecimalType {
                digits: decimal.digits,
                spans: decimal.spans.copy()?,
            })),
            PlainType::Text(text) => Ok(PlainType::Text(text.copy()?)),
            PlainType::Boolean => Ok(PlainType::Boolean),
            PlainType::Enumeration(names) => Ok(PlainType::Enumeration(names.copy()?)),
            PlainType::Bits(names) => Ok(PlainType::Bits(names.copy()?)),
            PlainType::Binary(lengths) => Ok(PlainType::Binary(lengths.copy()?)),
            PlainType::Identity(members) => Ok(PlainType::Identity(members.copy()?)),
            PlainType::Empty => Ok(PlainType::Empty),
        }
    }

    /// Whether both are one type, as far as that is seen at once: types of whole numbers or of
    /// texts with one interval and without patterns, Boolean, and empty. It takes constant time.
    pub fn is_same(&self, other: &PlainType) -> bool
        // If it is true, both are the same type.
        ensures same { result ≡ true → plain_of self.now ≡ plain_of other.now }
        // Then it is one of these simple types.
        ensures simple { result ≡ true → IsTrue (is_simple (plain_of self.now)) }
        // It is true of all equal types among these.
        ensures all { IsTrue (is_simple (plain_of self.now))
            → plain_of self.now ≡ plain_of other.now → result ≡ true }
    {
        match (self, other) {
            (PlainType::Whole(one), PlainType::Whole(other)) => {
                one.is_text == other.is_text && have_one_span(&one.spans, &other.spans)
            }
            (PlainType::Text(one), PlainType::Text(other)) => one.is_same(other),
            (PlainType::Boolean, PlainType::Boolean) => true,
            (PlainType::Empty, PlainType::Empty) => true,
            _ => false,
        }
    }
}

// Whether both have one interval, and that is the same.
fn have_one_span(one: &Intervals, other: &Intervals) -> bool
    ensures same { result ≡ true → one.now ≡ other.now }
    ensures simple { result ≡ true → IsTrue (is_one one.now) }
    ensures all { IsTrue (is_one one.now) → one.now ≡ other.now → result ≡ true }
{
    match (one.spans(), other.spans()) {
        ([one], [other]) => is_same_span(*one, *other),
        _ => false,
    }
}

fn is_same_span(one: Span, other: Span) -> bool
    ensures { (result ≡ true) ↔ (interval one ≡ interval other) }
{
    one.low == other.low && one.high == other.high
}

impl TextType {
    // Whether both are one type of texts without patterns.
    fn is_same(&self, other: &TextType) -> bool
        ensures lengths { result ≡ true → self.now.lengths ≡ other.now.lengths }
        ensures patterns { result ≡ true → self.now.patterns ≡ other.now.patterns }
        ensures simple { result ≡ true
            → IsTrue (is_simple (strings self.now.lengths self.now.patterns)) }
        ensures all { IsTrue (is_simple (strings self.now.lengths self.now.patterns))
            → self.now.lengths ≡ other.now.lengths → self.now.patterns ≡ other.now.patterns
            → result ≡ true }
    {
        self.patterns.is_empty()
            && (other.patterns.is_empty() && have_one_span(&self.lengths, &other.lengths))
    }

    fn copy(&self) -> Result<TextType, AllocError>
        ensures lengths { IfOk result (λ copy. copy.lengths ≡ self.now.lengths) }
        ensures patterns { IfOk result (λ copy. copy.patterns ≡ self.now.patterns) }
    {
        let lengths = self.lengths.copy()?;
        let patterns = self.patterns.copy()?;
        Ok(TextType { lengths, patterns })
    }
}
