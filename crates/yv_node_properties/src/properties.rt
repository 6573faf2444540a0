//! What statements say of a node that doesn't wait for its types.
ghost use Rattle.std.specs.{Prelude.{◌≡◌, ℕ}, Option.{option_map}};
ghost use Rattle.yv_text_statement.specs.declared.keyword.Keyword.TheVariants as word;
ghost use Rattle.yv_node_properties.specs.{Marks.{is_mandatory, over, silent, stated_of}, Properties.{elements_of, is_true, least_of, substatements_of}};

use crate::substatements::{first_of, has, name_of};
use yv_base_numbers::{Integer, integer_of};
use yv_text_grammar::Keyword;
use yv_text_statement::Statement;

/// The properties of a node that statements say, where they do (RFC 7950, section 7.13.2).
#[derive(Clone, Copy, Debug, PartialEq, Eq)]
pub struct StatedProperties {
    /// The truth of its `config` statement.
    pub config: Option<bool>,
    /// The truth of its `mandatory` statement.
    pub mandatory: Option<bool>,
    /// It has a `presence` statement.
    pub presence: bool,
    /// The least number of its entries.
    pub min: Option<u32>,
}

impl StatedProperties {
    /// Nothing is said.
    pub fn nothing() -> StatedProperties
        ensures { result ≡ stated_of silent }
    {
        StatedProperties {
            config: None,
            mandatory: None,
            presence: false,
            min: None,
        }
    }

    /// What a statement says, the first substatement of each keyword.
    pub fn read(statement: &Statement<'_>) -> StatedProperties
        ensures { (file : ℕ) → result ≡ stated_of (substatements_of file statement.now) }
    {
        StatedProperties {
            config: truth_in(Keyword::Config, statement),
            mandatory: truth_in(Keyword::Mandatory, statement),
            presence: has(Keyword::Presence, statement),
            min: least_in(statement),
        }
    }

    /// What this says, and else what was said before.
    pub fn over(self, earlier: StatedProperties) -> StatedProperties
        ensures { result ≡ over self earlier }
    {
        StatedProperties {
            config: self.config.or(earlier.config),
            mandatory: self.mandatory.or(earlier.mandatory),
            presence: self.presence || earlier.presence,
            min: self.min.or(earlier.min),
        }
    }

    /// Whether a node whose statements say this is mandatory by itself: by its `mandatory`
    /// statement, or by a `min-elements` above 0.
    pub fn is_mandatory(self) -> bool
        ensures { result ≡ is_mandatory self }
    {
        self.mandatory.unwrap_or(false) || self.min.unwrap_or(0) > 0
    }
}

// What the first substatement of this keyword says, if there is one: true, or anything else.
fn truth_in(keyword: Keyword, statement: &Statement<'_>) -> Option<bool>
    ensures { (file : ℕ) → result
        ≡ option_map is_true (substatements_of file statement.now keyword) }
{
    match first_of(keyword, statement) {
        Some(found) => Some(name_of(found) == "true"),
        None => None,
    }
}

// The least number of entries, where that is said.
fn least_in(statement: &Statement<'_>) -> Option<u32>
    ensures { (file : ℕ) → result
        ≡ option_map least_of (substatements_of file statement.now word.MinElements) }
{
    match first_of(Keyword::MinElements, statement) {
        Some(found) => Some(elements(name_of(found)).unwrap_or(0)),
        None => None,
    }
}

ghost use Rattle.yv_base_numbers.specs.Numbers.{integer_of};
ghost use Rattle.yv_node_properties.specs.Properties.{elements};

/// A number of entries. In a file that conforms it always fits in 32 bits; `unbounded` is not a
/// number.
pub fn elements(text: &str) -> Option<u32>
    ensures { result ≡ elements (integer_of text.now) }
{
    match integer_of(text.as_bytes()) {
        Some(Integer::Natural(number)) if number < 1 << 32 => Some(number as u32),
        _ => None,
    }
}
