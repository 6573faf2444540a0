//! Values of YANG leaves: plain types, the values that they read from JSON and from defaults'
//! texts, the count of steps, and indexes of keys (RFC 7950, section 9; RFC 7951, section 6).
#![tactic(auto)]

mod binary;
mod bits;
mod decimal;
mod default_text;
mod defaults;
mod identity;
mod index;
mod key;
pub mod laws;
mod members;
mod meter;
mod name;
mod names;
mod numbered_members;
mod patterns;
mod places;
mod plain;
mod scope;
mod text;
mod value;
mod value_check;
mod whole;

pub use default_text::{read_text, read_text_with};
pub use defaults::Defaults;
pub use index::Index;
pub use members::{Member, Members};
pub use meter::Meter;
pub use names::NameSet;
pub use numbered_members::{NumberedMember, NumberedMembers};
pub use patterns::{PatternTest, PatternTests};
pub use places::KeyPlaces;
pub use plain::{DecimalType, PlainType, TextType, WholeType};
pub use scope::Scope;
pub use value::{Tuple, Value};
pub use value_check::{check, check_with};
pub use yv_base_numbers::{Integer, Intervals, Span};
pub use yv_pattern::{Matchers, Pattern, Patterns};
