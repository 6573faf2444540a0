//! Texts of strangers as notes for people show them: a place in a file with its line, a name in
//! quotes, a list of names, a character, and how one name is like another.
#![tactic(auto)]

mod characters;
mod clear;
mod code_points;
mod joint;
mod likeness;
mod place;
mod quotes;

pub use characters::{has_curly_quote, is_blank, quoted_size};
pub use clear::visible_char;
pub use code_points::push_code_point;
pub use joint::{Joint, push_between};
pub use likeness::{Likeness, compare};
pub use place::{excerpt, push_shown};
pub use quotes::{front, push_quoted};
