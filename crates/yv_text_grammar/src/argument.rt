//! Whether a statement's argument fits.
ghost use Rattle.std.specs.{Prelude.{◌≡◌, MatchBool}, Option.{option_copied}};
ghost use Rattle.yv_text_grammar.specs.Argument.{ArgumentFits, IsSpelled, argument_has, has_form};

use crate::form::{Form, find_form};
use crate::{lists, text};
use yv_text_if_feature::{is_identifier, is_if_feature, is_name};
use yv_text_path::is_path;
use yv_text_statement::Keyword;

/// Whether the argument of a statement, in the block of a parent, is as its keyword wants it (RFC
/// 7950, section 14).
pub fn fits(parent: Keyword, keyword: Keyword, argument: Option<&str>) -> bool
    ensures { MatchBool result (ArgumentFits parent keyword (option_copied argument.entry))
        (ArgumentFits parent keyword (option_copied argument.entry) → ⊥) }
{
    let form = find_form(parent, keyword);
    let has = argument_has(form, argument);
    let is_spelled = is_spelled(form, argument);
    has && is_spelled
}

// Whether the expression of an `if-feature`, or the path of a leafref, is in its grammar.
fn is_spelled(form: Form, argument: Option<&str>) -> bool
    ensures { MatchBool result (IsSpelled form (option_copied argument.entry))
        (IsSpelled form (option_copied argument.entry) → ⊥) }
{
    match (form, argument) {
        (Form::IfFeature, Some(text)) => is_if_feature(text),
        (Form::LeafrefPath, Some(text)) => is_path(text.as_bytes()),
        _ => true,
    }
}

fn argument_has(form: Form, argument: Option<&str>) -> bool
    ensures { result ≡ argument_has form (option_copied argument.entry) }
{
    match argument {
        None => form == Form::Absent,
        Some(text) => has_form(form, text),
    }
}

fn has_form(form: Form, text: &str) -> bool
    ensures { result ≡ has_form form text.now }
{
    let bytes = text.as_bytes();
    match form {
        Form::Identifier => is_identifier(bytes),
        Form::Name => is_name(bytes),
        Form::EnumName => text::is_enum_name(text),
        Form::Version => text == "1" || text == "1.1",
        Form::Boolean => text == "true" || text == "false",
        Form::Status => text == "current" || text == "deprecated" || text == "obsolete",
        Form::OrderedBy => text == "system" || text == "user",
        Form::Modifier => text == "invert-match",
        Form::Date => text::is_date(bytes),
        Form::Unsigned => text::is_number(0, 4_294_967_295, bytes),
        Form::MaxElements => text::is_max_elements(text),
        Form::EnumValue => text::is_enum_value(bytes),
        Form::FractionDigits => text::is_fraction_digits(bytes),
        Form::Key => lists::is_key(bytes),
        Form::Unique => lists::is_unique(bytes),
        Form::DescendantPath => text::is_descendant_path(bytes),
        Form::AbsolutePath => text::is_absolute_path(bytes),
        Form::LeafrefPath | Form::IfFeature | Form::Text => true,
        Form::Absent => false,
    }
}
