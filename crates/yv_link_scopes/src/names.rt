//! Names, and the prefixes before them.
ghost use Rattle.std.specs.{Prelude.{◌≡◌}, Option.{option_map}};
ghost use Rattle.yv_text_statement.specs.Tree.{name_of as name_at};
ghost use Rattle.yv_link_scopes.specs.Names.{prefix_of, local_of};

use yv_text_statement::Statement;

/// The statement's argument, or no text where it has none.
pub fn name_of<'a>(statement: &'a Statement<'_>) -> &'a str
    ensures { result.now ≡ name_at statement.now.head }
{
    statement.argument().unwrap_or("")
}

/// The prefix of a name: what is before its first colon.
pub fn prefix_of(name: &str) -> Option<&str>
    ensures { option_map (λ p. p.now) result ≡ prefix_of name.now }
{
    let (prefix, _rest) = name.split_once(':')?;
    Some(prefix)
}

/// What is after the first colon of a name, or the whole name where it has none.
pub fn local(name: &str) -> &str
    ensures { result.now ≡ local_of name.now }
{
    match name.split_once(':') {
        Some((_prefix, rest)) => rest,
        None => name,
    }
}
