//! The member types of a union, by their names.
use std::alloc::{AllocError, Global};
use yv_link_definitions::is_built_in;
use yv_link_scopes::name_of;
use yv_note_text::{Joint, push_between, push_quoted};
use yv_text_statement::{Keyword, Statement};

/// How many names of an enumeration are read to list 8: one more, which tells that there are
/// others.
const MOST_NAMES: usize = 9;

// What is said of a member type.
#[derive(Clone, Copy)]
enum Choice<'s> {
    // A value of an enumeration.
    Name(&'s str),
    // A value of a type of this name.
    Type(&'s str),
}

/// Whether one of these types is named by a typedef, so that names say more than values do.
pub(crate) fn have_typedef(members: &[&Statement<'_>]) -> bool {
    members.iter().any(|member| !is_built_in(name_of(*member)))
}

/// Adds what the member types of a union are called, and the names that enumerations among them
/// list: the first 8.
pub(crate) fn push_members(
    text: &mut String,
    members: &[&Statement<'_>],
) -> Result<(), AllocError> {
    let alloc = *text.allocator();
    let choices = choices_of(alloc, members)?;
    for (place, choice) in choices.iter().enumerate() {
        if !push_between(text, place, choices.len(), Joint::Or)? {
            break;
        }
        push_choice(text, *choice)?;
    }
    Ok(())
}

fn choices_of<'s>(
    alloc: Global,
    members: &[&'s Statement<'_>],
) -> Result<Vec<Choice<'s>>, AllocError> {
    let mut choices = Vec::new(alloc);
    for member in members.iter().take(MOST_NAMES) {
        if name_of(*member) == "enumeration" {
            push_names(&mut choices, *member)?;
        } else {
            choices.push(Choice::Type(name_of(*member)))?;
        }
    }
    Ok(choices)
}

// Adds the names that an enumeration lists.
fn push_names<'s>(
    choices: &mut Vec<Choice<'s>>,
    enumeration: &'s Statement<'_>,
) -> Result<(), AllocError> {
    let names = enumeration
        .children()
        .iter()
        .filter(|child| child.is(Keyword::Enum));
    for name in names.take(MOST_NAMES) {
        choices.push(Choice::Name(name_of(name)))?;
    }
    Ok(())
}

fn push_choice(text: &mut String, choice: Choice<'_>) -> Result<(), AllocError> {
    match choice {
        Choice::Name(name) => push_quoted(text, name),
        Choice::Type(name) => {
            text.push_str(article(name))?;
            push_quoted(text, name)
        }
    }
}

// The article before a name, by the letter that it begins with.
fn article(name: &str) -> &'static str {
    match name.as_bytes().first() {
        Some(b'A' | b'E' | b'I' | b'O' | b'a' | b'e' | b'i' | b'o') => "an ",
        _ => "a ",
    }
}
