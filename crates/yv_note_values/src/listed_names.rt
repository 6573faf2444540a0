//! The names that are values of enumerations, bits and identityrefs.
use serde_json::Value;
use std::alloc::{AllocError, Global};
use std::rc::RcStr;
use yv_note_text::{Joint, Likeness, compare, push_between, push_quoted};
use yv_values::{Member, Members, PlainType};

/// Among how many names of a type one is looked for that is like what is written.
const MOST_COMPARED: usize = 1000;

/// How many identities are read to list 8: one more, which tells that there are others.
const MOST_LISTED: usize = 9;

/// How many words of a set of bits are compared.
const MOST_WORDS: usize = 8;

/// The longest texts of a module and a name that are shown as one.
const MOST_BYTES: usize = 64;

/// What is said of an identityref without values.
const NO_IDENTITY: &str =
    "no value, since no identity of an implemented module is derived from its base";

/// A name that is like a word of a value; of an identity with its module.
#[derive(Clone, Copy)]
struct Near<'t> {
    name: &'t RcStr,
    member: Option<&'t Member>,
    likeness: Likeness,
}

/// Adds the names of an enumeration as its values, of many the first 8.
pub(crate) fn push_enums(text: &mut String, names: &[RcStr]) -> Result<(), AllocError> {
    if names.is_empty() {
        return text.push_str("no value, since `if-feature` removes all of its names");
    }
    push_list(text, names, Joint::Or)
}

/// Adds how the names of bits make a value, and these names, of many the first 8.
pub(crate) fn push_bits(text: &mut String, names: &[RcStr]) -> Result<(), AllocError> {
    if names.is_empty() {
        return text.push_str("an empty string, since `if-feature` removes all of its bits");
    }
    text.push_str("a string of distinct names from ")?;
    push_list(text, names, Joint::And)?;
    text.push_str(", separated by spaces")
}

// Adds names in quotes, of many the first 8.
fn push_list(text: &mut String, names: &[RcStr], joint: Joint) -> Result<(), AllocError> {
    for (place, name) in names.iter().enumerate() {
        if !push_between(text, place, names.len(), joint)? {
            break;
        }
        push_quoted(text, name.as_str())?;
    }
    Ok(())
}

/// Adds identities as documents write them, in quotes, of many the first 8 (RFC 7951, section 6.8).
pub(crate) fn push_identities(text: &mut String, members: &Members) -> Result<(), AllocError> {
    let members = members.front(*text.allocator(), MOST_LISTED)?;
    if members.is_empty() {
        return text.push_str(NO_IDENTITY);
    }
    text.push_str("the identity ")?;
    for (place, member) in members.iter().enumerate() {
        if !push_between(text, place, members.len(), Joint::Or)? {
            break;
        }
        push_identity(text, member)?;
    }
    Ok(())
}

// Adds an identity with its module; without that, if both together are long.
fn push_identity(text: &mut String, member: &Member) -> Result<(), AllocError> {
    let module = member.module.as_str();
    let name = member.name.as_str();
    if module.len() >= MOST_BYTES || name.len() >= MOST_BYTES {
        return push_quoted(text, name);
    }
    let mut whole = String::from_str(*text.allocator(), module)?;
    whole.push(':')?;
    whole.push_str(name)?;
    push_quoted(text, whole.as_str())
}

/// Adds the value that may be meant by one that is written, where these types have one that is like
/// it.
pub(crate) fn push_guess(
    text: &mut String,
    types: &[PlainType],
    value: Option<&Value>,
) -> Result<(), AllocError> {
    let Some(Value::String(written)) = value else {
        return Ok(());
    };
    let Some(near) = nearest(*text.allocator(), types, written.as_str())? else {
        return Ok(());
    };
    text.push_str("; did you mean ")?;
    match near.member {
        Some(member) => push_identity(text, member)?,
        None => push_quoted(text, near.name.as_str())?,
    }
    text.push_str("?")
}

// The value of these types that is most like one that is written.
fn nearest<'t>(
    alloc: Global,
    types: &'t [PlainType],
    written: &str,
) -> Result<Option<Near<'t>>, AllocError> {
    let mut found = None;
    for plain in types {
        found = nearer(found, nearest_of(alloc, plain, written)?);
    }
    Ok(found)
}

fn nearest_of<'t>(
    alloc: Global,
    plain: &'t PlainType,
    written: &str,
) -> Result<Option<Near<'t>>, AllocError> {
    match plain {
        PlainType::Enumeration(names) => Ok(nearest_name(names.as_slice(), written)),
        PlainType::Bits(names) => Ok(nearest_word(names.as_slice(), written)),
        PlainType::Identity(members) => nearest_member(alloc, members, local(written)),
        _ => Ok(None),
    }
}

// The name that is most like a word of a set of bits.
fn nearest_word<'t>(names: &'t [RcStr], written: &str) -> Option<Near<'t>> {
    let mut found = None;
    for word in written.split(' ').take(MOST_WORDS) {
        found = nearer(found, nearest_name(names, word));
    }
    found
}

// The name that is most like what is written, and another one.
fn nearest_name<'t>(names: &'t [RcStr], written: &str) -> Option<Near<'t>> {
    let mut found = None;
    for name in names.iter().take(MOST_COMPARED) {
        found = nearer(found, near_name(name, written));
    }
    found
}

fn near_name<'t>(name: &'t RcStr, written: &str) -> Option<Near<'t>> {
    let likeness = compare(written.as_bytes(), name.as_str().as_bytes())?;
    if likeness == Likeness::Same {
        return None;
    }
    Some(Near {
        name,
        member: None,
        likeness,
    })
}

// The identity whose name is most like what is written: the same name of another module too.
fn nearest_member<'t>(
    alloc: Global,
    members: &'t Members,
    written: &str,
) -> Result<Option<Near<'t>>, AllocError> {
    let mut found = None;
    for member in members.front(alloc, MOST_COMPARED)? {
        found = nearer(found, near_member(member, written));
    }
    Ok(found)
}

fn near_member<'t>(member: &'t Member, written: &str) -> Option<Near<'t>> {
    let likeness = compare(written.as_bytes(), member.name.as_str().as_bytes())?;
    Some(Near {
        name: &member.name,
        member: Some(member),
        likeness,
    })
}

// The more alike of two: the first, where both are as much.
fn nearer<'t>(first: Option<Near<'t>>, second: Option<Near<'t>>) -> Option<Near<'t>> {
    if is_nearer(&second, &first) {
        second
    } else {
        first
    }
}

// Whether one is more alike than another. Any is more so than none.
fn is_nearer(one: &Option<Near<'_>>, other: &Option<Near<'_>>) -> bool {
    match one {
        None => false,
        Some(one) => match other {
            None => true,
            Some(other) => one.likeness < other.likeness,
        },
    }
}

// What is written, without the module before it.
fn local(written: &str) -> &str {
    match written.split_once(':') {
        Some((_, name)) => name,
        None => written,
    }
}
