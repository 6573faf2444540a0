//! Defaults of leafs and leaf-lists.
use crate::same_values::first_repeated;
use crate::unread_texts::first_unread;
use crate::values::say_values;
use std::alloc::{AllocError, Global};
use yv_note_statements::{Message, Site, Sites, StatementLists, chain, last_step, state_above};
use yv_text_statement::{Code, Keyword};

/// How many defaults a leaf-list has at most.
const MOST_DEFAULTS: usize = 1024;

/// How many defaults are compared with the values of the type.
const MOST_READ: usize = 32;

/// Adds what is wrong with the defaults of a leaf or a leaf-list.
pub fn tell_default<'a>(telling: &mut Message<'a>, site: &Site<'_, 'a>) -> Result<(), AllocError> {
    let Some(own_type) = site.child(Keyword::Type) else {
        telling.sentence(Code::BadDefault);
        return Ok(());
    };
    let types = chain(telling.alloc(), &own_type)?;
    let defaults = defaults_of(telling.alloc(), site, &types)?;
    if is_leafref(&types) {
        telling.subject("The leafref ", " has a default, which is not supported.");
        say_first(telling, &defaults);
        return Ok(());
    }
    match defaults.as_slice() {
        [] => return say_refined(telling, site, &types),
        [only] => return tell_value(telling, site, only, &types),
        _ => return tell_values(telling, site, &defaults, &types),
    }
    Ok(())
}

fn is_leafref(types: &[Site<'_, '_>]) -> bool {
    match types.last() {
        Some(first) => first.argument() == "leafref",
        None => false,
    }
}

// Adds where the first default is.
fn say_first<'a>(telling: &mut Message<'a>, defaults: &[Site<'_, 'a>]) {
    if let Some(default) = defaults.first() {
        telling.point(" It is at ", default, ".");
    }
}

// Adds that a default comes by a `refine`, and which one this can be.
fn say_refined<'a>(
    telling: &mut Message<'a>,
    site: &Site<'_, 'a>,
    types: &[Site<'_, 'a>],
) -> Result<(), AllocError> {
    if site.is(Keyword::LeafList) {
        telling.subject(
            "A `refine` gives the leaf-list ",
            " a default that is not one of its values, or two that are the same.",
        );
    } else {
        telling.subject(
            "A `refine` gives ",
            " a default that is not one of its values.",
        );
    }
    match refined_default(site) {
        Some(default) => {
            telling.quote(" The default ", default.argument(), "");
            telling.point(" is at ", &default, ".");
            say_values(telling, types, &default)
        }
        None => Ok(()),
    }
}

// The first default that a `refine` gives a node of the name of this one.
fn refined_default<'s, 'a>(node: &Site<'s, 'a>) -> Option<Site<'s, 'a>> {
    Sites::all(node.entries)
        .filter(|site| site.is(Keyword::Refine) && last_step(site.argument()) == node.argument())
        .find_map(|refine| refine.child(Keyword::Default))
}

// The defaults of a leaf or a leaf-list: its own, or that of the nearest typedef that has one.
fn defaults_of<'s, 'a>(
    alloc: Global,
    node: &Site<'s, 'a>,
    types: &[Site<'s, 'a>],
) -> Result<Vec<Site<'s, 'a>>, AllocError> {
    let mut defaults = node.children_of(alloc, Keyword::Default)?;
    if defaults.is_empty() {
        if let Some(default) = type_default(types) {
            defaults.push(default)?;
        }
    }
    Ok(defaults)
}

// The default of the nearest typedef that has one.
fn type_default<'s, 'a>(types: &[Site<'s, 'a>]) -> Option<Site<'s, 'a>> {
    for site in types.iter().skip(1) {
        if let Some(default) = site.parent()?.child(Keyword::Default) {
            return Some(default);
        }
    }
    None
}

// Adds that the only default is not a value.
fn tell_value<'a>(
    telling: &mut Message<'a>,
    node: &Site<'_, 'a>,
    default: &Site<'_, 'a>,
    types: &[Site<'_, 'a>],
) -> Result<(), AllocError> {
    telling.quote("The default ", default.argument(), "");
    if default.entry.scope != node.number {
        telling.point(" of the typedef at ", default, "");
    }
    telling.subject(" is not a value of ", ".");
    say_values(telling, types, default)
}

// Adds which of several defaults is not a value, or which two are the same.
fn tell_values<'a>(
    telling: &mut Message<'a>,
    node: &Site<'_, 'a>,
    defaults: &[Site<'_, 'a>],
    types: &[Site<'_, 'a>],
) -> Result<(), AllocError> {
    if defaults.len() > MOST_DEFAULTS {
        telling.subject("The leaf-list ", " has ");
        telling.count(
            "",
            defaults.len() as u64,
            " defaults, and at most 1,024 are supported.",
        );
        return Ok(());
    }
    let first = &defaults[..defaults.len().min(MOST_READ)];
    if let Some(default) = first_unread(telling.alloc(), types, first)? {
        telling.quote("The default ", default.argument(), "");
        telling.point(" at ", &default, "");
        telling.subject(" is not a value of ", ".");
        return say_values(telling, types, &default);
    }
    match first_repeated(telling.alloc(), types, defaults)? {
        Some((first, second)) if !is_state(telling.alloc(), node)? => {
            say_same(telling, &first, &second);
        }
        _ => telling.subject(
            "A default of the leaf-list ",
            " is not one of its values, or two of its defaults are the same.",
        ),
    }
    Ok(())
}

// Whether a node is state.
fn is_state(alloc: Global, node: &Site<'_, '_>) -> Result<bool, AllocError> {
    let lists = StatementLists::read(alloc, node.entries)?;
    Ok(state_above(&lists, node).is_some())
}

// Adds that two defaults are the same value.
fn say_same<'a>(telling: &mut Message<'a>, first: &Site<'_, 'a>, second: &Site<'_, 'a>) {
    telling.subject(
        "The entries of the leaf-list ",
        " differ, as it is configuration, and two of its defaults are the same value: ",
    );
    telling.quote("", first.argument(), "");
    telling.point(" at ", first, " and");
    telling.quote(" ", second.argument(), "");
    telling.point(" at ", second, ". Leave out one of them.");
}
