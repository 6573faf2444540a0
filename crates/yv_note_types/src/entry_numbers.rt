//! Names and numbers of enumerations and bits.
use crate::values::nearest_name;
use std::alloc::{AllocError, Global};
use yv_note_statements::{Message, Site, chain, say_guess};
use yv_text_statement::Keyword;

// The number that an item says.
fn stated_number(site: &Site<'_, '_>) -> Option<i64> {
    let value = match site.child(Keyword::Value) {
        Some(value) => value,
        None => site.child(Keyword::Position)?,
    };
    value.argument().parse::<i64>().ok()
}

// The number of an item, if the highest of those before it is this.
fn number_after(site: &Site<'_, '_>, highest: Option<i64>) -> i64 {
    match (stated_number(site), highest) {
        (Some(number), _) => number,
        (None, Some(highest)) => highest.saturating_add(1),
        (None, None) => 0,
    }
}

// The item of this name before a statement.
fn item_named<'s, 'a>(items: &[Site<'s, 'a>], name: &str, end: usize) -> Option<Site<'s, 'a>> {
    items
        .iter()
        .copied()
        .find(|item| item.number < end && item.argument() == name)
}

// The highest number of items before a statement.
fn highest_before(items: &[Site<'_, '_>], end: usize) -> Option<i64> {
    let mut highest: Option<i64> = None;
    for item in items {
        if item.number < end {
            let number = number_after(item, highest);
            highest = Some(match highest {
                Some(highest) => highest.max(number),
                None => number,
            });
        }
    }
    highest
}

// The item that has this number before a statement.
fn item_numbered<'s, 'a>(items: &[Site<'s, 'a>], number: i64, end: usize) -> Option<Site<'s, 'a>> {
    let mut highest: Option<i64> = None;
    for item in items {
        let own = number_after(item, highest);
        if item.number < end && own == number {
            return Some(*item);
        }
        highest = Some(match highest {
            Some(highest) => highest.max(own),
            None => own,
        });
    }
    None
}

/// Adds what is wrong with an item of an enumeration or of bits.
pub fn tell_item<'a>(telling: &mut Message<'a>, site: &Site<'_, 'a>) -> Result<(), AllocError> {
    telling.subject_statement(site, "");
    let Some(parent) = site.parent() else {
        telling.say(" is wrong.");
        return Ok(());
    };
    let chain = chain(telling.alloc(), &parent)?;
    match base_with(&chain, site.kind(), parent.number) {
        Some(base) => say_in_base(
            telling,
            &base,
            &base.children_of(telling.alloc(), site.kind())?,
            site,
        ),
        None => say_in_type(
            telling,
            &parent.children_of(telling.alloc(), site.kind())?,
            site,
        ),
    }
    Ok(())
}

// The nearest type with items in a chain of types, except this one.
fn base_with<'s, 'a>(
    chain: &[Site<'s, 'a>],
    keyword: Keyword,
    except: usize,
) -> Option<Site<'s, 'a>> {
    chain.iter().copied().find(|site| site.number != except && site.child(keyword).is_some())
}

// Adds what is wrong with an item among those before it.
fn say_in_type<'a>(telling: &mut Message<'a>, items: &[Site<'_, 'a>], site: &Site<'_, 'a>) {
    if let Some(other) = item_named(items, site.argument(), site.number) {
        telling.point(" is already defined, at ", &other, ".");
        return;
    }
    let number = number_after(site, highest_before(items, site.number));
    match item_numbered(items, number, site.number) {
        Some(other) => {
            telling.say(" has the same ");
            telling.say(number_word(site));
            telling.quote(" as ", other.argument(), "");
            telling.point(" at ", &other, ".");
        }
        None => telling.say(" has no number left: the highest is taken, so state one."),
    }
}

// What the number of an item is called.
fn number_word(site: &Site<'_, '_>) -> &'static str {
    if site.is(Keyword::Bit) {
        "position"
    } else {
        "value"
    }
}

// The number of an item of a type.
fn number_of(items: &[Site<'_, '_>], item: &Site<'_, '_>) -> i64 {
    number_after(item, highest_before(items, item.number))
}

// Adds what is wrong with an item of a type that restricts another one.
fn say_in_base<'a>(
    telling: &mut Message<'a>,
    base: &Site<'_, 'a>,
    items: &[Site<'_, 'a>],
    site: &Site<'_, 'a>,
) {
    match item_named(items, site.argument(), usize::MAX) {
        Some(other) if is_other_number(stated_number(site), number_of(items, &other)) =>
            telling.point(
                " has another number in the type that is restricted, at ",
                &other,
                ".",
            ),
        Some(_) => telling.say(" is there twice."),
        None => {
            telling.point(" is not one of the type that is restricted, at ", base, ".");
            say_guess(telling, nearest_name(items, site.argument()));
        }
    }
}

// Whether an item says another number than this.
fn is_other_number(stated: Option<i64>, number: i64) -> bool {
    match stated {
        Some(other) => other != number,
        None => false,
    }
}
