//! Default cases of choices.
use crate::nodes::{Steps, node_named, nodes_below};
use crate::tree::Tree;
use std::alloc::AllocError;
use yv_link_scopes::local;
use yv_note_statements::{Message, Site, nearest_site, say_guess};
use yv_text_statement::{Code, Keyword};

/// How many cases of a choice are listed.
const MOST_CASES: usize = 8;

/// Adds which case of a choice its default names in vain.
pub fn tell_default_case<'a>(
    telling: &mut Message<'a>,
    choice: &Site<'_, 'a>,
) -> Result<(), AllocError> {
    let mut tree = Tree::around(telling.alloc(), choice)?;
    let cases = nodes_below(&mut tree, choice, Steps::Schema)?;
    if tree.is_spent() {
        telling.sentence(Code::BadDefault);
        return Ok(());
    }
    let Some(default) = choice.child(Keyword::Default) else {
        telling.subject(
            "A `refine` gives ",
            " a default that is not one of its cases.",
        );
        return Ok(());
    };
    telling.subject("The choice ", " has no case ");
    telling.quote("", default.argument(), "");
    if node_named(&cases, local(default.argument())).is_some() {
        telling.say(" of its own module.");
    } else {
        say_cases(telling, &cases);
        say_guess(telling, nearest_site(default.argument(), &cases));
    }
    Ok(())
}

// Adds the names of cases.
fn say_cases<'a>(telling: &mut Message<'a>, cases: &[Site<'_, 'a>]) {
    telling.say(". Its cases are ");
    for (place, case) in cases.iter().enumerate().take(MOST_CASES) {
        telling.quote(if place == 0 { "" } else { ", " }, case.argument(), "");
    }
    telling.say(if cases.len() > MOST_CASES {
        " and others."
    } else {
        "."
    });
}
