//! What may have been meant by a name that means nothing.
use crate::entry::StatementEntry;
use crate::pieces::Message;
use crate::site::Site;
use crate::sites::Sites;
use yv_link_scopes::local;
use yv_note_text::{Likeness, compare};
use yv_text_statement::Keyword;

/// A guess at what was meant: a name that is like one that was written. Of several the first that
/// is most alike is kept.
#[derive(Clone, Copy)]
pub struct Guess<'n> {
    pub name: &'n str,
    /// How the name is like what was written.
    pub likeness: Likeness,
    /// The number of the statement that defines it, if there is one.
    pub number: Option<usize>,
}

impl<'n> Guess<'n> {
    /// A name, if it is like what was written.
    pub fn of(written: &str, name: &'n str, number: Option<usize>) -> Option<Guess<'n>> {
        let likeness = compare(written.as_bytes(), name.as_bytes())?;
        Some(Guess {
            name,
            likeness,
            number,
        })
    }

    /// The name that is more alike: the first, if both are as much.
    pub fn nearer(first: Option<Guess<'n>>, second: Option<Guess<'n>>) -> Option<Guess<'n>> {
        match (first, second) {
            (Some(one), Some(other)) if other.likeness < one.likeness => Some(other),
            (None, other) => other,
            (one, _) => one,
        }
    }
}

/// The one of these words, which have blanks between them, that is most like one that was
/// written.
pub fn nearest_word(written: &str, words: &'static str) -> Option<Guess<'static>> {
    words.split_whitespace().fold(None, |nearest, word| {
        Guess::nearer(nearest, Guess::of(written, word, None))
    })
}

/// The statement whose argument is most like a name that was written.
pub fn nearest_site<'a>(written: &str, sites: &[Site<'_, 'a>]) -> Option<Guess<'a>> {
    sites.iter().fold(None, |nearest, site| {
        Guess::nearer(nearest, Guess::of(written, site.name(), Some(site.number)))
    })
}

/// The definition of this keyword whose name is most like one that was written.
pub fn nearest_definition<'a>(
    entries: &[StatementEntry<'a>],
    keyword: Keyword,
    written: &str,
) -> Option<Guess<'a>> {
    let name = local(written);
    Sites::all(entries)
        .filter(|site| site.is(keyword))
        .fold(None, |nearest, site| {
            let guess = Guess::of(name, site.argument(), Some(site.number));
            Guess::nearer(nearest, guess)
        })
}

/// Adds a guess, if there is one.
pub fn say_guess<'a>(telling: &mut Message<'a>, guess: Option<Guess<'a>>) {
    match guess {
        Some(guess) if guess.likeness != Likeness::Same => {
            telling.quote(" Did you mean ", guess.name, "?");
        }
        _ => {}
    }
}
