//! Modules, submodules, revisions and prefixes.
use crate::prefixes::Prefixes;
use std::alloc::{AllocError, Global};
use yv_link_scopes::prefix_of;
use yv_note_statements::{
    Guess, Message, Site, Sites, declaration, first_in_file, named_in_file, say_guess, words_of,
};
use yv_note_text::Likeness;
use yv_text_statement::{Code, Keyword};

// Of the modules, or for an `include` of the submodules, the one whose name is most like the name
// that is written. The file of the statement itself is none of them.
fn nearest_file<'a>(site: &Site<'_, 'a>) -> Option<Guess<'a>> {
    let keyword = if site.is(Keyword::Include) {
        Keyword::Submodule
    } else {
        Keyword::Module
    };
    Sites::all(site.entries)
        .take_while(|root| root.is_root())
        .filter(|root| root.is(keyword) && !root.is_beside(site))
        .fold(None, |nearest, root| {
            Guess::nearer(nearest, Guess::of(site.argument(), root.argument(), None))
        })
}

/// Adds that a module is not among the files, and which one may be meant.
pub fn tell_missing<'a>(telling: &mut Message<'a>, site: &Site<'_, 'a>) {
    if let Some(name) = site.argument().strip_suffix(".yang") {
        telling.subject(NONE_OF_THE_FILES, ".");
        telling.quote(" That is the name of a file: did you mean ", name, "?");
        return;
    }
    match nearest_file(site) {
        Some(guess) if guess.likeness != Likeness::Same => {
            telling.subject(NONE_OF_THE_FILES, ".");
            say_guess(telling, Some(guess));
            telling.say(" If not, add its file to the command line.");
        }
        _ => telling.sentence(Code::MissingModule),
    }
}

const NONE_OF_THE_FILES: &str = "None of the given files defines ";

/// Adds which of the files may be meant by the name of a module that is in none of them.
pub fn say_nearest_file<'a>(telling: &mut Message<'a>, site: &Site<'_, 'a>) {
    say_guess(telling, nearest_file(site));
}

// The `revision` of a file with the latest date.
fn latest_revision<'s, 'a>(root: &Site<'s, 'a>) -> Option<Site<'s, 'a>> {
    Sites::all(root.entries)
        .filter(|site| site.is(Keyword::Revision) && site.is_beside(root))
        .fold(None, |latest, revision| Some(later(latest, revision)))
}

// The `revision` with the later date.
fn later<'s, 'a>(latest: Option<Site<'s, 'a>>, next: Site<'s, 'a>) -> Site<'s, 'a> {
    match latest {
        Some(one) if next.argument() <= one.argument() => one,
        _ => next,
    }
}

/// Adds which revision a module has.
pub fn tell_revision<'a>(telling: &mut Message<'a>, site: &Site<'_, 'a>) {
    telling.subject("The revision ", " is asked for, but ");
    let Some(parent) = site.parent() else {
        telling.say("the file has another one.");
        return;
    };
    telling.quote("", parent.argument(), " has ");
    match last_revision(&parent) {
        Some(revision) => {
            telling.quote("the revision ", revision.argument(), " at ");
            telling.point("", &revision, ".");
        }
        None => telling.say("no `revision`."),
    }
}

// The latest `revision` of the file that an `import` or `include` means.
fn last_revision<'s, 'a>(site: &Site<'s, 'a>) -> Option<Site<'s, 'a>> {
    latest_revision(&site.meaning()?)
}

// The prefix in the file of a statement that is most like one that was written.
fn nearest_prefix<'a>(site: &Site<'_, 'a>, written: &str) -> Option<Guess<'a>> {
    Sites::all(site.entries)
        .filter(|other| other.is(Keyword::Prefix) && other.is_beside(site))
        .fold(None, |nearest, prefix| {
            Guess::nearer(nearest, Guess::of(written, prefix.argument(), None))
        })
}

// The first prefix of the words of a statement's argument that the file doesn't declare.
fn undeclared_prefix<'a>(
    alloc: Global,
    site: &Site<'_, 'a>,
) -> Result<Option<&'a str>, AllocError> {
    let words = words_of(alloc, site.argument())?;
    let prefixes = Prefixes::read(alloc, site)?;
    for word in words.iter() {
        if let Some(prefix) = prefix_of(word) {
            if prefixes.declaration(prefix).is_none() {
                return Ok(Some(prefix));
            }
        }
    }
    Ok(None)
}

/// Adds which prefix is not declared, or is declared twice.
pub fn tell_prefix<'a>(telling: &mut Message<'a>, site: &Site<'_, 'a>) -> Result<(), AllocError> {
    if site.is(Keyword::Prefix) {
        tell_second_prefix(telling, site);
        return Ok(());
    }
    telling.subject("The prefix of ", " is not declared in this file");
    let prefix = match prefix_of(site.keyword()) {
        Some(prefix) => Some(prefix),
        None => undeclared_prefix(telling.alloc(), site)?,
    };
    say_undeclared(telling, site, prefix);
    Ok(())
}

// Adds how a prefix is declared, and which one may be meant.
fn say_undeclared<'a>(telling: &mut Message<'a>, site: &Site<'_, 'a>, prefix: Option<&'a str>) {
    let Some(prefix) = prefix else {
        telling.say(".");
        return;
    };
    match own_prefix(site, prefix) {
        Some(declared) => {
            telling.quote(": the module ", prefix, " is imported");
            telling.quote(" with the prefix ", declared.argument(), "");
            telling.point(" at ", &declared, ".");
        }
        None => {
            telling.quote(": add an `import` with the prefix ", prefix, ".");
            say_guess(telling, nearest_prefix(site, prefix));
        }
    }
}

// The `prefix` by which the file of a statement imports the module of this name.
fn own_prefix<'s, 'a>(site: &Site<'s, 'a>, module: &str) -> Option<Site<'s, 'a>> {
    named_in_file(site, Keyword::Import, module)?.child(Keyword::Prefix)
}

fn tell_second_prefix<'a>(telling: &mut Message<'a>, site: &Site<'_, 'a>) {
    telling.subject("The prefix ", " is declared in this file already");
    if let Some(first) = declaration(site, site.argument()) {
        telling.point(", at ", &first, "");
    }
    telling.say(".");
}

// The `belongs-to` of a submodule.
fn belongs_to<'s, 'a>(root: &Site<'s, 'a>) -> Option<Site<'s, 'a>> {
    first_in_file(root, Keyword::BelongsTo)
}

/// Adds why a module and a submodule don't belong together.
pub fn tell_submodule<'a>(telling: &mut Message<'a>, site: &Site<'_, 'a>) {
    match site.kind() {
        Keyword::Include => tell_include(telling, site.meaning()),
        Keyword::Import => tell_import(telling, site.meaning()),
        Keyword::BelongsTo => {
            telling.subject("", " is a submodule, and `belongs-to` needs a module.");
        }
        _ => tell_not_included(telling, site),
    }
}

fn tell_include<'a>(telling: &mut Message<'a>, root: Option<Site<'_, 'a>>) {
    let Some(root) = root else {
        telling.sentence(Code::Submodule);
        return;
    };
    if !root.is(Keyword::Submodule) {
        telling.subject("", " is a module, not a submodule: use `import`.");
        return;
    }
    telling.subject("The submodule ", " belongs to ");
    match belongs_to(&root) {
        Some(owner) => {
            telling.quote("", owner.argument(), " (at ");
            telling.point("", &owner, "), not to this module.");
        }
        None => telling.say("another module."),
    }
}

fn tell_import<'a>(telling: &mut Message<'a>, root: Option<Site<'_, 'a>>) {
    telling.subject("", " is a submodule, and can't be imported.");
    if let Some(root) = root {
        if let Some(owner) = belongs_to(&root) {
            telling.quote(" Import its module ", owner.argument(), ".");
        }
    }
}

fn tell_not_included<'a>(telling: &mut Message<'a>, site: &Site<'_, 'a>) {
    let Some(owner) = belongs_to(site) else {
        telling.subject("The submodule ", " is not included by its module.");
        return;
    };
    telling.quote("The module ", owner.argument(), "");
    telling.subject(" does not include its submodule ", ": add an `include`");
    if let Some(root) = owner.meaning() {
        telling.point(" at ", &root, "");
    }
    telling.say(".");
}
