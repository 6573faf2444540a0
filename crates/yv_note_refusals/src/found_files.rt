//! What a search of folders has to do with a refusal.
use yv_job::Job;
use yv_link_scopes::prefix_of;
use yv_note_names::{say_nearest_file, tell_missing, tell_second_module};
use yv_note_statements::{Message, Site, Sites};
use yv_text_statement::Keyword;

// Of a path with more steps, the others aren't looked at.
const MOST_STEPS: usize = 8;

/// Adds that no file defines a module or submodule, and which files were looked for.
pub(crate) fn tell_missing_file<'a>(telling: &mut Message<'a>, site: &Site<'_, 'a>, job: &'a Job) {
    let Some(search) = &job.search else {
        return tell_missing(telling, site);
    };
    let name = site.argument();
    if let Some(place) = job.found_place(name) {
        return tell_other_module(telling, site, job, place);
    }
    telling.subject("No file defines ", ": not those that were named, nor ");
    telling.part(name);
    telling.say(".yang or ");
    telling.part(name);
    telling.say("@DATE.yang in ");
    for (place, folder) in search.folders.iter().enumerate() {
        telling.say(if place == 0 { "" } else { " or " });
        telling.part(folder.as_str());
    }
    telling.say(".");
    say_nearest_file(telling, site);
}

// Adds that the file that was found for a module or submodule is not that.
fn tell_other_module<'a>(
    telling: &mut Message<'a>,
    site: &Site<'_, 'a>,
    job: &'a Job,
    place: usize,
) {
    telling.subject("No file defines ", ": ");
    if let Some(file) = job.files.get(place) {
        telling.part(file.as_str());
    }
    telling.say(" was found for it, but it is ");
    match root_of(site, place) {
        Some(root) => telling.statement("the ", &root, "."),
        None => telling.say("no such module."),
    }
}

/// Adds that another file defines a module or submodule, or that its file was named twice.
pub(crate) fn tell_second_file<'a>(telling: &mut Message<'a>, site: &Site<'_, 'a>, job: &'a Job) {
    let number = site.entry.file as usize;
    let Some(file) = job.files.get(number) else {
        return tell_second_module(telling, site);
    };
    let file = file.as_str();
    if job
        .files
        .iter()
        .take(number)
        .any(|other| is_same_path(other.as_str(), file))
    {
        telling.subject("The file of ", ", ");
        telling.part(file);
        telling.say(", was named twice; name it once.");
    } else {
        tell_second_module(telling, site);
    }
}

// Whether two paths differ in `./` at their front at most.
fn is_same_path(one: &str, other: &str) -> bool {
    one.strip_prefix("./").unwrap_or(one) == other.strip_prefix("./").unwrap_or(other)
}

// The root of the file of this number.
fn root_of<'s, 'a>(site: &Site<'s, 'a>, file: usize) -> Option<Site<'s, 'a>> {
    Sites::all(site.entries)
        .take_while(|root| root.is_root())
        .find(|root| root.entry.file as usize == file)
}

/// The first module into which a path leads and that is only imported, so that it has no nodes.
pub(crate) fn bare_module<'a>(site: &Site<'_, 'a>, path: &str, job: &Job) -> Option<&'a str> {
    let imports = &job.selection.import_only;
    path.split('/')
        .take(MOST_STEPS)
        .filter_map(|step| {
            prefix_of(step.trim()).and_then(|prefix| module_of_prefix(site, prefix))
        })
        .find(|module| imports.iter().any(|name| name.as_str() == *module))
}

/// Adds why a module has no nodes: it was named as one that is only imported, or its file was found
/// and nothing requires it.
pub(crate) fn say_bare_module<'a>(telling: &mut Message<'a>, module: &'a str, job: &'a Job) {
    match job.unrequired_file(module) {
        Some(file) => {
            telling.say(" ");
            telling.part(file);
            telling.quote(
                " was found by --path and nothing requires ",
                module,
                ", so it has no nodes; name the file to implement it.",
            );
        }
        None => telling.quote(
            " ",
            module,
            " is only imported (--import-only), so it has no nodes.",
        ),
    }
}

// The name of the module that the file of a statement imports with this prefix.
fn module_of_prefix<'a>(site: &Site<'_, 'a>, prefix: &str) -> Option<&'a str> {
    site.root()?
        .children()
        .find(|child| child.is(Keyword::Import) && child.says(Keyword::Prefix, prefix))
        .map(|import| import.argument())
}
