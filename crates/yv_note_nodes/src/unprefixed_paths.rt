//! Paths whose steps lack the prefix of another module.
use crate::explanation::Explanation;
use crate::nodes::{Steps, Way, follow};
use std::alloc::{AllocError, Global};
use yv_link_scopes::prefix_of;
use yv_note_statements::{Message, Site, Sites};
use yv_text_statement::Keyword;

/// How many imports of a file are tried.
const MOST_TRIED: usize = 8;

// The modules that the file of a statement imports, by their `prefix` statements.
fn imports_of<'s, 'a>(alloc: Global, site: &Site<'s, 'a>) -> Result<Vec<Site<'s, 'a>>, AllocError> {
    Sites::all(site.entries)
        .filter(|prefix| is_import_of(prefix, site))
        .take(MOST_TRIED)
        .collect(alloc)
}

// Whether a statement is the `prefix` of an `import` in the file of another one.
fn is_import_of(prefix: &Site<'_, '_>, site: &Site<'_, '_>) -> bool {
    prefix.is(Keyword::Prefix) && prefix.is_beside(site) && prefix.is_in(Keyword::Import)
}

// Whether a step of a path has no prefix.
fn has_plain_step(path: &str) -> bool {
    path.split('/')
        .any(|step| !step.is_empty() && prefix_of(step).is_none())
}

impl<'s, 'a> Explanation<'_, 's, 'a> {
    /// Adds how the absolute path of a statement is written, if it leads to a node of an imported
    /// module whose prefix its steps lack.
    pub(crate) fn say_prefixed(
        &mut self,
        site: &Site<'s, 'a>,
        steps: Steps,
    ) -> Result<(), AllocError> {
        let path = site.argument();
        if !has_plain_step(path) {
            return Ok(());
        }
        for prefix in imports_of(self.tree.alloc(), site)?.iter() {
            let Some(module) = prefix.meaning() else {
                continue;
            };
            if let Way::To(_) = follow(&mut self.tree, &module, path, steps)? {
                say_path(self.message, prefix.argument(), path);
                return Ok(());
            }
        }
        Ok(())
    }
}

// Adds a path with a prefix for each step that has none.
fn say_path<'a>(telling: &mut Message<'a>, prefix: &'a str, path: &'a str) {
    telling.say(" Write \"");
    for step in path.split('/') {
        if step.is_empty() {
            continue;
        }
        telling.say("/");
        if prefix_of(step).is_none() {
            telling.part(prefix);
            telling.say(":");
        }
        telling.part(step);
    }
    telling.say("\".");
}
