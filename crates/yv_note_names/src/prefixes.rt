//! The prefixes that a file declares.
use std::alloc::{AllocError, Global};
use std::collections::BTreeMap;
use yv_link_scopes::prefix_of;
use yv_note_statements::{Site, Sites};
use yv_text_statement::Keyword;

/// For each prefix the first statement by which a file declares it.
#[derive(Drop)]
pub(crate) struct Prefixes<'s, 'a> {
    declarations: BTreeMap<&'a [u8], Site<'s, 'a>>,
}

impl<'s, 'a> Prefixes<'s, 'a> {
    /// Those of the file of a statement.
    pub(crate) fn read(alloc: Global, site: &Site<'s, 'a>) -> Result<Prefixes<'s, 'a>, AllocError> {
        let mut declarations = BTreeMap::new(alloc);
        for declaration in Sites::all(site.entries) {
            if declaration.is(Keyword::Prefix) && declaration.is_beside(site) {
                let _ = declarations
                    .entry(declaration.argument().as_bytes())?
                    .or_insert(declaration);
            }
        }
        Ok(Prefixes { declarations })
    }

    /// The statement that declares a prefix.
    pub(crate) fn declaration(&self, prefix: &'a str) -> Option<Site<'s, 'a>> {
        self.declarations.get(&prefix.as_bytes()).copied()
    }

    /// The root of the module in which a name in a statement of the file is looked up.
    pub(crate) fn module_of(&self, site: &Site<'s, 'a>, name: &'a str) -> Option<Site<'s, 'a>> {
        match prefix_of(name) {
            Some(prefix) => self.declaration(prefix)?.meaning(),
            None => site.module(),
        }
    }
}
