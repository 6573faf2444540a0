//! A statement of the files, and the statements around it and in it.
use crate::entry::StatementEntry;
use crate::sites::{Children, Sites};
use std::alloc::{AllocError, Global};
use yv_link_scopes::local;
use yv_text_statement::Keyword;

/// The site of a numbered statement of the files.
#[derive(Clone, Copy)]
pub struct Site<'s, 'a> {
    /// All statements of the files.
    pub entries: &'s [StatementEntry<'a>],
    /// Its number among them.
    pub number: usize,
    pub entry: &'s StatementEntry<'a>,
}

impl<'s, 'a> Site<'s, 'a> {
    /// The statement of this number.
    pub fn at(entries: &'s [StatementEntry<'a>], number: usize) -> Option<Site<'s, 'a>> {
        let entry = entries.get(number)?;
        Some(Site {
            entries,
            number,
            entry,
        })
    }

    /// Its keyword, with a prefix if it is an extension's.
    pub fn keyword(&self) -> &'a str {
        self.entry.keyword
    }

    /// The argument; no text, if there is none.
    pub fn argument(&self) -> &'a str {
        self.entry.argument.unwrap_or("")
    }

    /// The argument without a prefix.
    pub fn name(&self) -> &'a str {
        local(self.argument())
    }

    /// What its keyword means.
    pub fn kind(&self) -> Keyword {
        self.entry.kind
    }

    /// Whether this is its keyword.
    pub fn is(&self, keyword: Keyword) -> bool {
        self.entry.kind == keyword
    }

    /// Whether its keyword is one of these.
    pub fn is_one_of(&self, keywords: &[Keyword]) -> bool {
        keywords.contains(&self.entry.kind)
    }

    /// Whether it is the outermost statement of its file.
    pub fn is_root(&self) -> bool {
        self.entry.is_root
    }

    /// Whether it is in the same file as another statement.
    pub fn is_beside(&self, other: &Site<'_, '_>) -> bool {
        self.entry.file == other.entry.file
    }

    /// The statement that the argument means.
    pub fn meaning(&self) -> Option<Site<'s, 'a>> {
        Site::at(self.entries, self.entry.meaning?)
    }

    /// Whether the argument means the statement of this number.
    pub fn means(&self, number: usize) -> bool {
        self.entry.meaning == Some(number)
    }

    /// The root of its file.
    pub fn root(&self) -> Option<Site<'s, 'a>> {
        Site::at(self.entries, self.entry.file as usize)
    }

    /// The root of the module to which its file belongs.
    pub fn module(&self) -> Option<Site<'s, 'a>> {
        self.root()?.meaning()
    }

    /// The statement in whose block it is, in its own file.
    pub fn parent(&self) -> Option<Site<'s, 'a>> {
        if self.is_root() {
            return None;
        }
        let around = Site::at(self.entries, self.entry.scope)?;
        if around.is_root() {
            self.root()
        } else {
            Some(around)
        }
    }

    /// Whether it is right in the block of another statement, in its own file.
    pub fn is_right_in(&self, other: &Site<'_, '_>) -> bool {
        self.parent()
            .is_some_and(|parent| parent.number == other.number)
    }

    /// Whether it is in the block of a statement of this keyword.
    pub fn is_in(&self, keyword: Keyword) -> bool {
        self.parent().is_some_and(|parent| parent.is(keyword))
    }

    /// Whether a statement is a substatement of this one, or comes after its block, where a search
    /// of the block ends.
    pub(crate) fn is_left(&self, entry: &StatementEntry<'_>) -> bool {
        entry.scope == self.number || (entry.scope < self.number && !self.is_root())
    }

    /// The statements of its block, in order.
    pub fn children(&self) -> Children<'s, 'a> {
        Children::of(*self)
    }

    /// The statements of its block with this keyword, in order.
    pub fn children_of(
        &self,
        alloc: Global,
        keyword: Keyword,
    ) -> Result<Vec<Site<'s, 'a>>, AllocError> {
        self.children()
            .filter(|child| child.is(keyword))
            .collect(alloc)
    }

    /// The first statement of its block with this keyword.
    pub fn child(&self, keyword: Keyword) -> Option<Site<'s, 'a>> {
        self.children().find(|child| child.is(keyword))
    }

    /// Whether a statement of its block says this.
    pub fn says(&self, keyword: Keyword, argument: &str) -> bool {
        self.child(keyword)
            .is_some_and(|child| child.argument() == argument)
    }
}

/// The first statement of this keyword in the file of another statement.
pub fn first_in_file<'s, 'a>(site: &Site<'s, 'a>, keyword: Keyword) -> Option<Site<'s, 'a>> {
    Sites::all(site.entries).find(|other| other.is(keyword) && other.is_beside(site))
}

/// The first statement of this keyword and this argument in the file of another statement.
pub fn named_in_file<'s, 'a>(
    site: &Site<'s, 'a>,
    keyword: Keyword,
    name: &str,
) -> Option<Site<'s, 'a>> {
    Sites::all(site.entries).find(|other| other.is(keyword)
        && other.is_beside(site)
        && other.argument() == name)
}

/// Whether a word is one of these words, which are written with blanks between.
pub fn is_among(word: &str, words: &str) -> bool {
    words.split_whitespace().any(|one| one == word)
}
