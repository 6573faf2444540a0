//! A statement among those of all files.
ghost use Rattle.std.specs.{Prelude.{◌≡◌, IfSome}, Str.{bytes_eq}};
ghost use Rattle.yv_text_statement.specs.Keywords.{keyword_of, same, spelling};

use yv_text_statement::{Keyword, Statement};

/// An entry of the list of statements: a statement, the number of its file, and the number of the
/// block that contains its names.
#[derive(Clone, Copy)]
pub struct Entry<'a, 'b> {
    pub file: u32,
    // Most passes over the statements ask for nothing else, and the statements are far apart in
    // memory.
    pub(crate) kind: Keyword,
    pub scope: usize,
    pub statement: &'a Statement<'b>,
    ghost kinds: { kind ≡ keyword_of statement.now.head.keyword },
}

impl Entry<'_, '_> {
    /// What the statement's keyword means.
    pub fn kind(&self) -> Keyword
        ensures { result ≡ keyword_of self.now.statement.now.head.keyword }
    {
        self.kind
    }

    /// Whether the statement has this keyword.
    pub fn is(&self, keyword: Keyword) -> bool
        // Whether the keyword of its statement means this one.
        ensures kind { result
            ≡ same (keyword_of self.now.statement.now.head.keyword) keyword }
        // That is whether the texts are equal, where the keyword has one.
        ensures text { IfSome (spelling keyword)
            (λ text. result ≡ bytes_eq self.now.statement.now.head.keyword text) }
    {
        yv_text_statement::laws::a_keyword_has_one_text();
        self.kind == keyword
    }
}
