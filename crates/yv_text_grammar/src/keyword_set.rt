//! A set of keywords.
ghost use Rattle.std.specs.Prelude.{◌≡◌, ◌<◌, ◌||◌, false};
ghost use Rattle.yv_text_statement.specs.{Keywords.{same}, declared.keyword.Keyword.{Keyword}};
ghost use Rattle.yv_text_grammar.specs.InnerKeywordSet.{number, is_marked};

use yv_text_statement::Keyword as Word;

/// How many keywords there are.
pub const KEYWORDS: usize = 70;

// The keyword's place among all.
fn index_of(keyword: Word) -> usize
    ensures number { result ≡ number keyword }
    ensures below { result < 70 }
{
    keyword as usize
}

/// The keywords that were met.
#[derive(Drop)]
pub struct KeywordSet {
    marks: [bool; KEYWORDS],
}

impl KeywordSet {
    pub fn new() -> KeywordSet
        ensures { (k : Keyword) → is_marked result k ≡ false }
    {
        KeywordSet {
            marks: [false; KEYWORDS],
        }
    }

    pub fn contains(&self, keyword: Word) -> bool
        ensures { result ≡ is_marked self.now keyword }
    {
        self.marks[index_of(keyword)]
    }

    pub fn insert(&mut self, keyword: Word)
        ensures { (k : Keyword) → is_marked self.new k ≡ (same keyword k || is_marked self.old k) }
    {
        self.marks[index_of(keyword)] = true;
    }
}
