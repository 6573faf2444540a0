//! Statements as trees (RFC 7950, section 6.3).
ghost use Rattle.std.specs.{Prelude.{◌≡◌, OnOk, OnErr, IfSome}, Cow.{cow_str_bytes}, Option.{option_map}, Str.{bytes_eq}};
ghost use Rattle.yv_text_statement.specs.{Keywords.{keyword_of, same, spelling}, Tree.{trees}, Builder.{bare, push_child, with_argument, with_more}};

use crate::keyword::Keyword;
use std::alloc::{AllocError, Global};
use std::borrow::CowStr;
use std::marker::Model;

/// A statement of a YANG file: a keyword, perhaps an argument, and the statements of its block
/// (RFC 7950, section 6.3). Contracts see it as a tree.
#[derive(Drop)]
pub struct Statement<'a> {
    keyword: &'a str,
    kind: Keyword,
    argument: Option<CowStr<'a>>,
    children: Vec<Statement<'a>>,
    line: u64,
    offset: u64,
}

impl<'a> Model for Statement<'a> {
    ghost use Rattle.std.specs.Prelude.{string_bytes, ◌+◌, ◌≡◌, Option};
    ghost use Rattle.std.proofs.Common.{arith};
    ghost use Rattle.yv_text_statement.specs.Tree.{Tree, tree_code, forest, count, most_le-count};

    ghost Value = { Tree };

    ghost coded = { tree_code };

    ghost use Rattle.yv_text_statement.specs.{View.{tree_of}, Keywords.{keyword_of}};

    ghost invariant = { λ a. a.kind ≡ keyword_of a.keyword.now };

    ghost view = { tree_of };

    ghost size = { λ t. count t.children + 1 };

    ghost size_decreases = { λ a h. omega (arith, most_le-count a.children.items) };
}

impl<'a> Statement<'a> {
    /// A statement without argument and block, whose keyword is at this line and offset.
    pub fn new(alloc: Global, keyword: &'a str, line: u64, offset: u64) -> Self
        ensures { result ≡ bare line offset keyword.now }
    {
        Statement {
            keyword,
            kind: Keyword::read(keyword),
            argument: None,
            children: Vec::new(alloc),
            line,
            offset,
        }
    }

    /// Lends it this argument, a slice of its source, in place of one that it had.
    pub fn lend(&mut self, text: &'a str)
        ensures { self.new ≡ with_argument text.now self.old }
    {
        self.argument = Some(CowStr::Borrowed(text));
    }

    /// Gives it more of its argument, or the first part. A first part that is lent isn't copied.
    pub fn extend(&mut self, alloc: Global, text: CowStr<'a>) -> Result<(), AllocError>
        // The text is appended to the argument, or becomes it.
        ensures ok { OnOk result (self.new ≡ with_more (cow_str_bytes text.entry) self.old) }
        // After an error the statement is unchanged.
        ensures err { OnErr result (self.new ≡ self.old) }
    {
        match &mut self.argument {
            None => self.argument = Some(text),
            Some(CowStr::Owned(front)) => front.push_str(text.as_str())?,
            Some(CowStr::Borrowed(front)) => {
                let mut joined = String::from_str(alloc, front)?;
                joined.push_str(text.as_str())?;
                self.argument = Some(CowStr::Owned(joined));
            }
        }
        Ok(())
    }

    /// Adds a statement to its block, after the others.
    pub fn adopt(&mut self, mut child: Statement<'a>) -> Result<(), AllocError>
        // The child is appended to the block.
        ensures ok { OnOk result (self.new ≡ push_child self.old child.entry) }
        // After an error the statement is unchanged.
        ensures err { OnErr result (self.new ≡ self.old) }
    {
        child.settle();
        self.children.push(child)?;
        Ok(())
    }

    // Gives back the room that its block doesn't need.
    fn settle(&mut self)
        ensures { self.new ≡ self.old }
    {
        self.children.shrink_to_fit();
    }

    /// The keyword, with its prefix where it has one.
    pub fn keyword(&self) -> &str
        ensures { result.now ≡ self.now.head.keyword }
    {
        self.keyword
    }

    /// What the keyword means. It was read when the statement was made.
    pub fn kind(&self) -> Keyword
        ensures { result ≡ keyword_of self.now.head.keyword }
    {
        self.kind
    }

    /// Whether it has this keyword, without a comparison of texts.
    pub fn is(&self, keyword: Keyword) -> bool
        // Whether its keyword means this one.
        ensures kind { result ≡ same (keyword_of self.now.head.keyword) keyword }
        // That is whether the texts are equal, where the keyword has one: it has none where it is
        // an extension's or unknown.
        ensures text { IfSome (spelling keyword)
            (λ text. result ≡ bytes_eq self.now.head.keyword text) }
    {
        self.kind == keyword
    }

    /// The argument, where it has one.
    pub fn argument(&self) -> Option<&str>
        ensures { option_map (λ text. text.now) result ≡ self.now.head.argument }
    {
        self.argument.as_deref()
    }

    /// The line of the keyword, from 1.
    pub fn line(&self) -> u64
        ensures { result ≡ self.now.head.line }
    {
        self.line
    }

    /// The keyword's offset in bytes.
    pub fn offset(&self) -> u64
        ensures { result ≡ self.now.head.offset }
    {
        self.offset
    }

    /// The statements of its block, in order.
    pub fn children(&self) -> &[Statement<'a>]
        ensures { result.now ≡ trees self.now.children }
    {
        &self.children
    }
}
