//! The prefixes that a file uses.
ghost use Rattle.std.specs.{Prelude.{◌≡◌, ◌∷◌, [], ℕ, List, ◌||◌, IfOk, OnOk}, List.{filter}};
ghost use Rattle.yv_text_if_feature.specs.Names.{is_identifier, is_part};
ghost use Rattle.yv_text_statement.specs.{Tree.{Then, End}, Words.{is_among}};
ghost use Rattle.yv_lint.specs.{InnerUsed.{Adds, has_prefix}, Used.{argument_prefixes, keyword_prefix, prefixes_in, takes_names, used_in, used_prefixes}};

use crate::statements::is_extended;
use std::alloc::{AllocError, Global};
use std::collections::BTreeSet;
use yv_link_scopes::{name_of, prefix_of};
use yv_text_if_feature::is_identifier;
use yv_text_statement::{Keyword, Statement};

// Whether a byte is a character of identifiers.
fn is_part(byte: u8) -> bool
    ensures { result ≡ is_part byte }
{
    matches!(byte, b'A'..=b'Z' | b'a'..=b'z' | b'0'..=b'9' | b'_' | b'-' | b'.')
}

// Whether the arguments of statements with this keyword have names in them, or values with
// prefixes.
fn takes_names(keyword: Keyword) -> bool
    ensures { result ≡ takes_names keyword }
{
    matches!(
        keyword,
        Keyword::Type
            | Keyword::Base
            | Keyword::Uses
            | Keyword::IfFeature
            | Keyword::Augment
            | Keyword::Refine
            | Keyword::Key
            | Keyword::Unique
            | Keyword::Path
            | Keyword::Default
            | Keyword::Must
            | Keyword::When
    )
}

/// The prefixes that a file uses.
#[derive(Drop)]
pub struct Prefixes<'a> {
    set: BTreeSet<&'a [u8]>,
}

impl<'a> Prefixes<'a> {
    /// Those of the file with this root.
    pub fn read(alloc: Global, root: &'a Statement<'_>) -> Result<Prefixes<'a>, AllocError>
        ensures { IfOk result (λ prefixes. (prefix : List ℕ)
            → has_prefix prefixes prefix ≡ is_among (used_prefixes root.now) prefix) }
    {
        let mut prefixes = Prefixes {
            set: BTreeSet::new(alloc),
        };
        prefixes.add_statement(false, root)?;
        Ok(prefixes)
    }

    /// Whether a prefix is used.
    pub fn has(&self, prefix: &'a str) -> bool
        ensures { result ≡ has_prefix self.now prefix.now }
    {
        self.set.contains(prefix.as_bytes())
    }

    // Adds a prefix.
    fn insert(&mut self, prefix: &'a [u8]) -> Result<(), AllocError>
        ensures { OnOk result (Adds self.old self.new (prefix.now ∷ [])) }
    {
        self.set.insert(prefix)?;
        Ok(())
    }

    // Adds what comes before a colon, if it is an identifier.
    fn add_run(&mut self, run: &'a [u8]) -> Result<(), AllocError>
        ensures { OnOk result (Adds self.old self.new (filter is_identifier (run.now ∷ []))) }
    {
        if is_identifier(run) {
            self.insert(run)?;
        }
        Ok(())
    }

    // Adds the identifiers in a text that have a colon after them.
    fn add_text(&mut self, text: &'a [u8]) -> Result<(), AllocError>
        ensures { OnOk result (Adds self.old self.new (prefixes_in text.now)) }
    {
        let mut start = 0;
        for (i, byte) in text.iter().enumerate() {
            if is_part(*byte) {
                continue;
            }
            if *byte == b':' {
                self.add_run(&text[start..i])?;
            }
            start = i + 1;
        }
        Ok(())
    }

    // Adds the prefix of a keyword.
    fn add_keyword(&mut self, keyword: &'a str) -> Result<(), AllocError>
        ensures { OnOk result (Adds self.old self.new (keyword_prefix keyword.now)) }
    {
        match prefix_of(keyword) {
            Some(prefix) => self.insert(prefix.as_bytes()),
            None => Ok(()),
        }
    }

    // Adds the prefixes that an argument uses.
    fn add_argument(&mut self, within: bool, statement: &'a Statement<'_>) -> Result<(), AllocError>
        ensures { OnOk result
            (Adds self.old self.new (argument_prefixes within statement.now.head)) }
    {
        if within || takes_names(statement.kind()) {
            self.add_text(name_of(statement).as_bytes())?;
        }
        Ok(())
    }

    // Adds the prefixes that a statement uses, and all below it.
    fn add_statement(
        &mut self,
        within: bool,
        statement: &'a Statement<'_>,
    ) -> Result<(), AllocError>
        ensures { OnOk result (Adds self.old self.new
            (used_in within (Then statement.now.head statement.now.children End))) }
    {
        let below = within || is_extended(statement);
        self.add_keyword(statement.keyword())?;
        self.add_argument(below, statement)?;
        for child in statement.children() {
            self.add_statement(below, child)?;
        }
        Ok(())
    }
}
