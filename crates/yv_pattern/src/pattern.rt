//! A pattern that texts are held against.
ghost use Rattle.std.specs.{Prelude.{◌≡◌, ◌≢◌, ℕ, List, IfOk, IfErr, MatchOption, string_bytes}, Str.{chars}};
ghost use Rattle.yv_text_statement.specs.declared.refusal.Stop.TheVariants.{NoMemory};
ghost use Rattle.yv_pattern.specs.{Meaning.{verdict}, Spells.{Translates, IsRefusedAs, anchor, bad_pattern}};

use crate::reader::translate;
use regex::{Error, Regex, RegexBuilder};
use std::alloc::{AllocError, Global};
use std::marker::Model;
use yv_text_statement::{Code, Refusal, Stop};

/// A pattern that texts are held against. Contracts see it as the bytes of its translation, which
/// is what `regex` was given.
#[derive(Drop)]
pub struct Pattern {
    pub(crate) regex: Regex,
    // Its number among the patterns of its compilation, from 0 in the order of their building. One
    // that was read by itself has none.
    number: Option<usize>,
    // The limit on the bytes of its tables under which it was built.
    tables: usize,
}

impl Model for Pattern {
    ghost use Rattle.std.specs.Prelude.{◌≡◌, ℕ, List};
    ghost use Rattle.regex.specs.{Patterns.{default_config}, Strings.{regex_source, regex_config, IsReadFromSource}};

    ghost Value = { List ℕ };

    ghost view = { λ p. regex_source p.regex };

    ghost invariant = { λ p. (regex_config p.regex ≡ default_config) × IsReadFromSource p.regex };
}

// How many bytes of tables `regex` builds for a pattern by itself.
const MOST_TABLES: usize = 10_485_760;

impl Pattern {
    /// Reads the argument of a `pattern` statement by itself, as a caller of this library may; a
    /// compilation reads all of its patterns by `Patterns`. A text outside the dialect is
    /// `BadPattern`, with file and offset 0 and line 1, since the text's place isn't known here.
    /// `PatternBuild` says that `regex` doesn't build the translation of a text of the dialect, as
    /// where it would take too much room.
    pub fn read(alloc: Global, text: &str) -> Result<Pattern, Stop>
        // The text is in the dialect, and the pattern holds its translation, which is anchored at
        // both ends of a text.
        ensures reads { IfOk result (Translates text.now) }
        // A refusal is `BadPattern`, exactly for a text outside the dialect.
        ensures refuses { IfErr result (IsRefusedAs text.now) }
    {
        match source_of(alloc, text)? {
            Some(source) => Pattern::within(alloc, source.as_str(), MOST_TABLES, None),
            None => Err(Stop::Fault(bad_pattern())),
        }
    }

    /// Whether the whole text matches (RFC 7950, section 9.4.5).
    pub fn is_match(&self, alloc: Global, text: &str) -> Result<bool, AllocError>
        ensures { IfOk result (λ found. found ≡ verdict self.now text.now) }
    {
        let mut matcher = self.regex.matcher(alloc)?;
        Ok(matcher.is_match(text))
    }

    /// The pattern of a source, where `regex` builds it with a limit on the bytes of its tables.
    pub(crate) fn within(
        alloc: Global,
        source: &str,
        limit: usize,
        number: Option<usize>,
    ) -> Result<Pattern, Stop>
        ensures source { IfOk result (λ p. p ≡ source.now) }
        ensures kind { IfErr result (λ stop. (refusal : Refusal) → stop ≢ Stop.Fault refusal) }
    {
        match RegexBuilder::new(source).size_limit(limit).build(alloc) {
            Ok(regex) => Ok(Pattern {
                regex,
                number,
                tables: limit,
            }),
            Err(Error::OutOfMemory) => Err(Stop::NoMemory),
            Err(_) => Err(Stop::PatternBuild),
        }
    }

    /// Its number among the patterns of its compilation, where it wasn't read by itself.
    pub(crate) fn number(&self) -> Option<usize> {
        self.number
    }

    /// The limit on the bytes of its tables under which it was built: they take no more.
    pub(crate) fn tables(&self) -> usize {
        self.tables
    }

    /// What `regex` was given.
    pub(crate) fn source(&self) -> &str
        ensures { result.now ≡ self.now }
    {
        self.regex.as_str()
    }
}

pub(crate) fn bad_pattern() -> Refusal
    ensures { result ≡ bad_pattern }
{
    Refusal {
        code: Code::BadPattern,
        file: 0,
        offset: 0,
        line: 1,
    }
}

pub(crate) fn characters_of(alloc: Global, text: &str) -> Result<Vec<char>, AllocError>
    ensures { IfOk result (λ v. v.items ≡ chars text.now) }
{
    text.chars().collect(alloc)
}

// What `regex` is to match for a text, where it is a pattern.
pub(crate) fn source_of(alloc: Global, text: &str) -> Result<Option<String>, AllocError>
    ensures { IfOk result
        (λ found. MatchOption found ((source : List ℕ) → Translates text.now source → ⊥)
        (λ s. Translates text.now (string_bytes s))) }
{
    let characters = characters_of(alloc, text)?;
    match translate(alloc, characters.as_slice())? {
        Some(written) => Ok(Some(anchor(alloc, written.as_str())?)),
        None => Ok(None),
    }
}

fn anchor(alloc: Global, written: &str) -> Result<String, AllocError>
    ensures { IfOk result (λ s. string_bytes s ≡ anchor written.now) }
{
    let mut source = String::from_str(alloc, "\\A(?:")?;
    source.push_str(written)?;
    source.push_str(")\\z")?;
    Ok(source)
}
