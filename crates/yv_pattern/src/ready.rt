//! A pattern with a matcher that is kept from one text to the next.
ghost use Rattle.std.specs.Prelude.{◌≡◌, IfOk, IsTrue};
ghost use Rattle.yv_pattern.specs.Meaning.{verdict};

use crate::pattern::Pattern;
use regex::{Matcher, Regex};
use std::alloc::{AllocError, Global};
use std::marker::Model;

/// A pattern with a matcher of its own, which keeps what it learns from each text. Contracts see it
/// as the pattern.
#[derive(Drop)]
pub struct Ready<'p> {
    regex: &'p Regex,
    matcher: Matcher<'p>,
    // How many bytes of texts it was given.
    read: usize,
    // The number of the last of these.
    turn: u64,
}

impl<'p> Model for Ready<'p> {
    ghost use Rattle.std.specs.Prelude.{◌≡◌, ℕ, List};
    ghost use Rattle.regex.specs.{Patterns.{default_config}, Strings.{regex_source, regex_config, regex_pattern, matcher_pattern, IsReadFromSource}};

    ghost Value = { List ℕ };

    ghost view = { λ r. regex_source r.regex.now };

    ghost invariant = { λ r. (regex_config r.regex.now ≡ default_config) × IsReadFromSource r.regex.now
        × (matcher_pattern r.matcher ≡ regex_pattern r.regex.now) };
}

impl<'p> Ready<'p> {
    /// A pattern with a new matcher.
    pub fn new(alloc: Global, pattern: &'p Pattern) -> Result<Ready<'p>, AllocError>
        ensures { IfOk result (λ ready. ready ≡ pattern.now) }
    {
        let matcher = pattern.regex.matcher(alloc)?;
        Ok(Ready {
            regex: &pattern.regex,
            matcher,
            read: 0,
            turn: 0,
        })
    }

    /// Whether the whole text matches (RFC 7950, section 9.4.5).
    pub fn is_match(&mut self, text: &str) -> bool
        ensures value { result ≡ verdict self.old text.now }
        ensures same { self.new ≡ self.old }
    {
        self.read = self.read.saturating_add(text.len());
        self.matcher.is_match(text)
    }

    /// Whether it is this pattern.
    pub(crate) fn is_of(&self, pattern: &Pattern) -> bool
        ensures { IsTrue result → self.now ≡ pattern.now }
    {
        self.regex.as_str() == pattern.source()
    }

    /// The number of the text that it was given last.
    pub(crate) fn turn(&self) -> u64 {
        self.turn
    }

    /// Notes the number of the text that it is given next.
    pub(crate) fn note_turn(&mut self, turn: u64)
        ensures { self.new ≡ self.old }
    {
        self.turn = turn;
    }

    /// How many bytes of texts it was given.
    pub(crate) fn read(&self) -> usize {
        self.read
    }
}
