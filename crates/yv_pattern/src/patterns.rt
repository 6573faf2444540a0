//! The patterns of one compilation: equal ones are built once, and all of them have one allowance
//! of room.
ghost use Rattle.std.specs.{Prelude.{◌≡◌, ◌≢◌, ℕ, [], IfOk, IfErr, MatchOption, OnErr, string_bytes}, List.{Contains}};
ghost use Rattle.yv_pattern.specs.{Spells.{Translates, IsRefusedAs}, Store.{IsKept, charge, tried_limits}};

use crate::pattern::{Pattern, bad_pattern, characters_of, source_of};
use crate::size_estimate::expected_tables;
use std::alloc::{AllocError, Global};
use std::collections::BTreeMap;
use std::marker::Model;
use std::rc::Rc;
use yv_text_statement::{Refusal, Stop};

// How many bytes of tables `regex` may build for the patterns of one compilation, all together.
const ROOM: usize = 268_435_456;

// The limits on these bytes that are tried for a pattern, from the first that may be enough on. The
// last is `regex`'s own. The first tell small patterns apart, since a matcher that is kept grows
// with its pattern's tables.
const LIMITS: [usize; 18] = [
    128, 256, 512, 1_024, 2_048, 4_096, 8_192, 16_384, 32_768, 65_536, 131_072, 262_144, 524_288,
    1_048_576, 2_097_152, 4_194_304, 8_388_608, 10_485_760,
];

// How many of these bytes a pattern is charged at least, since it takes so much besides its tables.
const LEAST_CHARGE: usize = 8_192;

/// The patterns that a compilation has built, each once, and how much room is left to build others.
/// Each is charged the limit under which `regex` built it, and 8 KiB at least, so that what
/// strangers' patterns take together is bounded.
#[derive(Drop)]
pub struct Patterns {
    built: BTreeMap<String, Rc<Pattern>>,
    room: usize,
}

impl Model for Patterns {
    ghost use Rattle.std.specs.{Prelude.{◌≡◌, map, string_bytes}, List.{AllByRecursion}};
    ghost use Rattle.yv_pattern.specs.Store.{StoreView};

    ghost Value = { StoreView };

    ghost view = { λ p. record { sources = map (λ e. string_bytes e.0) p.built.entries; room = p.room } };

    ghost invariant = { λ p. AllByRecursion (λ e. e.1.value ≡ string_bytes e.0) p.built.entries };
}

impl Patterns {
    /// None yet.
    pub fn new(alloc: Global) -> Patterns
        // No pattern is built.
        ensures sources { result.sources ≡ [] }
        // There are 256 MiB for the tables of those that will be.
        ensures room { result.room ≡ 268435456 }
    {
        Patterns {
            built: BTreeMap::new(alloc),
            room: ROOM,
        }
    }

    /// Reads the argument of a `pattern` statement; where one with the same translation was read
    /// before, it is that. A text outside the dialect is `BadPattern`, with file and offset 0 and
    /// line 1, since the text's place isn't known here. `PatternBuild` says that `regex` doesn't
    /// build the translation of a text of the dialect in the room that is left, which is 256 MiB
    /// for all patterns together, each taking 8 KiB at least. What was read before can be read
    /// again. After an error all is as before.
    pub fn read(&mut self, alloc: Global, text: &str) -> Result<Rc<Pattern>, Stop>
        // The pattern holds the translation of the text.
        ensures reads { IfOk result (λ p. Translates text.now p.value) }
        // A refusal is `BadPattern`, for a text outside the dialect.
        ensures refuses { IfErr result (IsRefusedAs text.now) }
        // A pattern that was read before changes nothing; another one is added, and takes the room
        // of one of the limits that are tried.
        ensures store { IfOk result (λ p. IsKept self.old p.value self.new) }
        // After an error all is as before.
        ensures same { OnErr result (self.new ≡ self.old) }
    {
        match source_of(alloc, text)? {
            Some(source) => self.of_source(alloc, text, source),
            None => Err(Stop::Fault(bad_pattern())),
        }
    }

    // The pattern of the source that is written for a text. The room is charged last, so that all
    // is as before where memory runs out.
    fn of_source(&mut self, alloc: Global, text: &str, source: String) -> Result<Rc<Pattern>, Stop>
        ensures source { IfOk result (λ p. p.value ≡ string_bytes source) }
        ensures store { IfOk result (λ p. IsKept self.old p.value self.new) }
        ensures kind { IfErr result (λ stop. (refusal : Refusal) → stop ≢ Stop.Fault refusal) }
        ensures same { OnErr result (self.new ≡ self.old) }
    {
        if let Some(pattern) = self.find(source.as_str())? {
            return Ok(pattern);
        }
        let limits = limits_of(alloc, text, source.as_str())?;
        let number = self.built.len();
        let (pattern, taken) = build_within(alloc, source.as_str(), limits, number, self.room)?;
        let pattern = Rc::new(alloc, pattern)?;
        let copy = pattern.clone()?;
        self.built.insert(source, copy)?;
        self.room -= taken;
        Ok(pattern)
    }

    // The pattern that was built of a source, where one was.
    fn find(&self, source: &str) -> Result<Option<Rc<Pattern>>, AllocError>
        ensures { IfOk result
            (λ found. MatchOption found (Contains self.now.sources source.now → ⊥)
            (λ p. (p.value ≡ source.now) × Contains self.now.sources source.now)) }
    {
        match self.built.get(source) {
            Some(pattern) => Ok(Some(pattern.clone()?)),
            None => Ok(None),
        }
    }
}

// The pattern of a source, with this number, and the room that it is charged: the first of these
// limits with which `regex` builds it.
fn build_within(
    alloc: Global,
    source: &str,
    limits: &[usize],
    number: usize,
    room: usize,
) -> Result<(Pattern, usize), Stop>
    ensures source { IfOk result (λ p. p.0 ≡ source.now) }
    ensures charge { IfOk result
        (λ p. (limit : ℕ) × Contains limits.now limit × (p.1 ≡ charge room limit)) }
    ensures kind { IfErr result (λ stop. (refusal : Refusal) → stop ≢ Stop.Fault refusal) }
{
    for limit in limits {
        let given = (*limit).min(room);
        match Pattern::within(alloc, source, given, Some(number)) {
            Ok(pattern) => return Ok((pattern, given.max(LEAST_CHARGE).min(room))),
            Err(Stop::PatternBuild) => {}
            Err(stop) => return Err(stop),
        }
        if given == room {
            return Err(Stop::PatternBuild);
        }
    }
    Err(Stop::PatternBuild)
}

// The limits that are worth trying for a text and its source, since each try reads it anew: tables
// aren't much smaller than what they are of.
fn limits_of(alloc: Global, text: &str, source: &str) -> Result<&'static [usize], AllocError>
    ensures { IfOk result
        (λ limits. (limit : ℕ) → Contains limits.now limit → Contains tried_limits limit) }
{
    let characters = characters_of(alloc, text)?;
    let least = expected_tables(alloc, characters.as_slice())?.max(source.len());
    let skipped = LIMITS
        .partition_point(|limit| *limit < least)
        .min(LIMITS.len() - 1);
    Ok(&LIMITS[skipped..])
}
