//! Matchers that are kept from one text to the next, in bounded memory.
ghost use Rattle.std.specs.Prelude.{◌≡◌, IfOk, IfSome};
ghost use Rattle.yv_pattern.specs.Meaning.{verdict};

use crate::pattern::Pattern;
use crate::ready::Ready;
use std::alloc::{AllocError, Global};

// How many matchers are kept at once: a pattern's is in the slot of its number by this.
const SLOTS: usize = 4_096;

// Of the patterns whose matchers are kept: the most bytes of the source, which is compared with
// that in its slot, and of the tables.
const MOST_SOURCE: usize = 256;

const MOST_TABLES: usize = 65_536;

// How many bytes of texts a matcher reads before it is made anew, since after some thousands it
// takes to far larger tables.
const MOST_READ: usize = 1_024;

// How many bytes the matchers may come to hold together, by what they are charged.
const MOST_HELD: usize = 268_435_456;

// What a matcher holds for a pattern of no tables.
const BARE: usize = 8_192;

// How many times a pattern's tables a new matcher holds at most.
const TIMES_TABLES: usize = 8;

// What a row of an automaton takes beside the states that it is for: a cell for each byte at most.
const WIDEST_ROW: usize = 1_100;

/// The matchers of a compilation's patterns, so that a text is held against a pattern that was met
/// before without making its matcher anew. Only those of small patterns are kept, 4,096 at most.
/// Strangers choose patterns and texts, and a matcher learns from each byte that it reads, except
/// for those with which the text before began too; so each is charged the most that it may ever
/// hold, and before all of them together were charged more than 256 MiB, all are dropped.
#[derive(Drop)]
pub struct Matchers<'p> {
    slots: Vec<Option<Box<Ready<'p>>>>,
    held: usize,
    keeps: bool,
    // The text that was held against patterns last, and how many texts came before it.
    text: String,
    turn: u64,
    // With how many bytes the text before that began too.
    shared: usize,
}

impl<'p> Matchers<'p> {
    /// None yet.
    pub fn new(alloc: Global) -> Matchers<'p> {
        Matchers {
            slots: Vec::new(alloc),
            held: 0,
            keeps: true,
            text: String::new(alloc),
            turn: 0,
            shared: 0,
        }
    }

    /// An empty store that keeps no matcher: for a single text.
    pub fn none(alloc: Global) -> Matchers<'p> {
        Matchers {
            slots: Vec::new(alloc),
            held: 0,
            keeps: false,
            text: String::new(alloc),
            turn: 0,
            shared: 0,
        }
    }

    /// Whether the whole text matches (RFC 7950, section 9.4.5). No answer depends on which
    /// matchers are kept, nor on an error before.
    pub fn is_match(
        &mut self,
        alloc: Global,
        pattern: &'p Pattern,
        text: &str,
    ) -> Result<bool, AllocError>
        ensures { IfOk result (λ found. found ≡ verdict pattern.now text.now) }
    {
        match self.slot_of(pattern, text) {
            Some(slot) => self.is_match_at(alloc, slot, pattern, text),
            None => pattern.is_match(alloc, text),
        }
    }

    // Where the matcher of a pattern is kept, if it is.
    fn slot_of(&self, pattern: &Pattern, text: &str) -> Option<usize> {
        let is_small = pattern.tables() <= MOST_TABLES && pattern.source().len() <= MOST_SOURCE;
        if !self.keeps || !is_small || text.len() > MOST_READ {
            return None;
        }
        let number = pattern.number()?;
        Some(number % SLOTS)
    }

    fn is_match_at(
        &mut self,
        alloc: Global,
        slot: usize,
        pattern: &'p Pattern,
        text: &str,
    ) -> Result<bool, AllocError>
        ensures { IfOk result (λ found. found ≡ verdict pattern.now text.now) }
    {
        self.turn_to(text)?;
        let mut ready = self.charge(alloc, slot, pattern, text)?;
        ready.note_turn(self.turn);
        let is_match = ready.is_match(text);
        self.keep(slot, ready)?;
        Ok(is_match)
    }

    // Notes that this text is held against patterns now.
    fn turn_to(&mut self, text: &str) -> Result<(), AllocError> {
        if self.text.as_str() == text {
            return Ok(());
        }
        let shared = common(self.text.as_bytes(), text.as_bytes());
        self.shared = 0;
        self.text.clear();
        self.text.push_str(text)?;
        self.shared = shared;
        self.turn = self.turn.saturating_add(1);
        Ok(())
    }

    // The matcher of a pattern, which is charged for what it may learn from the text.
    fn charge(
        &mut self,
        alloc: Global,
        slot: usize,
        pattern: &'p Pattern,
        text: &str,
    ) -> Result<Box<Ready<'p>>, AllocError>
        ensures { IfOk result (λ ready. ready.value ≡ pattern.now) }
    {
        if let Some(ready) = self.take_from(slot, pattern, text) {
            let rows = self.rows_of(ready.turn(), text);
            if self.charges(rows.saturating_mul(row(pattern))) {
                return Ok(ready);
            }
        }
        self.make(alloc, pattern, text)
    }

    // How many rows a matcher may learn from a text, which read another one in this turn: one for
    // each byte, and one for the end. What it read then leads to rows that it has.
    fn rows_of(&self, turn: u64, text: &str) -> usize {
        if turn == self.turn {
            return 0;
        }
        let known = if turn.saturating_add(1) == self.turn {
            self.shared
        } else {
            0
        };
        text.len().saturating_sub(known).saturating_add(1)
    }

    // Takes the matcher in a slot, where it is of this pattern and may read this text; another is
    // dropped.
    fn take_from(&mut self, slot: usize, pattern: &Pattern, text: &str) -> Option<Box<Ready<'p>>>
        ensures { IfSome result (λ ready. ready.value ≡ pattern.now) }
    {
        let ready = self.slots.get_mut(slot)?.take()?;
        let left = MOST_READ.saturating_sub(ready.read());
        if text.len() <= left && ready.is_of(pattern) {
            Some(ready)
        } else {
            None
        }
    }

    // A new matcher, before which all others are dropped where they would hold too much together.
    fn make(
        &mut self,
        alloc: Global,
        pattern: &'p Pattern,
        text: &str,
    ) -> Result<Box<Ready<'p>>, AllocError>
        ensures { IfOk result (λ ready. ready.value ≡ pattern.now) }
    {
        let rows = text.len().saturating_add(1);
        let bytes = TIMES_TABLES
            .saturating_mul(pattern.tables())
            .saturating_add(BARE)
            .saturating_add(rows.saturating_mul(row(pattern)));
        if !self.charges(bytes) {
            self.slots.clear();
            self.held = bytes;
        }
        let ready = Ready::new(alloc, pattern)?;
        Ok(Box::new(alloc, ready)?)
    }

    fn keep(&mut self, slot: usize, ready: Box<Ready<'p>>) -> Result<(), AllocError> {
        for _ in self.slots.len()..slot.saturating_add(1) {
            self.slots.push(None)?;
        }
        if let Some(place) = self.slots.get_mut(slot) {
            *place = Some(ready);
        }
        Ok(())
    }

    // Charges so many bytes, if they aren't too much.
    fn charges(&mut self, bytes: usize) -> bool {
        let has_room = bytes <= MOST_HELD.saturating_sub(self.held);
        if has_room {
            self.held = self.held.saturating_add(bytes);
        }
        has_room
    }
}

// With how many bytes both begin.
fn common(first: &[u8], second: &[u8]) -> usize {
    first
        .iter()
        .zip(second)
        .take_while(|(one, other)| one == other)
        .count()
}

// The most that a row of a pattern's automaton takes. It has a cell for each class of bytes, of
// which each range in the tables makes two at most, and names states. So it takes no more than the
// tables, and no more than the widest row and a word for each state.
fn row(pattern: &Pattern) -> usize {
    let tables = pattern.tables();
    tables.min(WIDEST_ROW.saturating_add(tables / 4))
}
