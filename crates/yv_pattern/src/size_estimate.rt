//! About how much `regex` builds for a pattern, so that it isn't tried with limits far below.
//! Nothing that is answered of texts rests on it: where it is too little, the next limits are
//! tried, and where it is too much, the pattern is charged more.
use crate::part::{Part, part_at};
use crate::place::Place;
use std::alloc::{AllocError, Global};

// What the tables take for each pattern, besides its parts.
const BARE: usize = 52;

// For a character, a range or a mark, which is a state of `regex`'s automaton.
const STATE: usize = 12;

// For all characters but some, most of which have several bytes.
const ALL_BUT_SOME: usize = 220;

// For the categories of characters: decimal digits, another one (256 to 14,000), and those that
// aren't of words.
const DIGITS: usize = 980;

const CATEGORY: usize = 5_000;

const WORD: usize = 14_000;

/// About how many bytes of tables `regex` builds for a pattern of these characters.
pub fn expected_tables(alloc: Global, characters: &[char]) -> Result<usize, AllocError> {
    let mut tables = Tables::new(alloc);
    let mut rest = characters;
    let mut place = Place::Outside;
    for _ in 0..characters.len() {
        let Some(found) = part_at(place, rest) else {
            break;
        };
        let (own, behind) = rest.split_at(found.size);
        tables.add(place, found.part, own)?;
        place = place.after(found.part);
        rest = behind;
    }
    Ok(tables.group)
}

// What the tables take for the parts that were read.
#[derive(Drop)]
struct Tables {
    // For those before each group that is open, outermost first.
    before: Vec<usize>,
    // For those of the innermost group.
    group: usize,
    // For the last atom of these, or what was read of its class.
    atom: usize,
}

impl Tables {
    fn new(alloc: Global) -> Tables {
        Tables {
            before: Vec::new(alloc),
            group: BARE,
            atom: 0,
        }
    }

    fn add(&mut self, place: Place, part: Part, own: &[char]) -> Result<(), AllocError> {
        match part {
            Part::Opening => {
                self.before.push(self.group)?;
                self.group = 0;
            }
            Part::Closing => {
                self.atom = self.group;
                self.group = self.before.pop().unwrap_or(0).saturating_add(self.atom);
            }
            Part::Count => self.repeat(own),
            Part::Bar | Part::Optional | Part::Star | Part::Plus => self.grow(STATE),
            _ => {
                if place == Place::Outside {
                    self.atom = 0;
                }
                self.grow(size_of_atom(part));
            }
        }
        Ok(())
    }

    // Adds to the last atom.
    fn grow(&mut self, bytes: usize) {
        self.atom = self.atom.saturating_add(bytes);
        self.group = self.group.saturating_add(bytes);
    }

    // Repeats the last atom as often as a count says at most. Where it says at least how often,
    // too, each may be passed over.
    fn repeat(&mut self, count: &[char]) {
        let choice = if count.contains(&',') { STATE } else { 0 };
        let once = self.atom.saturating_add(choice);
        let others = once
            .saturating_mul(greatest_number(count))
            .saturating_sub(self.atom);
        self.group = self.group.saturating_add(others);
    }
}

// An atom that isn't a group, or an item of a class, for which the class has nothing besides unless
// it is turned round.
fn size_of_atom(part: Part) -> usize {
    match part {
        Part::Class | Part::ClassEnd => 0,
        Part::Any | Part::NotSpace | Part::NotClass => ALL_BUT_SOME,
        Part::Digit | Part::NotDigit => DIGITS,
        Part::Word | Part::NotWord => WORD,
        Part::Category => CATEGORY,
        _ => STATE,
    }
}

// The greatest of the numbers that are among these characters, and 1 at least.
fn greatest_number(characters: &[char]) -> usize {
    let mut greatest: usize = 1;
    let mut number: usize = 0;
    for character in characters {
        number = match character.to_digit(10) {
            Some(digit) => number.saturating_mul(10).saturating_add(digit as usize),
            None => 0,
        };
        greatest = greatest.max(number);
    }
    greatest
}
