//! Values of bits types.
ghost use Rattle.std.specs.{Prelude.{◌≡◌, ◌<◌, IsTrue, ◌-◌, ◌==◌, ◌++◌, ◌∷◌, [], IfOk, OnOk, map, length, slice_index, take, true, if◌then◌else◌}, List.{list_all}};
ghost use Rattle.yv_values.specs.{InnerBits.{bits_of}, InnerNames.{NoneBelow, Ascends, Arranges}, Texts.{is_named, pieces, is_word, words, is_trimmed, are_distinct, choose, bits_in}, Values.{texts}};

use crate::name::is_same;
use crate::names::NameSet;
use crate::value::Value;
use std::alloc::{AllocError, Global};
use std::rc::{RcSlice, RcStr};

/// The set of bits that the text names, where it is a value of the type.
pub fn bits_in(alloc: Global, names: &NameSet, text: &str) -> Result<Option<Value>, AllocError>
    ensures { IfOk result (λ found. found ≡ bits_in names.now text.now) }
{
    if has_more_words(text, names.len()) {
        return Ok(None);
    }
    let words = sorted_words(alloc, text)?;
    bits_of(alloc, names, text, &words)
}

// Whether a text has more words than so many. It looks no further than to the first that is one too
// many, so that long texts, of which one word must be there twice or be no name, are refused
// without being cut and sorted.
fn has_more_words(text: &str, most: usize) -> bool
    ensures { IsTrue result → most < length (words text.now) }
{
    count_up_to(text, most.saturating_add(1)) > most
}

// How many words a text has, up to so many.
fn count_up_to(text: &str, most: usize) -> usize
    ensures { result ≡ length (take most (words text.now)) }
{
    text.split(' ')
        .filter(|piece| !piece.is_empty())
        .take(most)
        .count()
}

// The same, of the text's words in their order.
fn bits_of(
    alloc: Global,
    names: &NameSet,
    text: &str,
    words: &[&str],
) -> Result<Option<Value>, AllocError>
    requires { Ascends (map (λ w. w.now) words.now) }
    ensures { IfOk result
        (λ found. found ≡ bits_of names.now text.now (map (λ w. w.now) words.now)) }
{
    if is_trimmed(text.as_bytes()) && are_named(names, words) && are_distinct(words) {
        Ok(Some(Value::bits(RcSlice::from_vec(choose_names(alloc, names, words)?)?)))
    } else {
        Ok(None)
    }
}

// Whether no blank is at an end.
fn is_trimmed(text: &[u8]) -> bool
    ensures { result ≡ is_trimmed text.now }
{
    !begins_blank(text) && !ends_blank(text)
}

fn begins_blank(text: &[u8]) -> bool
    ensures { result ≡ (slice_index text.now 0 == 32) }
{
    match text.first() {
        Some(byte) => *byte == b' ',
        None => false,
    }
}

fn ends_blank(text: &[u8]) -> bool
    ensures { result ≡ (slice_index text.now (length text.now - 1) == 32) }
{
    match text.last() {
        Some(byte) => *byte == b' ',
        None => false,
    }
}

// The words of a text in the order of their bytes.
fn sorted_words<'a>(alloc: Global, text: &'a str) -> Result<Vec<&'a str>, AllocError>
    ensures { IfOk result (λ v. Arranges (words text.now) (map (λ w. w.now) v.items)) }
{
    let mut words = words(alloc, text)?;
    words.sort()?;
    Ok(words)
}

// What the text is cut into at each blank.
fn pieces<'a>(alloc: Global, text: &'a str) -> Result<Vec<&'a str>, AllocError>
    ensures { IfOk result (λ v. map (λ w. w.now) v.items ≡ pieces text.now) }
{
    text.split(' ').collect(alloc)
}

// The words of a text, with one blank or more between.
fn words<'a>(alloc: Global, text: &'a str) -> Result<Vec<&'a str>, AllocError>
    ensures { IfOk result (λ v. map (λ w. w.now) v.items ≡ words text.now) }
{
    let pieces = pieces(alloc, text)?;
    let mut words = Vec::new(alloc);
    for piece in &pieces {
        keep(&mut words, piece)?;
    }
    Ok(words)
}

// Adds a word, where it isn't empty.
fn keep<'a>(words: &mut Vec<&'a str>, word: &'a str) -> Result<(), AllocError>
    ensures { OnOk result (map (λ w. w.now) words.new.items
        ≡ map (λ w. w.now) words.old.items ++ (if is_word word.now then word.now ∷ [] else [])) }
{
    if !word.is_empty() {
        words.push(word)?;
    }
    Ok(())
}

fn are_named(names: &NameSet, words: &[&str]) -> bool
    ensures { result ≡ list_all (is_named names.now) (map (λ w. w.now) words.now) }
{
    all_named(names, words)
}

fn all_named(names: &NameSet, words: &[&str]) -> bool
    ensures { result ≡ list_all (λ w. is_named names.now w.now) words.now }
{
    words.iter().all(|word| names.has(word.as_bytes()))
}

// Words that are the same stand side by side, since they are in their order.
fn are_distinct(words: &[&str]) -> bool
    requires { Ascends (map (λ w. w.now) words.now) }
    ensures { result ≡ are_distinct (map (λ w. w.now) words.now) }
{
    for at in 0..words.len() {
        let (_, rest) = words.split_at(at + 1);
        if is_first(rest, words[at].as_bytes()) {
            return false;
        }
    }
    true
}

fn is_first(words: &[&str], text: &[u8]) -> bool
    requires order { Ascends (map (λ w. w.now) words.now) }
    requires above { NoneBelow text.now (map (λ w. w.now) words.now) }
    ensures { result ≡ is_named (map (λ w. w.now) words.now) text.now }
{
    match words.first() {
        Some(word) => is_same(word.as_bytes(), text),
        None => false,
    }
}

// The names that are words, in their order.
fn choose_names(alloc: Global, names: &NameSet, words: &[&str]) -> Result<Vec<RcStr>, AllocError>
    requires order { Ascends (map (λ w. w.now) words.now) }
    requires distinct { are_distinct (map (λ w. w.now) words.now) ≡ true }
    ensures { IfOk result (λ v. texts v.items ≡ choose names.now (map (λ w. w.now) words.now)) }
{
    let mut found = Vec::new(alloc);
    for word in words {
        add_copies(&mut found, names.equal_to(word.as_bytes()))?;
    }
    Ok(found)
}

fn add_copies(found: &mut Vec<RcStr>, names: &[RcStr]) -> Result<(), AllocError>
    ensures { OnOk result (texts found.new.items ≡ texts found.old.items ++ texts names.now) }
{
    for name in names {
        found.push(name.clone()?)?;
    }
    Ok(())
}
