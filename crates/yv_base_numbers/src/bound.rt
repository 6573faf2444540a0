//! The bounds of a part of a restriction.
ghost use Rattle.std.specs.{Prelude.{◌≡◌, ◌==◌, ◌&&◌, ◌+◌, ◌<◌, ◌≤◌, length, map, option_map, reverse, slice_index, IfSome}, Str.{bytes_eq}};
ghost use Rattle.yv_base_numbers.specs.{Numbers.{integer}, RestrictedIntervals.{interval, lowest, highest}, Restrictions.{is_blank, behind_blanks, without_blanks, number_of, bound_of, between, dots_at, around_dots, part_of}};

use crate::decimal::scaled_of;
use crate::integer::Integer;
use crate::intervals::Span;
use crate::number::integer_of;

/// The interval that one part says.
pub fn part_of(digits: Option<u32>, base: &[Span], text: &[u8]) -> Option<Span>
    ensures { option_map interval result ≡ part_of digits (map interval base.now) text.now }
{
    match dots_at(text) {
        Some(at) => between(
            bound_of(digits, base, without_blanks(&text[..at])),
            bound_of(digits, base, without_blanks(&text[at + 2..])),
        ),
        None => {
            let bound = bound_of(digits, base, without_blanks(text));
            between(bound, bound)
        }
    }
}

fn between(low: Option<Integer>, high: Option<Integer>) -> Option<Span>
    ensures { option_map interval result
        ≡ between (option_map integer low) (option_map integer high) }
{
    match (low, high) {
        (Some(low), Some(high)) => Some(Span { low, high }),
        _ => None,
    }
}

fn bound_of(digits: Option<u32>, base: &[Span], text: &[u8]) -> Option<Integer>
    ensures { option_map integer result ≡ bound_of digits (map interval base.now) text.now }
{
    if is_same(text, b"min") {
        lowest(base)
    } else if is_same(text, b"max") {
        highest(base)
    } else {
        number_of(digits, text)
    }
}

fn is_same(one: &[u8], other: &[u8]) -> bool
    ensures { result ≡ bytes_eq one.now other.now }
{
    one == other
}

fn lowest(base: &[Span]) -> Option<Integer>
    ensures { option_map integer result ≡ lowest (map interval base.now) }
{
    match base.first() {
        Some(span) => Some(span.low),
        None => None,
    }
}

fn highest(base: &[Span]) -> Option<Integer>
    ensures { option_map integer result ≡ highest (map interval base.now) }
{
    match base.last() {
        Some(span) => Some(span.high),
        None => None,
    }
}

fn number_of(digits: Option<u32>, text: &[u8]) -> Option<Integer>
    ensures { option_map integer result ≡ number_of digits text.now }
{
    match digits {
        Some(digits) => scaled_of(digits, text),
        None => integer_of(text),
    }
}

// Where two points stand first.
fn dots_at(text: &[u8]) -> Option<usize>
    ensures finds { result ≡ dots_at text.now }
    ensures room { IfSome result (λ i. i + 2 ≤ length text.now) }
{
    for at in 1..text.len() {
        if are_dots(text[at - 1], text[at]) {
            return Some(at - 1);
        }
    }
    None
}

fn are_dots(one: u8, next: u8) -> bool
    ensures { result ≡ ((one == 46) && (next == 46)) }
{
    one == b'.' && next == b'.'
}

// The text without the blanks at its ends.
fn without_blanks(text: &[u8]) -> &[u8]
    ensures { result.now ≡ without_blanks text.now }
{
    before_blanks(behind_blanks(text))
}

// The text after the blanks that it begins with.
fn behind_blanks(text: &[u8]) -> &[u8]
    ensures { result.now ≡ behind_blanks text.now }
{
    let mut rest = text;
    while let Some((first, others)) = rest.split_first() {
        if !is_blank(*first) {
            break;
        }
        rest = others;
    }
    rest
}

// The text before the blanks that it ends with.
fn before_blanks(text: &[u8]) -> &[u8]
    ensures { result.now ≡ reverse (behind_blanks (reverse text.now)) }
{
    let mut rest = text;
    while let Some((last, others)) = rest.split_last() {
        if !is_blank(*last) {
            break;
        }
        rest = others;
    }
    rest
}

fn is_blank(byte: u8) -> bool
    ensures { result ≡ is_blank byte }
{
    byte == b' ' || byte == b'\t' || byte == b'\n' || byte == b'\r'
}
