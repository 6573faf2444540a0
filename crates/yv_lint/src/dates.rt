//! The dates of revisions.
ghost use Rattle.std.specs.Prelude.{◌≡◌, ◌+◌, ◌-◌, ◌<◌, length};
ghost use Rattle.yv_lint.specs.Dates.{dates_of, days_of, greatest, is_day, is_earlier, is_leap_year, is_no_day, later, two_digits};

use yv_link_scopes::name_of;
use yv_text_statement::{Keyword, Statement};

// Whether a year has 366 days, in the Gregorian calendar.
fn is_leap_year(year: u32) -> bool
    ensures { result ≡ is_leap_year year }
{
    year % 4 == 0 && (year % 100 != 0 || year % 400 == 0)
}

// How many days a month has.
fn days_of(year: u32, month: u32) -> u32
    ensures { result ≡ days_of year month }
{
    match month {
        2 if is_leap_year(year) => 29,
        2 => 28,
        4 | 6 | 9 | 11 => 30,
        _ => 31,
    }
}

// The number that a digit writes.
fn digit(byte: u8) -> u32
    ensures value { result ≡ byte - 48 }
    ensures few { result < 256 }
{
    u32::from(byte.saturating_sub(b'0'))
}

// The number that the two digits from a place on write.
fn two_digits(text: &[u8], at: usize) -> u32
    requires { at + 1 < length text.now }
    ensures value { result ≡ two_digits text.now at }
    ensures few { result < 4096 }
{
    10 * digit(text[at]) + digit(text[at + 1])
}

// Whether a date, as `2026-01-31`, is a day of the calendar.
fn is_day(date: &str) -> bool
    ensures { result ≡ is_day date.now }
{
    let text = date.as_bytes();
    if text.len() != 10 {
        return false;
    }
    let year = 100 * two_digits(text, 0) + two_digits(text, 2);
    let month = two_digits(text, 5);
    let day = two_digits(text, 8);
    1 <= day && day <= days_of(year, month)
}

/// Whether a statement is a revision whose date is no day of the calendar.
pub fn is_no_day(statement: &Statement<'_>) -> bool
    ensures { result ≡ is_no_day statement.now }
{
    statement.is(Keyword::Revision) && !is_day(name_of(statement))
}

/// Whether a date is before another.
pub fn is_earlier(date: &str, other: &str) -> bool
    ensures { result ≡ is_earlier date.now other.now }
{
    date.cmp(other).is_lt()
}

// The later one of two dates.
fn later<'a>(date: &'a str, other: &'a str) -> &'a str
    ensures { result.now ≡ later date.now other.now }
{
    if is_earlier(date, other) { other } else { date }
}

/// The greatest date of a file's revisions; no text where it has none.
pub fn greatest_date<'a>(root: &'a Statement<'_>) -> &'a str
    ensures { result.now ≡ greatest (dates_of root.now) }
{
    let mut best = "";
    for one in root.children() {
        if one.is(Keyword::Revision) {
            best = later(best, name_of(one));
        }
    }
    best
}
