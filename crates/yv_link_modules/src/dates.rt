//! The revisions of files, and the dates that imports and includes ask for.
ghost use Rattle.std.specs.Prelude.{◌≡◌, ◌<◌, ◌≢◌, ℕ, Some, length, IfOk, codes};
ghost use Rattle.yv_link_scopes.specs.{Files.{has_word}, Rows.{row}, Views.{files_in, rows_in}};
ghost use Rattle.yv_link_modules.specs.{Dates.{dated_file, takes_date}, InnerDates.{AreGreatest, date_at, is_date, is_other_date, later, text_of}};

use std::alloc::{AllocError, Global};
use std::cmp::Ordering;
use yv_link_scopes::laws::roots_come_first;
use yv_link_scopes::{Entry, Rows, name_of};
use yv_text_statement::Keyword;

// The greater of two dates.
fn later<'a>(first: Option<&'a str>, second: &'a str) -> &'a str
    ensures { result.now ≡ later (text_of first.entry) second.now }
{
    match first {
        Some(date) => match date.cmp(second) {
            Ordering::Greater => date,
            _ => second,
        },
        None => second,
    }
}

// Keeps a date for a file, where it is greater than the one that is kept.
fn keep_date<'a>(dates: &mut Vec<Option<&'a str>>, file: usize, date: &'a str)
    requires { file < length dates.old.items }
    ensures each { length dates.new.items ≡ length dates.old.items }
    ensures keeps { date_at dates.new.items file
        ≡ Some (later (date_at dates.old.items file) date.now) }
    ensures others { (n : ℕ) → n ≢ file → date_at dates.new.items n ≡ date_at dates.old.items n }
{
    let best = later(dates[file], date);
    dates[file] = Some(best);
}

// Whether it is a statement that gives a date.
fn is_revision(entry: &Entry<'_, '_>) -> bool
    ensures { result ≡ has_word (codes "revision") (row entry.now).head }
{
    entry.is(Keyword::Revision)
}

/// The greatest date of each file's revision statements.
pub(crate) fn greatest_dates<'a>(
    alloc: Global,
    rows: &Rows<'a, '_>,
) -> Result<Vec<Option<&'a str>>, AllocError>
    ensures { IfOk result
        (λ dates. AreGreatest (length (files_in rows.now)) (rows_in rows.now) dates.items) }
{
    roots_come_first();
    let mut dates = Vec::new(alloc);
    for _ in rows.files() {
        dates.push(None)?;
    }
    for entry in rows.entries() {
        if is_revision(entry) {
            let file = entry.file as usize;
            let date = name_of(entry.statement);
            keep_date(&mut dates, file, date);
        }
    }
    Ok(dates)
}

// The number of the file which an import or an include of this number names.
fn dated_file(rows: &Rows<'_, '_>, number: usize) -> Option<usize>
    ensures { result ≡ dated_file (files_in rows.now) (rows_in rows.now) number }
{
    let entry = rows.entries().get(number)?;
    if takes_date(entry) {
        rows.file_named(name_of(entry.statement))
    } else {
        None
    }
}

// Whether it is a statement that may ask for a date.
fn takes_date(entry: &Entry<'_, '_>) -> bool
    ensures { result ≡ takes_date (row entry.now).head }
{
    entry.is(Keyword::Import) || entry.is(Keyword::Include)
}

// Whether this date is kept for a file.
fn is_date(dates: &[Option<&str>], file: usize, date: &str) -> bool
    ensures { result ≡ is_date (date_at dates.now file) date.now }
{
    match dates.get(file) {
        Some(Some(kept)) => *kept == date,
        _ => false,
    }
}

/// Whether a statement is a revision-date that isn't the revision of the file which the import or
/// include round it names, by the dates of the files.
pub(crate) fn is_other_date(
    rows: &Rows<'_, '_>,
    dates: &[Option<&str>],
    entry: &Entry<'_, '_>,
) -> bool
    ensures { result
        ≡ is_other_date (files_in rows.now) (rows_in rows.now) dates.now (row entry.now) }
{
    if !entry.is(Keyword::RevisionDate) {
        return false;
    }
    match dated_file(rows, entry.scope) {
        Some(file) => !is_date(dates, file, name_of(entry.statement)),
        None => false,
    }
}
