//! The first of all that is wrong with modules.
ghost use Rattle.std.specs.Prelude.{◌≡◌, ◌<◌, ◌||◌, length, map, IfOk};
ghost use Rattle.yv_text_statement.specs.Order.{IsLeast};
ghost use Rattle.yv_link_scopes.specs.{Files.{brief}, Rows.{row}, Tables.{table_of, first_of}, Views.{files_in, rows_in}, declared.kind.NameKind.TheVariants.{Prefix, Include}};
ghost use Rattle.yv_link_modules.specs.{Modules.{BadFile, BadFiles, BadModules, BadRow, BadRows}, InnerDates.{AreGreatest}, InnerImports.{AreLeads}};

use crate::dates::{greatest_dates, is_other_date};
use crate::imports::{import_leads, is_import_cycle};
use crate::links::{is_at, is_missing, is_not_included, is_wrong_link};
use crate::prefixes::is_foreign;
use std::alloc::{AllocError, Global};
use yv_link_scopes::laws::modules_are_files;
use yv_link_scopes::{Entry, File, NameKind, NamePlaces, Rows, first_places};
use yv_text_statement::{Code, Refusal, lesser, refusal_if};

// Whether one of five holds.
fn any(first: bool, second: bool, third: bool, fourth: bool, fifth: bool) -> bool
    ensures { result ≡ (first || (second || (third || (fourth || fifth)))) }
{
    first || second || third || fourth || fifth
}

/// What is known of the statements before they are judged one by one.
#[derive(Drop)]
struct Tables<'r, 'a, 'b> {
    rows: &'r Rows<'a, 'b>,
    prefixes: NamePlaces<'a>,
    includes: NamePlaces<'a>,
    /// The greatest revision of each file.
    dates: Vec<Option<&'a str>>,
    /// For each module those to which it leads by imports.
    leads: Vec<Vec<bool>>,
    ghost prefixes_so: { table_of prefixes ≡ first_of Prefix (rows_in rows.now) },
    ghost includes_so: { table_of includes ≡ first_of Include (rows_in rows.now) },
}

impl<'r, 'a, 'b> Tables<'r, 'a, 'b> {
    fn read(alloc: Global, rows: &'r Rows<'a, 'b>) -> Result<Tables<'r, 'a, 'b>, AllocError>
        ensures rows { IfOk result (λ tables. tables.rows.now ≡ rows.now) }
        ensures dates { IfOk result
            (λ tables. AreGreatest (length (files_in rows.now)) (rows_in rows.now)
            tables.dates.items) }
        ensures leads { IfOk result
            (λ tables. AreLeads (files_in rows.now) (rows_in rows.now) tables.leads.items) }
    {
        let prefixes = first_places(alloc, NameKind::Prefix, rows)?;
        let includes = first_places(alloc, NameKind::Include, rows)?;
        let dates = greatest_dates(alloc, rows)?;
        let leads = import_leads(alloc, rows)?;
        Ok(Tables {
            rows,
            prefixes,
            includes,
            dates,
            leads,
        })
    }

    // What is wrong with a file.
    fn file_refusal(&self, number: u32, file: &File<'a, 'b>) -> Option<Refusal>
        ensures { IsLeast
            (BadFile (files_in self.now.rows.now) (rows_in self.now.rows.now) number
            (brief file.now)) result }
    {
        let place = self.rows.file_named(file.name);
        let first = is_at(number as usize, place);
        let out = is_not_included(self.rows, &self.includes, file);
        let duplicate = refusal_if(!first, Code::DuplicateModule, number, file.root);
        let left = refusal_if(out, Code::Submodule, number, file.root);
        lesser(duplicate, left)
    }

    // What is wrong with a statement.
    fn row_refusal(&self, number: usize, entry: &Entry<'a, 'b>) -> Option<Refusal>
        requires dates { AreGreatest (length (files_in self.now.rows.now))
            (rows_in self.now.rows.now) self.now.dates.items }
        requires leads { AreLeads (files_in self.now.rows.now) (rows_in self.now.rows.now)
            self.now.leads.items }
        ensures { IsLeast
            (BadRow (files_in self.now.rows.now) (rows_in self.now.rows.now) number (row entry.now))
            result }
    {
        modules_are_files();
        let missing = is_missing(self.rows, entry);
        let dated = is_other_date(self.rows, &self.dates, entry);
        let cyclic = is_import_cycle(self.rows, &self.leads, entry);
        let foreign = is_foreign(&self.prefixes, number, entry);
        let wrong = is_wrong_link(self.rows, entry);
        if !any(missing, dated, cyclic, foreign, wrong) {
            return None;
        }
        let absent = refusal_if(missing, Code::MissingModule, entry.file, entry.statement);
        let other = refusal_if(dated, Code::Revision, entry.file, entry.statement);
        let cycle = refusal_if(cyclic, Code::ImportCycle, entry.file, entry.statement);
        let prefixed = refusal_if(foreign, Code::UnknownPrefix, entry.file, entry.statement);
        let linked = refusal_if(wrong, Code::Submodule, entry.file, entry.statement);
        let least = lesser(prefixed, linked);
        let least = lesser(cycle, least);
        let least = lesser(other, least);
        lesser(absent, least)
    }

    // The least that is wrong with a file.
    fn first_file(&self) -> Option<Refusal>
        ensures { IsLeast (BadFiles (files_in self.now.rows.now) (rows_in self.now.rows.now))
            result }
    {
        let mut least = None;
        for (number, file) in self.rows.files().iter().enumerate() {
            let fault = self.file_refusal(number as u32, file);
            least = lesser(least, fault);
        }
        least
    }

    // The least that is wrong with a statement.
    fn first_row(&self) -> Option<Refusal>
        requires dates { AreGreatest (length (files_in self.now.rows.now))
            (rows_in self.now.rows.now) self.now.dates.items }
        requires leads { AreLeads (files_in self.now.rows.now) (rows_in self.now.rows.now)
            self.now.leads.items }
        ensures { IsLeast (BadRows (files_in self.now.rows.now) (rows_in self.now.rows.now))
            result }
    {
        let mut least = None;
        for (number, entry) in self.rows.entries().iter().enumerate() {
            let fault = self.row_refusal(number, entry);
            if fault.is_some() {
                least = lesser(least, fault);
            }
        }
        least
    }
}

/// The least refusal of a module given twice, a file that isn't given, a revision that isn't there,
/// cyclic imports, a prefix that isn't declared or is declared twice, or a submodule that isn't
/// included or is named where it may not be.
pub fn first_bad(alloc: Global, rows: &Rows<'_, '_>) -> Result<Option<Refusal>, AllocError>
    ensures { IfOk result (IsLeast (BadModules (files_in rows.now) (rows_in rows.now))) }
{
    let tables = Tables::read(alloc, rows)?;
    let roots = tables.first_file();
    let others = tables.first_row();
    Ok(lesser(roots, others))
}
