//! Linking files.
ghost use Rattle.std.specs.Prelude.{◌≡◌, ◌≢◌, ◌<◌, length, map, IfOk, OnOk, Some, None, Err};
ghost use Rattle.yv_text_statement.specs.{declared.refusal.Refusal.{Refusal}, declared.refusal.Stop.TheVariants.{Fault, NoMemory, PatternBuild}, Order.{IsLeast}, Selection.{selected_of}};
ghost use Rattle.yv_link_scopes.specs.{Files.{brief_of}, RowList.{rows_of}, Views.{lent_in}};
ghost use Rattle.yv_link_modules.specs.Modules.{BadModules};
ghost use Rattle.yv_link.specs.{LinkedFiles.{AreLinked}, Links.{BadLinks}};

use crate::linked_files::Linked;
use crate::modules::read_modules;
use std::alloc::Global;
use yv_link_features::Features;
use yv_link_identities::identities;
use yv_link_modules::first_bad;
use yv_link_scopes::Rows;
use yv_text_statement::{Selection, Statement, Stop};

// The statements of the files, or the least refusal of their modules.
fn read_rows<'a, 'b>(alloc: Global, files: &'a [Statement<'b>]) -> Result<Rows<'a, 'b>, Stop>
    ensures lends { IfOk result (λ rows. lent_in rows ≡ files.now) }
    ensures clear { OnOk result
        (IsLeast (BadModules (map brief_of files.now) (rows_of files.now)) None) }
    ensures refusal { (r : Refusal) → result ≡ Err (Fault r)
        → IsLeast (BadModules (map brief_of files.now) (rows_of files.now)) (Some r) }
    ensures builds { result ≢ Err PatternBuild }
    ensures many { 4294967293 < length (rows_of files.now) → result ≡ Err NoMemory }
{
    let rows = Rows::read(alloc, files)?;
    if let Some(refusal) = first_bad(alloc, &rows)? {
        return Err(Stop::Fault(refusal));
    }
    Ok(rows)
}

// The files of which nothing is wrong with modules, or the least refusal of their features and
// identities.
fn linked_rows<'a, 'b>(
    alloc: Global,
    rows: Rows<'a, 'b>,
    selection: &Selection,
) -> Result<Linked<'a, 'b>, Stop>
    requires { IsLeast (BadModules (map brief_of (lent_in rows)) (rows_of (lent_in rows))) None }
    ensures links { IfOk result (AreLinked (lent_in rows.entry) (selected_of selection.now)) }
    ensures clear { OnOk result (IsLeast (BadLinks (lent_in rows.entry)) None) }
    ensures refusal { (r : Refusal) → result ≡ Err (Fault r)
        → IsLeast (BadLinks (lent_in rows.entry)) (Some r) }
    ensures builds { result ≢ Err PatternBuild }
{
    let modules = read_modules(alloc, &rows, selection)?;
    let features = match Features::read(alloc, &rows, selection) {
        Ok(features) => features,
        Err(stop) => return Err(stop),
    };
    let identities = match identities(alloc, &rows) {
        Ok(identities) => identities,
        Err(stop) => return Err(stop),
    };
    Ok(Linked {
        rows,
        modules,
        features,
        identities,
    })
}

/// The files as a whole, or the least refusal of their modules, features and identities by phase,
/// file, offset and code. Statements that the tables of the language don't allow are not refused
/// here. More than 2^32 - 3 statements are answered as if memory ran out.
pub fn link<'a, 'b>(
    alloc: Global,
    files: &'a [Statement<'b>],
    selection: &Selection,
) -> Result<Linked<'a, 'b>, Stop>
    // They are these files under this selection.
    ensures links { IfOk result (AreLinked files.now (selected_of selection.now)) }
    // Linked files are returned only if nothing is refused.
    ensures clear { OnOk result (IsLeast (BadLinks files.now) None) }
    // A refusal is the least that applies to the modules, the features and the identities.
    ensures refusal { (r : Refusal) → result ≡ Err (Fault r)
        → IsLeast (BadLinks files.now) (Some r) }
    // `PatternBuild` is never returned.
    ensures builds { result ≢ Err PatternBuild }
    // More than 2^32 - 3 statements are answered with `NoMemory`.
    ensures many { 4294967293 < length (rows_of files.now) → result ≡ Err NoMemory }
{
    match read_rows(alloc, files) {
        Ok(rows) => linked_rows(alloc, rows, selection),
        Err(stop) => Err(stop),
    }
}
