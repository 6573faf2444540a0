//! Which files give schema nodes, and in which order.
ghost use Rattle.std.specs.Prelude.{◌≡◌, ◌<◌, ◌==◌, ℕ, All, length, slice_get, None, Some, if◌then◌else◌, IfOk};
ghost use Rattle.yv_text_statement.specs.Selection.{selected_of};
ghost use Rattle.yv_link_scopes.specs.{Files.{module_file_at}, Views.{files_in, lent_in}};
ghost use Rattle.yv_expand_statements.specs.FileOrder.{is_given, marks_of, order_of, part_places};

use std::alloc::{AllocError, Global};
use yv_base_tables::Families;
use yv_link_scopes::Rows;
use yv_text_statement::{Keyword, Selection, Statement};

/// A mark for each file that belongs to a module that is implemented.
pub(crate) fn marks(
    alloc: Global,
    rows: &Rows<'_, '_>,
    selection: &Selection,
) -> Result<Vec<bool>, AllocError>
    ensures { IfOk result
        (λ marks. marks.items ≡ marks_of (selected_of selection.now) (lent_in rows.now)) }
{
    let mut marks = Vec::new(alloc);
    for file in rows.files() {
        marks.push(selection.is_implemented(file.module_name))?;
    }
    Ok(marks)
}

// The module's file, of a file that isn't that.
fn part_place(rows: &Rows<'_, '_>, file: usize) -> Option<usize>
    ensures { result
        ≡ (if module_file_at (files_in rows.now) file == file then None
        else Some (module_file_at (files_in rows.now) file)) }
{
    let module_file = rows.module_file(file);
    if module_file == file {
        None
    } else {
        Some(module_file)
    }
}

// For each file that isn't its module's own the module's.
fn part_places(alloc: Global, rows: &Rows<'_, '_>) -> Result<Vec<Option<usize>>, AllocError>
    ensures { IfOk result (λ places. places.items ≡ part_places (lent_in rows.now)) }
{
    let mut places = Vec::new(alloc);
    for file in 0..rows.statements().len() {
        places.push(part_place(rows, file))?;
    }
    Ok(places)
}

// Whether a file is that of a module that is implemented.
fn is_given(selection: &Selection, root: &Statement<'_>) -> bool
    ensures { result ≡ is_given (selected_of selection.now) root.now }
{
    root.is(Keyword::Module) && selection.is_implemented(root.argument().unwrap_or(""))
}

/// The files of the implemented modules in the order of the schema: module by module, the module's
/// own file and then those of its submodules.
pub(crate) fn order(
    alloc: Global,
    rows: &Rows<'_, '_>,
    selection: &Selection,
) -> Result<Vec<usize>, AllocError>
    ensures order { IfOk result
        (λ order. order.items ≡ order_of (selected_of selection.now) (lent_in rows.now)) }
    ensures within { IfOk result
        (λ order. All (λ file. file < length (lent_in rows.now)) order.items) }
    ensures once { IfOk result
        (λ order. (i k n : ℕ) → slice_get order.items i ≡ Some n → slice_get order.items k ≡ Some n
        → i ≡ k) }
{
    yv_base_tables::laws::each_place_has_its_numbers();
    let places = part_places(alloc, rows)?;
    let parts = Families::new(alloc, &places, places.len())?;
    let mut order = Vec::new(alloc);
    for (file, root) in rows.statements().iter().enumerate() {
        if is_given(selection, root) {
            order.push(file)?;
            order.extend_from_slice(parts.at(file))?;
        }
    }
    Ok(order)
}
