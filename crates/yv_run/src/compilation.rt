//! The schema of files, through the layers below.
ghost use Rattle.std.specs.{Prelude.{◌≡◌, List, map, IfOk, Err}, List.{AllZip}};
ghost use Rattle.yv_text_statement.specs.{declared.refusal.Refusal.{Refusal as TheRefusal}, declared.refusal.Stop.TheVariants.{Fault, PatternBuild}, Selection.{selected_of}};
ghost use Rattle.yv_run.specs.Compiles.{FilesCompile, RefusedAt, HasSchema, HavePattern};
ghost use Rattle.yv_base_streams.specs.Files.{File, file_of};
ghost use Rattle.yv_source.specs.FileStatements.{IsRead};

use std::alloc::Global;
use yv_base_streams::Input;
use yv_schema::{Schema, compile};
use yv_source::Texts;
use yv_text_statement::{Selection, Statement, Stop};

/// The schema of these files, or what is refused first, `TooManyNodes` where they expand to more
/// than the limit. `PatternBuild` says that the library of regular expressions doesn't build a
/// pattern of theirs.
pub fn compile_files(
    alloc: Global,
    inputs: &[Input],
    selection: &Selection,
    limit: u32,
) -> Result<Schema, Stop>
    ensures schema { IfOk result
        (λ s. FilesCompile (selected_of selection.now) limit (map file_of inputs.now)
        (HasSchema s)) }
    ensures refuses { (r : TheRefusal) → result ≡ Err (Fault r)
        → FilesCompile (selected_of selection.now) limit (map file_of inputs.now) (RefusedAt r) }
    ensures builds { result ≡ Err PatternBuild
        → HavePattern (selected_of selection.now) limit (map file_of inputs.now) }
{
    let texts = Texts::read(alloc, inputs)?;
    match texts.statements(alloc) {
        Ok(statements) => compile_statements(alloc, &statements, selection, limit),
        Err(stop) => Err(stop),
    }
}

/// The same of files that were read: of their statements.
pub(crate) fn compile_statements(
    alloc: Global,
    statements: &[Statement<'_>],
    selection: &Selection,
    limit: u32,
) -> Result<Schema, Stop>
    ensures schema { (files : List File) → AllZip IsRead files statements.now
        → IfOk result (λ s. FilesCompile (selected_of selection.now) limit files (HasSchema s)) }
    ensures refuses { (files : List File) → AllZip IsRead files statements.now → (r : TheRefusal)
        → result ≡ Err (Fault r)
        → FilesCompile (selected_of selection.now) limit files (RefusedAt r) }
    ensures builds { (files : List File) → AllZip IsRead files statements.now
        → result ≡ Err PatternBuild → HavePattern (selected_of selection.now) limit files }
{
    compile(alloc, statements, selection, limit)
}
