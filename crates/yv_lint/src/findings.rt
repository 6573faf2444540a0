//! The findings in files.
ghost use Rattle.std.specs.{Prelude.{◌≡◌, ◌++◌, map, slice_get, OnOk, IfOk}, List.{All}};
ghost use Rattle.yv_text_statement.specs.{Selection.{selected_of}, Offsets.{IsInOrder}};
ghost use Rattle.yv_lint.specs.{RuleChoice.{asked_in}, Findings.{findings, findings_of}, InnerFiles.{findings_at_number}, Order.{Ascend}};

use crate::definitions::module_name;
use crate::file::{File, Question};
use crate::finding::Finding;
use crate::rules::Rules;
use crate::versions::Versions;
use std::alloc::{AllocError, Global};
use yv_text_statement::{Selection, Statement};

// Adds the findings in a numbered file, if its module is implemented.
fn add_file<'a, 'b>(
    alloc: Global,
    question: &Question<'a, 'b>,
    number: usize,
    path: &str,
    root: &'a Statement<'b>,
    findings: &mut Vec<Finding>,
) -> Result<(), AllocError>
    ensures { OnOk result (findings.new.items ≡ findings.old.items
        ++ findings_of (asked_in question.now.rules.now) (selected_of question.now.selection.now)
        question.now.roots.now number path.now root.now) }
{
    if !question.selection.is_implemented(module_name(root)) {
        return Ok(());
    }
    let file = File::read(alloc, question, number, root)?;
    file.add_all(path, findings)
}

// The same of the file with a number, if it is there.
fn add_number(
    alloc: Global,
    question: &Question<'_, '_>,
    number: usize,
    path: &str,
    findings: &mut Vec<Finding>,
) -> Result<(), AllocError>
    ensures { OnOk result (findings.new.items ≡ findings.old.items
        ++ findings_at_number (asked_in question.now.rules.now)
        (selected_of question.now.selection.now) question.now.roots.now number path.now
        (slice_get question.now.roots.now number)) }
{
    match question.roots.get(number) {
        None => Ok(()),
        Some(root) => add_file(alloc, question, number, path, root, findings),
    }
}

/// The findings in files, by their roots. The paths are those of the first files, as many as were
/// named: only these have findings, and only if their modules are implemented.
///
/// The roots have to be as `yv_source` reads them for the findings to ascend. The time is that of
/// some passes over the statements, with look-ups in ordered sets.
pub fn lint<'a>(
    alloc: Global,
    roots: &'a [Statement<'_>],
    paths: &[&str],
    selection: &'a Selection,
    rules: &'a Rules,
) -> Result<Vec<Finding>, AllocError>
    // The findings of the rules that are asked, in the order of the files and of their texts.
    ensures findings { IfOk result (λ list. list.items ≡ findings (asked_in rules.now)
        (selected_of selection.now) (map (λ path. path.now) paths.now) roots.now) }
    // If the statements of the files are in the order of their texts, each finding comes before all
    // that follow it: by file, then by offset, then by rule.
    ensures ascending { IfOk result (λ list. All IsInOrder roots.now → Ascend list.items) }
{
    let question = Question {
        rules,
        selection,
        roots,
        versions: Versions::read(alloc, roots)?,
    };
    let mut list = Vec::new(alloc);
    for (number, path) in paths.iter().enumerate() {
        add_number(alloc, &question, number, path, &mut list)?;
    }
    Ok(list)
}
