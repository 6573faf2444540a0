//! Laws about the definitions only. These functions do nothing: the contract of each is the law.
ghost use Rattle.std.specs.Prelude.{◌≡◌, ℕ, Bool, List, flat_map};
ghost use Rattle.yv_text_statement.specs.declared.document_kind.Kind.{Kind};
ghost use Rattle.yv_nodes.specs.Rows.{Rows};
ghost use Rattle.yv_job.specs.Jobs.{Task};
ghost use Rattle.yv_base_streams.specs.Files.{File};
ghost use Rattle.yv_documents.specs.{DocumentLines.{data_lines}, Lines.{ended_line}};
ghost use Rattle.yv_lint.specs.RuleChoice.{RuleChoice};
ghost use Rattle.yv_text_statement.specs.Selection.{ModuleChoice};
ghost use Rattle.yv_run.specs.{Lints.{FilesLint, LintResult}, Output.{Page, IsOutput, data_printed}};

use yv_schema::laws::files_have_one_schema;
use yv_source::laws::{a_bad_file_is_refused_once, a_text_is_spelled_or_refused_once};
use yv_text_statement::laws::order_tells_refusals_apart;

/// A task, files and a document's bytes have one output at most, so that text and status are a
/// function of them.
pub fn a_run_has_one_output()
    ensures { (task : Task) (files : List File) (given : List ℕ) (p q : Page)
        → IsOutput task files given p → IsOutput task files given q → p ≡ q }
{
    a_bad_file_is_refused_once();
    a_text_is_spelled_or_refused_once();
    files_have_one_schema();
    order_tells_refusals_apart();
}

/// Files that are linted come to one thing: a refusal, or these findings. So text and status of a
/// run of `lint` are a function of the files, and of what was asked.
pub fn a_lint_run_has_one_result()
    ensures { (choice : ModuleChoice) (limit : ℕ) (asked : RuleChoice) (named : ℕ)
        (files : List File) (a b : LintResult) → FilesLint choice limit asked named files a
        → FilesLint choice limit asked named files b → a ≡ b }
{
    a_bad_file_is_refused_once();
    a_text_is_spelled_or_refused_once();
    files_have_one_schema();
    order_tells_refusals_apart();
}

/// What a run over one document writes are the lines that a run over many writes of it, each with
/// its line feed: only the labels are new.
pub fn labels_alone_are_new()
    ensures { (measures : Bool) (k : Kind) (s : Rows) (given : List ℕ)
        → flat_map ended_line (data_lines measures k s given)
        ≡ (data_printed measures k s given).text }
{}
