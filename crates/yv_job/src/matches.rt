//! A request from what clap matched.
ghost use Rattle.std.specs.Prelude.{◌≡◌, ◌≤◌, ℕ, List, length, IfSome, IfOk, IfErr, MatchOption, [], codes, map, option_map, string_bytes};
ghost use Rattle.std.specs.Option.{unwrap_or};
ghost use Rattle.clap.specs.Words.{subcommand_rows_of, found_of, rows_of, all_of, first_of};
ghost use Rattle.yv_job.specs.{Asks.{AsksIn, Asks, IsChoice, IsAsked, IsEachFor, IsFiles, IsFlag, IsFormFor, IsOutput, IsRulesFor, IsTree}, Requests.{ActionAsked, request_of, action_of, rules_of, NamesFiles, IsLimited}, Faults.{IsReason, TellsReason}, Matches.{AsksForNothing, IsReport}};
ghost use Rattle.yv_lint.specs.declared.rule.Rule.{Rule as TheRule};
ghost use Rattle.yv_text_statement.specs.Selection.{ModuleChoice, selected_of};
ghost use Rattle.yv_tree_drawing.specs.Trees.{TreeAsked};
ghost use Rattle.yv_job.specs.declared.{job.OutputOptions.{OutputOptions as TheOutput}, matches.ReportOptions.{ReportOptions as TheReport}};

use crate::job::{Command, OutputForm, OutputOptions};
use crate::names::copy_texts;
use crate::options::{
    below_value, depth_value, each_value, explain_value, form_value, imports_value, kind_value,
    limit_of, rules_value, support_value,
};
use crate::reasons::{
    BELOW, COMMAND, DEPTH, EACH, EXPLAIN, FORMS, IMPORTS, KINDS, NODES, RULES, SUPPORT, files_line,
    usage, value_line,
};
use crate::request::{Action, Each, Request};
use clap::ArgMatches;
use std::alloc::{AllocError, Global};
use yv_lint::Rules;
use yv_text_statement::{Kind, Selection};
use yv_tree_drawing::{Drawing, TreeOptions};

const MOST_FILES: usize = 256;

// The first value of an argument.
fn first<'a>(matches: &ArgMatches<'a>, id: &str) -> Option<&'a str>
    ensures { option_map (λ t. t.now) result ≡ first_of id.now (rows_of (found_of matches.now)) }
{
    matches.get_str(id)
}

// All values of an argument.
fn all<'m, 'a>(matches: &'m ArgMatches<'a>, id: &str) -> Option<&'m [&'a str]>
    ensures { option_map (λ s. map (λ t. t.now) s.now) result
        ≡ all_of id.now (rows_of (found_of matches.now)) }
{
    matches.get_strs(id)
}

// What is to be checked: the one document, or all documents of sources.
fn check_of(
    alloc: Global,
    below: &ArgMatches<'_>,
    each: Option<Each>,
    form: OutputForm,
) -> Result<Option<Action>, AllocError>
    ensures { let rows = rows_of (found_of below.now) in
        IfOk result
        (λ o. MatchOption o ((a : ActionAsked) → IsAsked (codes "validate") rows each form a → ⊥)
        (λ a. IsAsked (codes "validate") rows each form (action_of a))) }
{
    match all(below, "data") {
        None | Some([]) => Ok(None),
        Some([file]) if each.is_none() && form == OutputForm::Text => {
            let name = String::from_str(alloc, file)?;
            Ok(Some(Action::Run(Command::Validate(name))))
        }
        Some(sources) => Ok(Some(Action::ValidateAll(copy_texts(alloc, sources)?))),
    }
}

// All values of an argument, in memory of their own: none where it was not given.
fn texts_of(alloc: Global, below: &ArgMatches<'_>, id: &str) -> Result<Vec<String>, AllocError>
    ensures { let rows = rows_of (found_of below.now) in
        IfOk result (λ v. unwrap_or (all_of id.now rows) [] ≡ map string_bytes v.items) }
{
    match all(below, id) {
        Some(texts) => copy_texts(alloc, texts),
        None => Ok(Vec::new(alloc)),
    }
}

// How many values an argument has.
fn text_count(below: &ArgMatches<'_>, id: &str) -> usize
    ensures { let rows = rows_of (found_of below.now) in
        length (unwrap_or (all_of id.now rows) []) ≡ result }
{
    match all(below, id) {
        Some(texts) => texts.len(),
        None => 0,
    }
}

// Whether a flag was given.
fn has_flag(matches: &ArgMatches<'_>, id: &str) -> bool
    ensures { IsFlag (first_of id.now (rows_of (found_of matches.now))) result }
{
    match first(matches, id) {
        Some(text) => text == "true",
        None => false,
    }
}

// The rules whose findings are to be listed, or the line about what names no rules.
fn rules_of(alloc: Global, below: &ArgMatches<'_>) -> Result<Result<Rules, String>, AllocError>
    ensures rules { let rows = rows_of (found_of below.now) in
        IfOk result (λ r. IfOk r (λ rules.
        IsRulesFor (first_of (codes "rules") rows) (rules_of rules))) }
    ensures nothing { let rows = rows_of (found_of below.now) in
        IfOk result (λ r. IfErr r (λ _. (rules : List TheRule)
        → IsRulesFor (first_of (codes "rules") rows) rules → ⊥)) }
    ensures reason { let rows = rows_of (found_of below.now) in
        IfOk result
        (λ r. IfErr r (λ line. (name : List ℕ) → IsReason name rows (string_bytes line))) }
{
    let names = first(below, "rules");
    let Some(rules) = rules_value(names) else {
        return Ok(Err(value_line(alloc, "rules", RULES, names)?));
    };
    Ok(Ok(rules))
}

// Which tree diagrams are to be drawn and how, or the line about the option that is wrong.
fn tree_of(alloc: Global, below: &ArgMatches<'_>) -> Result<Result<TreeOptions, String>, AllocError>
    ensures tree { let rows = rows_of (found_of below.now) in
        IfOk result (λ r. IfOk r (λ t. IsTree rows t)) }
    ensures nothing { let rows = rows_of (found_of below.now) in
        IfOk result (λ r. IfErr r (λ _. (t : TreeAsked) → IsTree rows t → ⊥)) }
    ensures reason { let rows = rows_of (found_of below.now) in
        IfOk result
        (λ r. IfErr r (λ line. (name : List ℕ) → IsReason name rows (string_bytes line))) }
{
    let number = first(below, "depth");
    let Some(depth) = depth_value(number) else {
        return Ok(Err(value_line(alloc, "depth", DEPTH, number)?));
    };
    let way = first(below, "below");
    let Some(steps) = below_value(alloc, way)? else {
        return Ok(Err(value_line(alloc, "below", BELOW, way)?));
    };
    let modules = texts_of(alloc, below, "module")?;
    Ok(Ok(TreeOptions {
        modules,
        named_files: text_count(below, "file"),
        drawing: Drawing {
            depth,
            below: steps,
            columns: has_flag(below, "columns"),
        },
    }))
}

// The action that the command of this name asks for, or the line about what is wrong, after what
// was read of `--each` and `--format`.
fn action_of(
    alloc: Global,
    name: &str,
    below: &ArgMatches<'_>,
    each: Option<Each>,
    form: OutputForm,
) -> Result<Result<Action, String>, AllocError>
    requires each { IsEachFor (first_of (codes "each") (rows_of (found_of below.now))) each }
    requires form { IsFormFor (first_of (codes "format") (rows_of (found_of below.now))) form }
    ensures action { let rows = rows_of (found_of below.now) in
        IfOk result (λ r. IfOk r (λ a. IsAsked name.now rows each form (action_of a))) }
    ensures nothing { let rows = rows_of (found_of below.now) in
        IfOk result
        (λ r. IfErr r (λ _. (a : ActionAsked) → IsAsked name.now rows each form a → ⊥)) }
    ensures reason { let rows = rows_of (found_of below.now) in
        IfOk result (λ r. IfErr r (λ line. IsReason name.now rows (string_bytes line))) }
{
    if name == "compile" {
        return Ok(Ok(Action::Run(Command::Compile)));
    }
    if name == "files" {
        return Ok(Ok(Action::Files));
    }
    if name == "lint" {
        return match rules_of(alloc, below)? {
            Ok(rules) => Ok(Ok(Action::Lint(rules))),
            Err(line) => Ok(Err(line)),
        };
    }
    if name == "tree" {
        return match tree_of(alloc, below)? {
            Ok(tree) => Ok(Ok(Action::Run(Command::Tree(tree)))),
            Err(line) => Ok(Err(line)),
        };
    }
    if name == "validate" {
        return match check_of(alloc, below, each, form)? {
            Some(check) => Ok(Ok(check)),
            None => Ok(Err(String::from_str(alloc, COMMAND)?)),
        };
    }
    Ok(Err(String::from_str(alloc, COMMAND)?))
}

// What standard output is to be like, or the line about the option that is wrong.
fn output_of(
    alloc: Global,
    below: &ArgMatches<'_>,
) -> Result<Result<OutputOptions, String>, AllocError>
    ensures output { let rows = rows_of (found_of below.now) in
        IfOk result (λ r. IfOk r (λ o. IsOutput rows o)) }
    ensures nothing { let rows = rows_of (found_of below.now) in
        IfOk result (λ r. IfErr r (λ _. (o : TheOutput) → IsOutput rows o → ⊥)) }
    ensures reason { let rows = rows_of (found_of below.now) in
        IfOk result
        (λ r. IfErr r (λ line. (name : List ℕ) → IsReason name rows (string_bytes line))) }
{
    let word = first(below, "format");
    let Some(form) = form_value(word) else {
        return Ok(Err(value_line(alloc, "format", FORMS, word)?));
    };
    let measures = has_flag(below, "measures");
    Ok(Ok(OutputOptions { form, measures }))
}

/// What documents are checked as, and what is reported of them.
#[derive(Clone, Copy)]
struct ReportOptions {
    kind: Kind,
    each: Option<Each>,
    output: OutputOptions,
    explain: u32,
}

// What the options ask for about documents, or the line about the one that is wrong.
fn report_of(
    alloc: Global,
    below: &ArgMatches<'_>,
) -> Result<Result<ReportOptions, String>, AllocError>
    ensures report { let rows = rows_of (found_of below.now) in
        IfOk result (λ r. IfOk r (λ o. IsReport rows o)) }
    ensures nothing { let rows = rows_of (found_of below.now) in
        IfOk result (λ r. IfErr r (λ _. (o : TheReport) → IsReport rows o → ⊥)) }
    ensures reason { let rows = rows_of (found_of below.now) in
        IfOk result
        (λ r. IfErr r (λ line. (name : List ℕ) → IsReason name rows (string_bytes line))) }
{
    let word = first(below, "kind");
    let Some(kind) = kind_value(word) else {
        return Ok(Err(value_line(alloc, "kind", KINDS, word)?));
    };
    let word = first(below, "each");
    let Some(each) = each_value(word) else {
        return Ok(Err(value_line(alloc, "each", EACH, word)?));
    };
    let output = match output_of(alloc, below)? {
        Ok(output) => output,
        Err(line) => return Ok(Err(line)),
    };
    let number = first(below, "explain");
    let Some(explain) = explain_value(number) else {
        return Ok(Err(value_line(alloc, "explain", EXPLAIN, number)?));
    };
    Ok(Ok(ReportOptions {
        kind,
        each,
        output,
        explain,
    }))
}

fn files_of(alloc: Global, below: &ArgMatches<'_>) -> Result<Option<Vec<String>>, AllocError>
    ensures files { let rows = rows_of (found_of below.now) in
        IfOk result (λ o. MatchOption o ((fs : List (List ℕ)) → IsFiles rows fs → ⊥)
        (λ v. IsFiles rows (map string_bytes v.items))) }
    ensures bounds { IfOk result (λ o. IfSome o (λ v.
        (1 ≤ length v.items) × (length v.items ≤ 256))) }
{
    match all(below, "file") {
        Some(files) if !files.is_empty() && files.len() <= MOST_FILES => {
            Ok(Some(copy_texts(alloc, files)?))
        }
        _ => Ok(None),
    }
}

// The selection that the options ask for, or the line about the one that is wrong.
fn selection_of(
    alloc: Global,
    below: &ArgMatches<'_>,
) -> Result<Result<Selection, String>, AllocError>
    ensures choice { let rows = rows_of (found_of below.now) in
        IfOk result (λ r. IfOk r (λ s. IsChoice rows (selected_of s))) }
    ensures nothing { let rows = rows_of (found_of below.now) in
        IfOk result (λ r. IfErr r (λ _. (c : ModuleChoice) → IsChoice rows c → ⊥)) }
    ensures reason { let rows = rows_of (found_of below.now) in
        IfOk result
        (λ r. IfErr r (λ line. (name : List ℕ) → IsReason name rows (string_bytes line))) }
{
    let written = first(below, "support");
    let Some(support) = support_value(alloc, written)? else {
        return Ok(Err(value_line(alloc, "support", SUPPORT, written)?));
    };
    let names = first(below, "import-only");
    let Some(import_only) = imports_value(alloc, names)? else {
        return Ok(Err(value_line(alloc, "import-only", IMPORTS, names)?));
    };
    Ok(Ok(Selection {
        support,
        import_only,
    }))
}

// The request of the command of this name, or a line about what is wrong.
fn request_of_command(
    alloc: Global,
    name: &str,
    below: &ArgMatches<'_>,
) -> Result<Result<Request, String>, AllocError>
    ensures request { let rows = rows_of (found_of below.now) in
        IfOk result (λ r. IfOk r (λ w. Asks name.now rows (request_of w))) }
    ensures nothing { let rows = rows_of (found_of below.now) in
        IfOk result (λ r. IfErr r (λ _. AsksForNothing (Some (name.now, rows)))) }
    ensures reason { let rows = rows_of (found_of below.now) in
        IfOk result (λ r. IfErr r (λ line. IsReason name.now rows (string_bytes line))) }
    ensures files { IfOk result (λ r. IfOk r NamesFiles) }
    ensures limit { IfOk result (λ r. IfOk r IsLimited) }
{
    let nodes = first(below, "max-nodes");
    let Some(limit) = limit_of(nodes) else {
        return Ok(Err(value_line(alloc, "max-nodes", NODES, nodes)?));
    };
    let selection = match selection_of(alloc, below)? {
        Ok(selection) => selection,
        Err(line) => return Ok(Err(line)),
    };
    let ReportOptions {
        kind,
        each,
        output,
        explain,
    } = match report_of(alloc, below)? {
        Ok(report) => report,
        Err(line) => return Ok(Err(line)),
    };
    let action = match action_of(alloc, name, below, each, output.form)? {
        Ok(action) => action,
        Err(line) => return Ok(Err(line)),
    };
    let Some(files) = files_of(alloc, below)? else {
        return Ok(Err(files_line(alloc, all(below, "file"))?));
    };
    let folders = texts_of(alloc, below, "path")?;
    Ok(Ok(Request {
        action,
        limit,
        selection,
        kind,
        explain,
        each,
        output,
        folders,
        files,
    }))
}

/// The request that the matches make, or the text of a usage error.
pub fn request_of(
    alloc: Global,
    matches: &ArgMatches<'_>,
) -> Result<Result<Request, String>, AllocError>
    ensures request { let found = subcommand_rows_of matches.now in
        IfOk result (λ r. IfOk r (λ w. AsksIn found (request_of w))) }
    ensures nothing { let found = subcommand_rows_of matches.now in
        IfOk result (λ r. IfErr r (λ _. AsksForNothing found)) }
    ensures reason { let found = subcommand_rows_of matches.now in
        IfOk result (λ r. IfErr r (λ text. TellsReason found (string_bytes text))) }
    ensures files { IfOk result (λ r. IfOk r NamesFiles) }
    ensures limit { IfOk result (λ r. IfOk r IsLimited) }
{
    match matches.subcommand() {
        Some((name, below)) => match request_of_command(alloc, name, below)? {
            Ok(request) => Ok(Ok(request)),
            Err(line) => Ok(Err(usage(alloc, line.as_str())?)),
        },
        None => Ok(Err(usage(alloc, COMMAND)?)),
    }
}
