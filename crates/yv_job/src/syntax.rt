//! The command line's syntax, for clap.
ghost use Rattle.std.specs.Prelude.{◌≡◌, IfOk, false, codes};
ghost use Rattle.clap.specs.{Words.{app_of, rule_of, new_app, with_rule, with_subcommand}, declared.builder.command.Command.TheViews.{out-Command as fields_of}};
ghost use Rattle.yv_job.specs.CommandLine.{option_rule, repeated_rule, required_repeated_rule, flag_rule, files_rule, with_output, with_shared, compile_app, tree_app, validate_app, lint_app, top_app, yangcheck_app};

use crate::help::{self, CommandHelp};
use clap::{Arg, ArgAction, Command};
use std::alloc::{AllocError, Global};

// `--id VALUE`, at most once.
fn option<'a>(alloc: Global, id: &'a str, value: &'a str, help: &'a str) -> Arg<'a>
    ensures rule { rule_of result ≡ option_rule id.entry.now }
    ensures local { result.global ≡ false }
{
    Arg::new(alloc, id)
        .long(id)
        .value_name(value)
        .help(help)
        .action(ArgAction::Set)
}

// `--id VALUE`, any number of times.
fn repeated_option<'a>(alloc: Global, id: &'a str, value: &'a str, help: &'a str) -> Arg<'a>
    ensures rule { rule_of result ≡ repeated_rule id.entry.now }
    ensures local { result.global ≡ false }
{
    option(alloc, id, value, help).action(ArgAction::Append)
}

// `--id VALUE`, once or more.
fn required_repeated_option<'a>(
    alloc: Global,
    id: &'a str,
    value: &'a str,
    help: &'a str,
) -> Arg<'a>
    ensures rule { rule_of result ≡ required_repeated_rule id.entry.now }
    ensures local { result.global ≡ false }
{
    repeated_option(alloc, id, value, help).required(true)
}

// `--id`, at most once.
fn flag<'a>(alloc: Global, id: &'a str, help: &'a str) -> Arg<'a>
    ensures rule { rule_of result ≡ flag_rule id.entry.now }
    ensures local { result.global ≡ false }
{
    Arg::new(alloc, id)
        .long(id)
        .help(help)
        .action(ArgAction::SetTrue)
}

fn files<'a>(alloc: Global) -> Arg<'a>
    ensures rule { rule_of result ≡ files_rule }
    ensures local { result.global ≡ false }
{
    Arg::new(alloc, "file")
        .value_name("FILE")
        .help(help::FILE)
        .num_args(1..)
        .required(true)
}

// A new command with the texts of its help.
fn command<'a>(alloc: Global, name: &'a str, help: &CommandHelp) -> Command<'a>
    ensures app { app_of result ≡ new_app name.entry.now }
    ensures local { (fields_of result).has_globals ≡ false }
{
    Command::new(alloc, name)
        .about(help.about)
        .long_about(help.details)
        .after_help(help.closing)
}

// The command with one more argument, neither of them global.
fn with_arg<'a>(command: Command<'a>, arg: Arg<'a>) -> Result<Command<'a>, AllocError>
    requires command { (fields_of command).has_globals ≡ false }
    requires arg { arg.global ≡ false }
    ensures app { IfOk result (λ c.
        app_of c ≡ with_rule (app_of command.entry) (rule_of arg.entry)) }
    ensures local { IfOk result (λ c. (fields_of c).has_globals ≡ false) }
{
    command.arg(arg)
}

// The command with a subcommand, neither of them with a global argument.
fn with_command<'a>(command: Command<'a>, below: Command<'a>) -> Result<Command<'a>, AllocError>
    requires command { (fields_of command).has_globals ≡ false }
    requires below { (fields_of below).has_globals ≡ false }
    ensures app { IfOk result (λ c.
        app_of c ≡ with_subcommand (app_of command.entry) (app_of below.entry).top) }
    ensures local { IfOk result (λ c. (fields_of c).has_globals ≡ false) }
{
    command.subcommand(below)
}

// The command with what says how results are written.
fn with_output_options<'a>(alloc: Global, command: Command<'a>) -> Result<Command<'a>, AllocError>
    requires { (fields_of command).has_globals ≡ false }
    ensures app { IfOk result (λ c. app_of c ≡ with_output (app_of command.entry)) }
    ensures local { IfOk result (λ c. (fields_of c).has_globals ≡ false) }
{
    let form = option(alloc, "format", "F", help::FORMAT);
    let measures = flag(alloc, "measures", help::MEASURES);
    let formed = with_arg(command, form)?;
    with_arg(formed, measures)
}

// The command with what all commands take.
fn with_shared_options<'a>(alloc: Global, command: Command<'a>) -> Result<Command<'a>, AllocError>
    requires { (fields_of command).has_globals ≡ false }
    ensures app { IfOk result (λ c. app_of c ≡ with_shared (app_of command.entry)) }
    ensures local { IfOk result (λ c. (fields_of c).has_globals ≡ false) }
{
    let nodes = option(alloc, "max-nodes", "N", help::MAX_NODES);
    let support = option(alloc, "support", "S", help::SUPPORT);
    let imports = option(alloc, "import-only", "L", help::IMPORT_ONLY);
    let counted = with_arg(command, nodes)?;
    let supported = with_arg(counted, support)?;
    let folders = repeated_option(alloc, "path", "DIR", help::PATH);
    let chosen = with_arg(supported, imports)?;
    let searched = with_arg(chosen, folders)?;
    with_arg(searched, files(alloc))
}

// A command with nothing but what all commands take.
fn plain_command<'a>(
    alloc: Global,
    name: &'a str,
    help: &CommandHelp,
) -> Result<Command<'a>, AllocError>
    ensures app { IfOk result (λ c. app_of c ≡ with_shared (new_app name.entry.now)) }
    ensures local { IfOk result (λ c. (fields_of c).has_globals ≡ false) }
{
    with_shared_options(alloc, command(alloc, name, help))
}

fn compile<'a>(alloc: Global) -> Result<Command<'a>, AllocError>
    ensures app { IfOk result (λ c. app_of c ≡ compile_app) }
    ensures local { IfOk result (λ c. (fields_of c).has_globals ≡ false) }
{
    let command = command(alloc, "compile", &help::COMPILE);
    let writing = with_output_options(alloc, command)?;
    with_shared_options(alloc, writing)
}

fn tree<'a>(alloc: Global) -> Result<Command<'a>, AllocError>
    ensures app { IfOk result (λ c. app_of c ≡ tree_app) }
    ensures local { IfOk result (λ c. (fields_of c).has_globals ≡ false) }
{
    let command = command(alloc, "tree", &help::TREE);
    let module = repeated_option(alloc, "module", "M", help::MODULE);
    let depth = option(alloc, "depth", "N", help::DEPTH);
    let naming = with_arg(command, module)?;
    let below = option(alloc, "below", "P", help::BELOW);
    let stopping = with_arg(naming, depth)?;
    let choosing = with_arg(stopping, below)?;
    let columns = flag(alloc, "columns", help::COLUMNS);
    let drawing = with_arg(choosing, columns)?;
    with_shared_options(alloc, drawing)
}

fn validate<'a>(alloc: Global) -> Result<Command<'a>, AllocError>
    ensures app { IfOk result (λ c. app_of c ≡ validate_app) }
    ensures local { IfOk result (λ c. (fields_of c).has_globals ≡ false) }
{
    let command = command(alloc, "validate", &help::VALIDATE);
    let data = required_repeated_option(alloc, "data", "F", help::DATA);
    let each = option(alloc, "each", "W", help::EACH);
    let kind = option(alloc, "kind", "K", help::KIND);
    let checking = with_arg(command, data)?;
    let splitting = with_arg(checking, each)?;
    let explain = option(alloc, "explain", "N", help::EXPLAIN);
    let asking = with_arg(splitting, kind)?;
    let explaining = with_arg(asking, explain)?;
    let writing = with_output_options(alloc, explaining)?;
    with_shared_options(alloc, writing)
}

fn lint<'a>(alloc: Global) -> Result<Command<'a>, AllocError>
    ensures app { IfOk result (λ c. app_of c ≡ lint_app) }
    ensures local { IfOk result (λ c. (fields_of c).has_globals ≡ false) }
{
    let command = command(alloc, "lint", &help::LINT);
    let rules = option(alloc, "rules", "NAMES", help::RULES);
    let form = option(alloc, "format", "F", help::FORMAT);
    let choosing = with_arg(command, rules)?;
    let writing = with_arg(choosing, form)?;
    with_shared_options(alloc, writing)
}

// The program with none of its commands.
fn top<'a>(alloc: Global) -> Command<'a>
    ensures app { app_of result ≡ top_app (codes "yangcheck") }
    ensures local { (fields_of result).has_globals ≡ false }
{
    command(alloc, "yangcheck", &help::PROGRAM)
        .version(help::VERSION)
        .subcommand_required(true)
}

/// The program with its commands.
pub fn command_line<'a>(alloc: Global) -> Result<Command<'a>, AllocError>
    ensures { IfOk result (λ c. app_of c ≡ yangcheck_app) }
{
    let one = with_command(top(alloc), compile(alloc)?)?;
    let two = with_command(one, tree(alloc)?)?;
    let three = with_command(two, validate(alloc)?)?;
    let four = with_command(three, lint(alloc)?)?;
    with_command(four, plain_command(alloc, "files", &help::FILES)?)
}
