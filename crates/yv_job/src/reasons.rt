//! Why words that clap understands ask for no job.
ghost use Rattle.std.specs.Prelude.{◌≡◌, ◌++◌, IfOk, map, option_map, string_bytes};
ghost use Rattle.yv_job.specs.Faults.{own_usage, value_line, files_line};

use std::alloc::{AllocError, Global};

/// What `--max-nodes` takes.
pub const NODES: &str = "a number from 1 to 1000000";

/// What `--kind` takes.
pub const KINDS: &str = "data or config";

/// What `--each` takes.
pub const EACH: &str = "file, line, name or name0";

/// What `--format` takes.
pub const FORMS: &str = "text or json";

/// What `--explain` takes.
pub const EXPLAIN: &str = "a number from 0 to 10000";

/// What `--support` takes.
pub const SUPPORT: &str = "MODULE:FEATURE,FEATURE/MODULE:";

/// What `--import-only` takes.
pub const IMPORTS: &str = "MODULE,MODULE";

/// What `--rules` takes.
pub const RULES: &str = "names of rules joined by commas";

/// What `--depth` takes.
pub const DEPTH: &str = "a number from 1 to 128";

/// What `--below` takes.
pub const BELOW: &str = "/MODULE:NAME/NAME";

/// That there is no command, or not what it needs. clap asks for both, so this is not seen.
pub const COMMAND: &str = "no command was given, or not what it needs\n";

/// That the value of an option is not what the option takes.
pub fn value_line(
    alloc: Global,
    id: &str,
    wanted: &str,
    value: Option<&str>,
) -> Result<String, AllocError>
    ensures { IfOk result (λ line. string_bytes line
        ≡ value_line id.now wanted.now (option_map (λ t. t.now) value.entry)) }
{
    let value = value.unwrap_or("");
    format!(in alloc; "--{id} takes {wanted}, not \"{value}\"\n")
}

/// That there are too many files.
pub fn files_line(alloc: Global, files: Option<&[&str]>) -> Result<String, AllocError>
    ensures { IfOk result (λ line. string_bytes line
        ≡ files_line (option_map (λ s. map (λ t. t.now) s.now) files.entry)) }
{
    let count = match files {
        Some(files) => files.len(),
        None => 0,
    };
    format!(in alloc; "{count} files were given; a command takes 1 to 256\n")
}

/// The text of a usage error with this reason.
pub fn usage(alloc: Global, line: &str) -> Result<String, AllocError>
    ensures { IfOk result (λ text. string_bytes text ≡ own_usage ++ line.now) }
{
    format!(in alloc; "yangcheck: usage\n{line}")
}
