//! A request from the words of a command line.
ghost use Rattle.std.specs.Prelude.{◌≡◌, ◌⊎◌, [], map, string_bytes, IfOk, IfErr};
ghost use Rattle.clap.specs.Words.{fault_of, subcommand_of, subcommand_rows_of, HasKind, kind_of};
ghost use Rattle.yv_job.specs.{Asks.{WordsAsk, AreUnderstood}, CommandLine.{yangcheck_app}, Faults.{IfUsage, OnHelp, AskForNothing, AskForHelp, AreRefused, TellsReason}, Requests.{request_of, NamesFiles, IsLimited}, Matches.{IsFaultFor, IsUsage}};

use crate::hints::push_hint;
use crate::matches::request_of;
use crate::request::{JobFault, Request};
use crate::syntax::command_line;
use clap::error::ErrorKind;
use clap::{ArgMatches, Error};
use std::alloc::Global;

fn match_words<'a>(alloc: Global, words: &'a [String]) -> Result<ArgMatches<'a>, Error>
    ensures ok { IfOk result (λ m. (fault_of yangcheck_app (map string_bytes words.now) ≡ [])
        × (subcommand_rows_of m ≡ subcommand_of yangcheck_app (map string_bytes words.now))) }
    ensures err { IfErr result (HasKind (fault_of yangcheck_app (map string_bytes words.now))) }
{
    let command = command_line(alloc)?;
    command.try_get_matches_from(words)
}

// What clap's error means.
fn job_fault(alloc: Global, error: &Error, words: &[String]) -> JobFault
    ensures { IsFaultFor (kind_of error.now) result }
{
    if error.kind() == ErrorKind::OutOfMemory {
        return JobFault::NoMemory;
    }
    match error.to_string(alloc) {
        Ok(text) if error.use_stderr() => with_hint(alloc, text, words),
        Ok(text) => JobFault::Help(text),
        Err(_) => JobFault::NoMemory,
    }
}

// A usage error of these words, whose text may end with a hint.
fn with_hint(alloc: Global, text: String, words: &[String]) -> JobFault
    ensures { IsUsage result }
{
    let mut hinted = text;
    match push_hint(alloc, &mut hinted, words) {
        Ok(()) => JobFault::Usage(hinted),
        Err(_) => JobFault::NoMemory,
    }
}

/// The request that the words make. The first word is the program's name.
pub fn read_request(alloc: Global, words: &[String]) -> Result<Request, JobFault>
    // The words ask for this: the action with all that it needs, folders and files in order,
    // limit, selection, kind.
    ensures request { IfOk result (λ r. WordsAsk (map string_bytes words.now) (request_of r)) }
    // It names 1 to 256 files.
    ensures files { IfOk result NamesFiles }
    // Its limit is within 1 to 1,000,000.
    ensures limit { IfOk result IsLimited }
    // After a usage error the words ask for no request.
    ensures usage { IfErr result (λ f. IfUsage f (λ _.
        AskForNothing (map string_bytes words.now))) }
    // The text of a usage error gives the reason, where the words are understood as options.
    ensures own_text { IfErr result (λ f. IfUsage f (λ text.
        AreUnderstood (map string_bytes words.now)
        → TellsReason (subcommand_of yangcheck_app (map string_bytes words.now)) text)) }
    // A usage error is not what is answered to a request for help.
    ensures not_help { IfErr result (λ f. IfUsage f (λ _.
        AreUnderstood (map string_bytes words.now) ⊎ AreRefused (map string_bytes words.now))) }
    // Help is answered only to words that ask for it.
    ensures help { IfErr result (λ f. OnHelp f (AskForHelp (map string_bytes words.now))) }
{
    match match_words(alloc, words) {
        Ok(matches) => match request_of(alloc, &matches)? {
            Ok(request) => Ok(request),
            Err(text) => Err(JobFault::Usage(text)),
        },
        Err(error) => Err(job_fault(alloc, &error, words)),
    }
}
