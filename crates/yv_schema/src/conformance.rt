//! What is wrong with the statements of each file as such.
ghost use Rattle.std.specs.{Prelude.{◌≡◌, ◌≤◌, length}, Option.{option_map}};
ghost use Rattle.yv_text_statement.specs.Order.{Among, IsLeast};
ghost use Rattle.yv_schema.specs.Refusals.{BadFile, in_file};

use yv_text_grammar::{Xpath, conform};
use yv_text_statement::{Refusal, Statement, lesser};

/// The least refusal of statements that aren't as the tables of the language say.
pub(crate) fn first_bad_file(files: &[Statement<'_>]) -> Option<Refusal>
    requires { length files.now ≤ 4294967296 }
    ensures { IsLeast (Among files.now BadFile (length files.now)) result }
{
    let mut best = None;
    for (number, file) in files.iter().enumerate() {
        let here = bad_file(number as u32, file);
        best = lesser(best, here);
    }
    best
}

// The least refusal in the file of this number.
fn bad_file(number: u32, file: &Statement<'_>) -> Option<Refusal>
    ensures { IsLeast (BadFile number file.now) result }
{
    let own = conform(file, Xpath::Refuse).err();
    told_of(number, own)
}

// A refusal that names the file as 0, told of the file of this number.
fn told_of(number: u32, refusal: Option<Refusal>) -> Option<Refusal>
    ensures { result ≡ option_map (in_file number) refusal }
{
    match refusal {
        Some(own) => Some(Refusal {
            file: number,
            ..own
        }),
        None => None,
    }
}
