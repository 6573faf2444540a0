//! The statements of texts.
ghost use Rattle.std.specs.{Prelude.{◌≡◌, ◌≢◌, ◌<◌, ◌≤◌, ◌⊎◌, IfOk, OnErr, Err}, List.{AllZip}};
ghost use Rattle.yv_text_statement.specs.{declared.refusal.Refusal.{Refusal as TheRefusal}, declared.refusal.Stop.TheVariants.{Fault, NoMemory, PatternBuild}};
ghost use Rattle.yv_source.specs.{Answer.{IsSpelled}, FileStatements.{in_file}, Texts.{SpellsNone}};

use crate::reader::parse_text;
use crate::text::Text;
use std::alloc::{AllocError, Global};
use yv_text_statement::{Refusal, Statement, Stop};

/// A refusal of one file, reported for the file of this number. Want of memory where 32 bits don't
/// hold the number, and nowhere else.
pub(crate) fn in_file(number: usize, refusal: Refusal) -> Result<Refusal, AllocError>
    ensures value { IfOk result (λ r. r ≡ in_file number refusal) }
    ensures few { IfOk result (λ r. number ≤ 4294967295) }
    ensures many { OnErr result (4294967295 < number) }
{
    if number > 4_294_967_295 {
        return Err(AllocError);
    }
    Ok(Refusal {
        file: number as u32,
        ..refusal
    })
}

/// The statements that texts spell, or the refusal of the first that spells none.
pub(crate) fn parse_all<'a>(alloc: Global, texts: &[Text<'a>]) -> Result<Vec<Statement<'a>>, Stop>
    ensures spells { IfOk result (λ statements. AllZip IsSpelled texts.now statements.items) }
    ensures refuses { (r : TheRefusal) → result ≡ Err (Fault r) → SpellsNone texts.now r }
    ensures never_built { result ≢ Err PatternBuild }
{
    let mut statements = Vec::new(alloc);
    for (number, text) in texts.iter().enumerate() {
        match parse_text(alloc, text.as_str()) {
            Ok(statement) => statements.push(statement)?,
            Err(stop) => return Err(stop_in_file(number, stop)),
        }
    }
    Ok(statements)
}

// A stop of one file, told of the file of this number.
fn stop_in_file(number: usize, stop: Stop) -> Stop
    ensures fault { (r : TheRefusal) → result ≡ Fault r → (q : TheRefusal) × (stop ≡ Fault q)
        × (r ≡ in_file number q) }
    ensures builds { result ≡ PatternBuild → stop ≡ PatternBuild }
    ensures many { result ≡ NoMemory → (stop ≡ NoMemory) ⊎ (4294967295 < number) }
{
    match stop {
        Stop::Fault(refusal) => match in_file(number, refusal) {
            Ok(refusal) => Stop::Fault(refusal),
            Err(_) => Stop::NoMemory,
        },
        Stop::PatternBuild => Stop::PatternBuild,
        Stop::NoMemory => Stop::NoMemory,
    }
}
