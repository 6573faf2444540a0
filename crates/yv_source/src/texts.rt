//! The texts of files.
ghost use Rattle.std.specs.{Prelude.{◌≡◌, ◌≢◌, List, map, IfOk, Err}, List.{AllZip}};
ghost use Rattle.yv_text_statement.specs.{declared.refusal.Refusal.{Refusal as TheRefusal}, declared.refusal.Stop.TheVariants.{Fault, PatternBuild}};
ghost use Rattle.yv_base_streams.specs.Files.{File, file_of};
ghost use Rattle.yv_source.specs.{FileStatements.{IsRead, IsUnreadAt}, Texts.{AreTexts}};

use crate::source::legal_text;
use crate::statements::{in_file, parse_all};
use crate::text::Text;
use std::alloc::{AllocError, Global};
use yv_base_streams::Input;
use yv_text_statement::{Refusal, Statement, Stop};

/// The texts of files, up to the first whose bytes are not text. They lie in the files' bytes, and
/// statements borrow from them there.
#[derive(Drop)]
pub struct Texts<'a> {
    pub(crate) texts: Vec<Text<'a>>,
    /// Why the next file's bytes aren't text, where there is such a file.
    pub(crate) bad: Option<Refusal>,
}

impl<'a> Texts<'a> {
    /// The texts of files that were read, up to the first whose bytes are not text. Want of memory
    /// where that isn't among the first 2 to the 32.
    pub fn read(alloc: Global, inputs: &'a [Input]) -> Result<Texts<'a>, AllocError>
        ensures { IfOk result (AreTexts (map file_of inputs.now)) }
    {
        let mut texts = Vec::new(alloc);
        for (number, input) in inputs.iter().enumerate() {
            match legal_text(input.bytes.as_slice()) {
                Ok(text) => texts.push(Text::new(text))?,
                Err(refusal) => {
                    let bad = Some(in_file(number, refusal)?);
                    return Ok(Texts { texts, bad });
                }
            }
        }
        Ok(Texts { texts, bad: None })
    }

    /// The statement that each file spells, or the refusal of the first file that spells none.
    pub fn statements(&self, alloc: Global) -> Result<Vec<Statement<'a>>, Stop>
        // A statement for each file, which its bytes spell.
        ensures reads { (files : List File) → AreTexts files self.now
            → IfOk result (λ statements. AllZip IsRead files statements.items) }
        // A refusal is that of the first file that cannot be read, and gives its number.
        ensures refuses { (files : List File) → AreTexts files self.now → (r : TheRefusal) → result
            ≡ Err (Fault r) → IsUnreadAt files r }
        // `PatternBuild` is never returned.
        ensures never_built { result ≢ Err PatternBuild }
    {
        match parse_all(alloc, &self.texts) {
            Ok(statements) => match self.bad {
                Some(refusal) => Err(Stop::Fault(refusal)),
                None => Ok(statements),
            },
            Err(stop) => Err(stop),
        }
    }
}
