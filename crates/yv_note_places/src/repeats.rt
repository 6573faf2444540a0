//! Members of an object that have the name of an earlier one.
ghost use Rattle.std.specs.Prelude.{◌≤◌, All, length, IfOk};
ghost use Rattle.yv_note_places.specs.Place.{IsPlace, IsPlaceOf};

use crate::cursor::Cursor;
use crate::names::Name;
use crate::places::LineColumn;
use crate::tokens::{Container, Lexer, Quotation, Token};
use std::alloc::{AllocError, Global};
use std::collections::BTreeSet;

/// A member of an object that has the name of an earlier one.
#[derive(Drop)]
pub struct RepeatedMember {
    pub name: String,
    pub place: LineColumn,
}

/// The first repeated members of a text, at most so many of them.
pub fn repeated_members(
    alloc: Global,
    text: &[u8],
    most: usize,
) -> Result<Vec<RepeatedMember>, AllocError>
    // There are at most so many.
    ensures most { IfOk result (λ repeats. length repeats.items ≤ most) }
    // The position of each is that of an offset of the text.
    ensures positions { IfOk result
        (λ repeats. All (λ repeat. IsPlace text.now repeat.place) repeats.items) }
{
    let mut repeats = Vec::new(alloc);
    let mut cursor = Cursor::new();
    let mut scan = NameScan::new(alloc);
    let mut lexer = Lexer::new();
    for (offset, byte) in text.iter().enumerate() {
        if repeats.len() >= most {
            break;
        }
        let token = lexer.token(offset, *byte);
        if let Some(quotation) = scan.repeat(alloc, text, token)? {
            let repeat = repeat_of(alloc, text, quotation, &mut cursor)?;
            repeats.push(repeat)?;
        }
    }
    Ok(repeats)
}

// The repeated member whose name a string of a text is, where the cursor goes.
fn repeat_of(
    alloc: Global,
    text: &[u8],
    quotation: Quotation,
    cursor: &mut Cursor,
) -> Result<RepeatedMember, AllocError>
    ensures cursor { IsPlaceOf text.now cursor.old.offset cursor.old.place
        → IsPlaceOf text.now cursor.new.offset cursor.new.place }
    ensures place { IsPlaceOf text.now cursor.old.offset cursor.old.place
        → IfOk result (λ repeat. IsPlace text.now repeat.place) }
{
    let name = Name::read(alloc, text, quotation)?.into_string(alloc)?;
    let place = cursor.place_at(text, quotation.start);
    Ok(RepeatedMember { name, place })
}

// The objects and arrays around the next byte of a text, with the names of the members so far.
#[derive(Drop)]
struct NameScan {
    open: Vec<OpenNames>,
    // Whether the colon was there of the member that the next byte is in.
    has_colon: bool,
}

// The names of the members of an object so far, or none of an array.
#[derive(Drop)]
enum OpenNames {
    Object(BTreeSet<String>),
    Array,
}

impl NameScan {
    fn new(alloc: Global) -> NameScan {
        NameScan {
            open: Vec::new(alloc),
            has_colon: false,
        }
    }

    // The name that a token is, where an earlier member of the object has the same.
    fn repeat(
        &mut self,
        alloc: Global,
        text: &[u8],
        token: Token,
    ) -> Result<Option<Quotation>, AllocError> {
        match token {
            Token::Begin(container) => self.enter(alloc, container)?,
            Token::End => {
                let _ = self.open.pop();
            }
            Token::Text(quotation) if self.is_new(alloc, text, quotation)? => {}
            Token::Text(quotation) => return Ok(Some(quotation)),
            Token::NameSeparator => self.has_colon = true,
            Token::ValueSeparator => self.has_colon = false,
            Token::Scalar | Token::Nothing => {}
        }
        Ok(None)
    }

    fn enter(&mut self, alloc: Global, container: Container) -> Result<(), AllocError> {
        self.has_colon = false;
        self.open.push(match container {
            Container::Object => OpenNames::Object(BTreeSet::new(alloc)),
            Container::Array => OpenNames::Array,
        })?;
        Ok(())
    }

    // Whether a string is no name that an earlier member has. It keeps a name.
    fn is_new(
        &mut self,
        alloc: Global,
        text: &[u8],
        quotation: Quotation,
    ) -> Result<bool, AllocError> {
        match self.open.last_mut() {
            Some(OpenNames::Object(names)) if !self.has_colon => {
                let name = Name::read(alloc, text, quotation)?.into_string(alloc)?;
                Ok(names.insert(name)?)
            }
            _ => Ok(true),
        }
    }
}
