//! Lists of names.
use std::alloc::AllocError;

/// How many names are listed.
const MOST_NAMES: usize = 8;

/// The joint of a list: the word before its last name.
#[derive(Clone, Copy)]
pub enum Joint {
    And,
    Or,
}

impl Joint {
    fn word(self) -> &'static str {
        match self {
            Joint::And => " and ",
            Joint::Or => " or ",
        }
    }
}

/// Adds what separates the name of this place, in a list of so many, from the one before it. Of
/// many names 8 are listed: after those it adds that there are others, and returns false.
pub fn push_between(
    text: &mut String,
    place: usize,
    count: usize,
    joint: Joint,
) -> Result<bool, AllocError> {
    if place >= MOST_NAMES {
        text.push_str(joint.word())?;
        text.push_str("others")?;
        return Ok(false);
    }
    if place > 0 {
        text.push_str(separator(place, count, joint))?;
    }
    Ok(true)
}

// What is between two names, of which the second has this place.
fn separator(place: usize, count: usize, joint: Joint) -> &'static str {
    if place.saturating_add(1) == count {
        joint.word()
    } else {
        ", "
    }
}
