//! The name that is most like one that was written.
use yv_note_text::{Likeness, compare};

/// A name, and how it is like the one that was written.
pub(crate) type Near<'a> = (&'a str, Likeness);

/// The nearest of the names that were met, when this name is met too: the first, if several are
/// equally like the one that was written.
pub(crate) fn nearer<'a>(
    written: &str,
    nearest: Option<Near<'a>>,
    name: &'a str,
) -> Option<Near<'a>> {
    let Some(likeness) = compare(written.as_bytes(), name.as_bytes()) else {
        return nearest;
    };
    match nearest {
        Some((one, before)) if before <= likeness => Some((one, before)),
        _ => Some((name, likeness)),
    }
}
