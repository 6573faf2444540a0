//! The text that is most like one that was written.
use yv_note_text::{Likeness, compare};

/// A text that is like one that was written.
#[derive(Clone, Copy)]
pub(crate) struct NearText<'t> {
    pub(crate) text: &'t str,
    likeness: Likeness,
}

impl<'t> NearText<'t> {
    /// A text, where it is like another one that was written, and not the same.
    pub(crate) fn read(written: &str, text: &'t str) -> Option<NearText<'t>> {
        let likeness = compare(written.as_bytes(), text.as_bytes())?;
        if likeness == Likeness::Same {
            None
        } else {
            Some(NearText { text, likeness })
        }
    }

    /// The more alike of two: the first, where both are as much.
    pub(crate) fn nearer(
        first: Option<NearText<'t>>,
        second: Option<NearText<'t>>,
    ) -> Option<NearText<'t>> {
        match (first, second) {
            (Some(one), Some(other)) if other.likeness < one.likeness => Some(other),
            (None, other) => other,
            (one, _) => one,
        }
    }
}
