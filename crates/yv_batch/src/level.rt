//! How good a document is.
ghost use Rattle.std.specs.Prelude.{◌≡◌, max};
ghost use Rattle.yv_batch.specs.Level.{level_number};

/// The level of a document: how good it is.
#[derive(Clone, Copy, PartialEq, Eq, Debug)]
pub enum Level {
    /// It is valid.
    Valid,
    /// It has faults.
    Faulty,
    /// It is too large, or not JSON.
    BadInput,
    /// It could not be read, or there was no memory for it.
    Unread,
}

impl Level {
    // The worse of two levels.
    pub(crate) fn worse(self, other: Level) -> Level
        ensures { level_number result ≡ max (level_number self) (level_number other) }
    {
        if (self as u8) < (other as u8) {
            other
        } else {
            self
        }
    }
}
