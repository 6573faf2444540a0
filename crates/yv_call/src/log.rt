//! A text that only clauses read. It takes no memory, and its methods do nothing when they run.
ghost use Rattle.std.specs.Prelude.{◌≡◌, ℕ, List, [], ◌++◌};
ghost use Rattle.std.specs.Borrow.{ftrue};

use std::marker::{Model, PhantomData};

/// The bytes that were written so far, as clauses see them.
#[derive(Drop)]
pub(crate) struct Log {
    marker: PhantomData<u8>,
    pub(crate) ghost bytes: { List ℕ },
}

impl Model for Log {
    ghost also_owns = { λ _. ftrue };
}

impl Log {
    // No bytes yet.
    pub(crate) fn new() -> Log
        ensures { result.bytes ≡ [] }
    {
        Log {
            marker: PhantomData,
        }
    }

    // These bytes after the others.
    pub(crate) fn add(&mut self, _bytes: &[u8])
        ensures { self.new.bytes ≡ self.old.bytes ++ _bytes.now }
    {}
}
