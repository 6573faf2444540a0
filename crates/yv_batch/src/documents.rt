//! Documents that are fetched one by one.
ghost use Rattle.std.specs.Prelude.{◌≡◌, List, ℕ, Bool, Option, option_map};
ghost use Rattle.yv_batch.specs.{AskedDocument.{AskedDocument, Unread, asked_of, reading_of}, Supply.{IsLost, Takes, is_end}};

use std::alloc::Global;
use yv_base_streams::InputFault;

/// The content of a document, as far as it could be read.
#[derive(Drop)]
pub enum Content {
    /// Its bytes, up to one more than a document may have.
    Read(Vec<u8>),
    /// It can't be opened or read.
    Unread,
    /// There was no memory for it.
    NoRoom,
}

/// A document that was fetched: the number of its line, where it is one of a file's lines, and what
/// is had of it.
#[derive(Drop)]
pub struct Fetched {
    pub line: Option<u64>,
    pub content: Content,
}

/// A supply of documents, in order.
pub trait Documents {
    // Those that are still to come, where they are known.
    ghost left: { Self → Option (List AskedDocument) };

    // The name of the document that was fetched last.
    ghost last_name: { Self → List ℕ };

    // Whether the last call said that there are no more.
    ghost is_over: { Self → Bool };

    /// Fetches the next document: none where there are no more. Want of memory is `NoRoom`, and no
    /// other answer.
    fn next(&mut self, alloc: Global) -> Option<Fetched>
        // It is the first of those that were to come, and the others are still to come.
        ensures fetches { Takes (left self.old) (left self.new)
            (option_map (asked_of (last_name self.new)) result) }
        // The supply is over exactly if there are no more.
        ensures over { is_over self.new ≡ is_end result };

    /// The name of the document that was fetched last.
    fn name(&self) -> &[u8]
        ensures { result.now ≡ last_name self.now };
}

/// What is had of a document that can't be read, by the reason for that.
pub(crate) fn content_of(fault: InputFault) -> Content
    ensures lost { IsLost (reading_of result) }
    ensures unread { fault ≡ InputFault.Read → reading_of result ≡ Unread }
{
    match fault {
        InputFault::Read => Content::Unread,
        InputFault::NoMemory => Content::NoRoom,
    }
}
