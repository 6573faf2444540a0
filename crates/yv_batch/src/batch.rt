//! Documents one after the other, each answered before the next is fetched.
ghost use Rattle.std.specs.{Prelude.{◌≡◌, ◌<◌, ◌-◌, ◌^◌, ◌+◌, ◌↔◌, ◌==◌, cond, max, ℕ, List, Option, true, false, take, IfOk, IfSome, OnErr, OnOk}, Io.KnownBytes.{Appends}};
ghost use Rattle.yv_base_streams.specs.{Stream.{stream_inner, has_failed, FailsOnceAtMost}, Pages.{Adds, paged_output}};
ghost use Rattle.yv_batch.specs.{AskedDocument.{AskedDocument, asked_of, CanRead}, Answers.{Answers}, Batch.{total_line}, InnerBatch.{BeginsAnswer, IsAnswer}, Level.{level_number}};

use crate::documents::{Content, Documents, Fetched};
use crate::level::Level;
use itoa::Buffer;
use std::alloc::{AllocError, Global};
use std::io::Write;
use yv_base_streams::{Counted, Page};

/// An answer to documents: what is written of each, and after all of them.
pub trait Answer {
    // What is written of a document.
    ghost text: { Self → AskedDocument → List ℕ };

    // What is written at the end, by how many documents are valid and how many there are.
    ghost total: { Self → (valid count : ℕ) → List ℕ };

    // How good a document is, from 0 to 3.
    ghost level: { Self → AskedDocument → ℕ };

    /// Writes what is to be written of a document of this name, and answers how good the document
    /// is: `None` if the writer failed. Where memory is refused, nothing is written.
    fn write<W: Write>(
        &mut self,
        alloc: Global,
        name: &[u8],
        document: &Fetched,
        writer: &mut Counted<W>,
    ) -> Result<Option<Level>, AllocError>
        // The writer has not failed.
        requires { has_failed writer.old ≡ false }
        // If a level is returned, it is that of the document.
        ensures level { IfOk result (λ o. IfSome o (λ l.
            level_number l ≡ level self.old (asked_of name.now document.now))) }
        // If a level is returned, the writer has received the document's text, and nothing else.
        ensures ends { IfOk result (λ o. IfSome o (λ _.
            Appends (W.contents (stream_inner writer.old)) (W.contents (stream_inner writer.new))
            (text self.old (asked_of name.now document.now)))) }
        // Unless memory was refused, it has received the first bytes of that text, and nothing
        // else.
        ensures part { OnOk result ((n : ℕ)
            × Appends (W.contents (stream_inner writer.old)) (W.contents (stream_inner writer.new))
            (take n (text self.old (asked_of name.now document.now)))) }
        // If memory was refused, it has received nothing.
        ensures refused { OnErr result (stream_inner writer.new ≡ stream_inner writer.old) }
        // Memory is refused only for a document that could be read.
        ensures room { OnErr result (CanRead document.now.content) }
        // `None` is returned exactly if the writer has failed.
        ensures fault { result ≡ Ok None ↔ (has_failed writer.new ≡ true) }
        // At most one call of the writer failed in a way that is not tolerated, and none came after
        // it.
        ensures once { FailsOnceAtMost writer.new }
        // Later documents are answered as this one.
        ensures same_text { text self.new ≡ text self.old }
        // What is written at the end stays the same.
        ensures same_total { total self.new ≡ total self.old }
        // So do the levels of later documents.
        ensures same_levels { level self.new ≡ level self.old };

    /// Puts what is written at the end, after documents of this tally.
    fn put_total<W: Write>(&self, page: &mut Page, writer: &mut Counted<W>, tally: &Tally)
        // It follows what was put before it.
        ensures { Adds (total self.now tally.now.valid tally.now.count)
            (paged_output W.contents writer.old page.old)
            (paged_output W.contents writer.new page.new) };
}

/// A tally: how many documents were answered, how many of them are valid, and the worst of their
/// levels.
#[derive(Clone, Copy, PartialEq, Eq, Debug)]
pub struct Tally {
    pub count: u64,
    pub valid: u64,
    pub level: Level,
}

impl Tally {
    // No document was answered yet.
    fn new() -> Tally
        ensures count { result.count ≡ 0 }
        ensures valid { result.valid ≡ 0 }
        ensures level { level_number result.level ≡ 0 }
    {
        Tally {
            count: 0,
            valid: 0,
            level: Level::Valid,
        }
    }

    // One more document was answered.
    fn add(&mut self, level: Level)
        requires count { self.old.count < 2 ^ 64 - 1 }
        requires valid { self.old.valid < 2 ^ 64 - 1 }
        ensures count { self.new.count ≡ self.old.count + 1 }
        ensures valid { self.new.valid ≡ self.old.valid + cond (level_number level == 0) 1 0 }
        ensures level { level_number self.new.level
            ≡ max (level_number self.old.level) (level_number level) }
    {
        self.count += 1;
        if level == Level::Valid {
            self.valid += 1;
        }
        self.level = self.level.worse(level);
    }
}

/// How a batch ended.
#[derive(Clone, Copy, PartialEq, Eq, Debug)]
pub enum BatchEnd {
    /// All documents were answered.
    All(Tally),
    /// The writer failed.
    WriteFault,
    /// There are 2^64 - 1 of them or more.
    Endless,
}

/// Answers all documents in order, and then writes what is to be written after them.
pub fn answer_all<D: Documents, A: Answer, W: Write>(
    alloc: Global,
    documents: &mut D,
    answer: &mut A,
    writer: &mut Counted<W>,
) -> BatchEnd
    // The writer has not failed.
    requires { has_failed writer.old ≡ false }
    // All documents were answered in order, and what was written of them and of their number was
    // appended to what the writer held; or the writer failed, and of the last answer or of what is
    // written at the end only the first bytes were; or 2^64 - 1 documents were answered.
    ensures answers { Answers (A.text answer.old) (A.total answer.old) (A.level answer.old) result
        (D.left documents.old) (D.left documents.new) (W.contents (stream_inner writer.old))
        (W.contents (stream_inner writer.new)) }
    // If all were answered, the supply said that there are no more.
    ensures over { (tally : Tally) → result ≡ BatchEnd.All tally
        → D.is_over documents.new ≡ true }
    // `WriteFault` is returned exactly if the writer has failed.
    ensures fault { result ≡ BatchEnd.WriteFault ↔ (has_failed writer.new ≡ true) }
    // At most one call of the writer failed in a way that is not tolerated, and none came after it.
    ensures once { FailsOnceAtMost writer.new }
{
    let mut tally = Tally::new();
    while tally.count < u64::MAX {
        let Some(document) = documents.next(alloc) else {
            return if write_total(answer, writer, &tally) {
                BatchEnd::All(tally)
            } else {
                BatchEnd::WriteFault
            };
        };
        match answer_one(alloc, documents.name(), document, answer, writer) {
            Some(level) => tally.add(level),
            None => return BatchEnd::WriteFault,
        }
    }
    BatchEnd::Endless
}

// Answers a document, or that memory was refused for it.
fn answer_one<A: Answer, W: Write>(
    alloc: Global,
    name: &[u8],
    document: Fetched,
    answer: &mut A,
    writer: &mut Counted<W>,
) -> Option<Level>
    requires { has_failed writer.old ≡ false }
    ensures ends { IfSome result (IsAnswer (A.text answer.old) (A.level answer.old)
        (asked_of name.now document) (W.contents (stream_inner writer.old))
        (W.contents (stream_inner writer.new))) }
    ensures part { BeginsAnswer (A.text answer.old) (asked_of name.now document)
        (W.contents (stream_inner writer.old)) (W.contents (stream_inner writer.new)) }
    ensures fault { result ≡ None ↔ (has_failed writer.new ≡ true) }
    ensures once { FailsOnceAtMost writer.new }
    ensures same_text { A.text answer.new ≡ A.text answer.old }
    ensures same_total { A.total answer.new ≡ A.total answer.old }
    ensures same_levels { A.level answer.new ≡ A.level answer.old }
{
    if let Ok(level) = answer.write(alloc, name, &document, writer) {
        return level;
    }
    let lost = Fetched {
        line: document.line,
        content: Content::NoRoom,
    };
    match answer.write(alloc, name, &lost, writer) {
        Ok(level) => level,
        Err(_) => unreachable!(),
    }
}

// Writes what is written at the end, and answers whether all of it was accepted.
fn write_total<A: Answer, W: Write>(answer: &A, writer: &mut Counted<W>, tally: &Tally) -> bool
    requires { has_failed writer.old ≡ false }
    ensures ends { result ≡ true
        → Appends (W.contents (stream_inner writer.old)) (W.contents (stream_inner writer.new))
        (A.total answer.now tally.now.valid tally.now.count) }
    ensures part { (n : ℕ)
        × Appends (W.contents (stream_inner writer.old)) (W.contents (stream_inner writer.new))
        (take n (A.total answer.now tally.now.valid tally.now.count)) }
    ensures fault { result ≡ false ↔ (has_failed writer.new ≡ true) }
    ensures once { FailsOnceAtMost writer.new }
{
    let mut page = Page::new();
    answer.put_total(&mut page, writer, tally);
    page.turn(writer);
    !writer.has_failed()
}

/// Puts the line of how many documents are valid, for an answer in text.
pub fn put_total_line<W: Write>(page: &mut Page, writer: &mut Counted<W>, tally: &Tally)
    // The line follows what was put before it.
    ensures { Adds (total_line tally.now.valid tally.now.count)
        (paged_output W.contents writer.old page.old)
        (paged_output W.contents writer.new page.new) }
{
    page.put(writer, b"valid: ");
    page.put(writer, Buffer::new().format(tally.valid).as_bytes());
    page.put(writer, b" of ");
    page.put(writer, Buffer::new().format(tally.count).as_bytes());
    page.put(writer, b"\n");
}
