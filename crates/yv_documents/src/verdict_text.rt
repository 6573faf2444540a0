//! What is said of a document that was validated, as text without labels.
ghost use Rattle.std.specs.{Prelude.{◌≡◌, ◌↔◌, ◌++◌, ℕ, true, false, option_map, take}, Io.KnownBytes.{Appends}};
ghost use Rattle.yv_base_streams.specs.{Stream.{has_failed, stream_inner, FailsOnceAtMost}, Pages.{Adds, paged_output}};
ghost use Rattle.yv_documents.specs.VerdictText.{checked_text, with_end};

use crate::lines::{put_count, put_lines};
use std::io::Write;
use yv_base_streams::{Counted, Page};
use yv_validate::Fault;

/// Writes that a document is valid, or the lines of its faults and how many they are, and then a
/// text where there is one, and answers whether all was taken. It takes no memory, however much
/// text that is.
pub fn write_checked<W: Write>(writer: &mut Counted<W>, faults: &[Fault], end: Option<&str>) -> bool
    // The writer has not failed.
    requires { has_failed writer.old ≡ false }
    // If true is returned, the writer has received what is said of the faults and the text after
    // it, and nothing else.
    ensures ends { result ≡ true
        → Appends (W.contents (stream_inner writer.old)) (W.contents (stream_inner writer.new))
        (with_end (checked_text faults.now) (option_map (λ t. t.now) end.entry)) }
    // In any case it has received the first bytes of that, and nothing else.
    ensures part { (n : ℕ)
        × Appends (W.contents (stream_inner writer.old)) (W.contents (stream_inner writer.new))
        (take n (with_end (checked_text faults.now) (option_map (λ t. t.now) end.entry))) }
    // False is returned exactly if the writer has failed.
    ensures fault { result ≡ false ↔ (has_failed writer.new ≡ true) }
    // At most one call of the writer failed in a way that is not tolerated, and none came after it.
    ensures once { FailsOnceAtMost writer.new }
{
    let mut page = Page::new();
    put_with_end(&mut page, writer, faults, end);
    page.turn(writer);
    !writer.has_failed()
}

// Puts it on a page.
fn put_with_end<W: Write>(
    page: &mut Page,
    writer: &mut Counted<W>,
    faults: &[Fault],
    end: Option<&str>,
)
    ensures { Adds (with_end (checked_text faults.now) (option_map (λ t. t.now) end.entry))
        (paged_output W.contents writer.old page.old)
        (paged_output W.contents writer.new page.new) }
{
    put_checked(page, writer, faults);
    if let Some(text) = end {
        page.put(writer, text.as_bytes());
    }
}

// Puts what is said of the faults.
fn put_checked<W: Write>(page: &mut Page, writer: &mut Counted<W>, faults: &[Fault])
    ensures { Adds (checked_text faults.now)
        (paged_output W.contents writer.old page.old)
        (paged_output W.contents writer.new page.new) }
{
    if faults.is_empty() {
        page.put(writer, b"valid\n");
    } else {
        put_lines(page, writer, faults);
        put_count(page, writer, faults.len() as u64);
    }
}
