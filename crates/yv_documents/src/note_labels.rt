//! The note on one of many documents: each of its lines has the document's label in front.
use std::alloc::Global;
use std::io;
use std::io::Write;
use yv_base_streams::{Counted, Page};
use yv_batch::put_label_line;

// Bytes that were written into memory.
#[derive(Drop)]
struct Memory {
    bytes: Vec<u8>,
}

impl Write for Memory {
    fn write(&mut self, buf: &[u8]) -> io::Result<usize> {
        self.bytes.extend_from_slice(buf)?;
        Ok(buf.len())
    }

    fn flush(&mut self) -> io::Result<()> {
        Ok(())
    }
}

/// The lines of a note, each with the label of a document of this name and line, if there is memory
/// for them.
pub(crate) fn label_note(
    alloc: Global,
    name: &[u8],
    line: Option<u64>,
    note: &str,
) -> Option<String> {
    let mut memory = Counted::new(Memory {
        bytes: Vec::new(alloc),
    });
    let mut page = Page::new();
    for text in note.lines() {
        put_label_line(&mut page, &mut memory, name, line, text.as_bytes());
    }
    page.turn(&mut memory);
    if memory.has_failed() {
        return None;
    }
    String::from_utf8(memory.into_inner().bytes).ok()
}
