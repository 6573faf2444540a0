//! The lines of what is at a position of a file: of refused modules, and of findings.
ghost use Rattle.std.specs.Prelude.{◌≡◌, ◌++◌, ℕ, List, Option, codes, decimal};
ghost use Rattle.json.specs.Print.{quoted};
ghost use Rattle.yv_base_streams.specs.{Stream.{has_failed, stream_inner}, Pages.{Adds, paged_output}};
ghost use Rattle.yv_json_lines.specs.{InnerPieces.{place_piece, position_piece}, Values.{finding_value, json_line, refusal_value}};

use crate::strings::{put_member, put_quoted};
use std::io::Write;
use yv_base_streams::{Counted, Page};

/// A position in a file: its line and its column from 1, and its offset in bytes from 0.
#[derive(Clone, Copy)]
pub struct Position {
    pub line: u64,
    pub column: u64,
    pub offset: u64,
}

/// Puts the line of modules that were refused at a position of a file, by the name of the refusal.
pub fn put_refusal_line<W: Write>(
    page: &mut Page,
    writer: &mut Counted<W>,
    file: &str,
    position: Position,
    code: &str,
)
    // The line of this value follows what was put before it.
    ensures { Adds
        (json_line
        (refusal_value file.now position.line position.column position.offset code.now))
        (paged_output W.contents writer.old page.old)
        (paged_output W.contents writer.new page.new) }
{
    let head = b"{\"result\":\"refused\",\"file\":";
    put_place_line(page, writer, head, file, position, code);
}

/// Puts the line of a finding at a position of a file, by the name of the rule.
pub fn put_finding_line<W: Write>(
    page: &mut Page,
    writer: &mut Counted<W>,
    file: &str,
    position: Position,
    rule: &str,
)
    // The line of this value follows what was put before it.
    ensures { Adds
        (json_line
        (finding_value file.now position.line position.column position.offset rule.now))
        (paged_output W.contents writer.old page.old)
        (paged_output W.contents writer.new page.new) }
{
    let head = b"{\"result\":\"finding\",\"file\":";
    put_place_line(page, writer, head, file, position, rule);
}

// Puts the line of a name at a position of a file, with this text before the name of the file.
fn put_place_line<W: Write>(
    page: &mut Page,
    writer: &mut Counted<W>,
    head: &[u8],
    file: &str,
    position: Position,
    code: &str,
)
    ensures { Adds
        ((head.now
        ++ place_piece file.now position.line position.column position.offset code.now)
        ++ codes "\n") (paged_output W.contents writer.old page.old)
        (paged_output W.contents writer.new page.new) }
{
    page.put(writer, head);
    put_quoted(page, writer, file.as_bytes());
    put_position(page, writer, position);
    page.put(writer, b",\"code\":");
    put_quoted(page, writer, code.as_bytes());
    page.put(writer, b"}");
    page.put(writer, b"\n");
}

// Puts the members of a position.
fn put_position<W: Write>(page: &mut Page, writer: &mut Counted<W>, position: Position)
    ensures { Adds (position_piece position.line position.column position.offset)
        (paged_output W.contents writer.old page.old)
        (paged_output W.contents writer.new page.new) }
{
    put_member(page, writer, b",\"line\":", position.line);
    put_member(page, writer, b",\"column\":", position.column);
    put_member(page, writer, b",\"offset\":", position.offset);
}
