//! The lines that say how a compilation, a search for findings or a validation ended.
ghost use Rattle.std.specs.Prelude.{◌≡◌, ◌++◌, ℕ, List, Option, decimal};
ghost use Rattle.yv_base_streams.specs.{Stream.{has_failed, stream_inner}, Pages.{Adds, paged_output}};
ghost use Rattle.yv_json_lines.specs.{InnerPieces.{measures_piece}, Values.{count_value, json_line, linted_value, run_value}};

use crate::strings::put_member;
use std::io::Write;
use yv_base_streams::{Counted, Page};
use yv_schema_tables::Measures;

/// Puts the line of modules that compiled to so many nodes, and what the schema measures, if that
/// is asked for.
pub fn put_count_line<W: Write>(
    page: &mut Page,
    writer: &mut Counted<W>,
    nodes: u64,
    measures: Option<Measures>,
)
    // The line of this value follows what was put before it.
    ensures { Adds (json_line (count_value nodes measures))
        (paged_output W.contents writer.old page.old)
        (paged_output W.contents writer.new page.new) }
{
    put_member(page, writer, b"{\"result\":\"compiled\",\"nodes\":", nodes);
    put_measures(page, writer, measures);
    page.put(writer, b"}");
    page.put(writer, b"\n");
}

// Puts the members of what a schema measures, where there is that.
fn put_measures<W: Write>(page: &mut Page, writer: &mut Counted<W>, measures: Option<Measures>)
    ensures { Adds (measures_piece measures) (paged_output W.contents writer.old page.old)
        (paged_output W.contents writer.new page.new) }
{
    if let Some(measures) = measures {
        put_member(page, writer, b",\"m\":", measures.m);
        put_member(page, writer, b",\"u\":", measures.u);
        put_member(page, writer, b",\"w\":", measures.w);
    }
}

/// Puts the line of modules on which there are so many findings.
pub fn put_linted_line<W: Write>(page: &mut Page, writer: &mut Counted<W>, findings: u64)
    // The line of this value follows what was put before it.
    ensures { Adds (json_line (linted_value findings))
        (paged_output W.contents writer.old page.old)
        (paged_output W.contents writer.new page.new) }
{
    let head = b"{\"result\":\"linted\",\"findings\":";
    put_member(page, writer, head, findings);
    page.put(writer, b"}");
    page.put(writer, b"\n");
}

/// Puts the line of so many documents, of which so many are valid.
pub fn put_run_line<W: Write>(page: &mut Page, writer: &mut Counted<W>, documents: u64, valid: u64)
    // The line of this value follows what was put before it.
    ensures { Adds (json_line (run_value documents valid))
        (paged_output W.contents writer.old page.old)
        (paged_output W.contents writer.new page.new) }
{
    put_member(
        page,
        writer,
        b"{\"result\":\"run\",\"documents\":",
        documents,
    );
    put_member(page, writer, b",\"valid\":", valid);
    page.put(writer, b"}");
    page.put(writer, b"\n");
}
