//! The steps of paths inside of JSON strings, as paths or as pointers spell them.
ghost use Rattle.std.specs.Prelude.{◌++◌, ◌∷◌, [], ℕ, List, Option, codes, option_map};
ghost use Rattle.json.specs.Print.{escape as json_escape};
ghost use Rattle.yv_nodes.specs.Member.{behind};
ghost use Rattle.yv_data_leafrefs.specs.Place.{member_text};
ghost use Rattle.yv_data_faults.specs.Part.{part_of};
ghost use Rattle.yv_base_streams.specs.{Stream.{has_failed, stream_inner}, Pages.{Adds, paged_output}};
ghost use Rattle.yv_json_lines.specs.InnerSteps.{spelled_byte, spelled_item, spelled_name, spelled_step, spelled_steps};

use crate::path::{put_bracketed, put_percent_byte};
use crate::pointer::{put_index, put_tilde_byte};
use crate::strings::put_inside;
use std::io::Write;
use yv_base_streams::{Counted, Page};
use yv_data_faults::{MemberName, Part, PathSteps};

/// How steps are spelled.
#[derive(Clone, Copy)]
pub(crate) enum Spelling {
    /// As in the path of a fault's line.
    Path,
    /// As in a pointer.
    Pointer,
}

/// Puts the steps of a path. The calls nest as deep as the path is long.
pub(crate) fn put_steps<W: Write>(
    page: &mut Page,
    writer: &mut Counted<W>,
    spelling: Spelling,
    path: &PathSteps<'_>,
)
    ensures { Adds (json_escape (spelled_steps spelling path.now))
        (paged_output W.contents writer.old page.old)
        (paged_output W.contents writer.new page.new) }
{
    if let Some((last, before)) = path.split_last() {
        put_steps(page, writer, spelling, &before);
        put_step(page, writer, spelling, &last);
    }
}

/// Puts a step of a path.
pub(crate) fn put_step<W: Write>(
    page: &mut Page,
    writer: &mut Counted<W>,
    spelling: Spelling,
    step: &Part<'_>,
)
    ensures { Adds (json_escape (spelled_step spelling (part_of step.now)))
        (paged_output W.contents writer.old page.old)
        (paged_output W.contents writer.new page.new) }
{
    put_inside(page, writer, b"/");
    put_member_name(page, writer, spelling, &step.name);
    put_item(page, writer, spelling, step.item);
}

fn put_member_name<W: Write>(
    page: &mut Page,
    writer: &mut Counted<W>,
    spelling: Spelling,
    name: &MemberName<'_>,
)
    ensures { Adds
        (json_escape
        (spelled_name spelling
        (member_text name.now.is_choice (option_map (λ m. m.now) name.now.module)
        name.now.name.now))) (paged_output W.contents writer.old page.old)
        (paged_output W.contents writer.new page.new) }
{
    if name.is_choice {
        put_name(page, writer, spelling, b"(");
        put_qualified(page, writer, spelling, name.module, name.name);
        put_name(page, writer, spelling, b")");
    } else {
        put_qualified(page, writer, spelling, name.module, name.name);
    }
}

// Puts a name, after that of its module where there is one.
fn put_qualified<W: Write>(
    page: &mut Page,
    writer: &mut Counted<W>,
    spelling: Spelling,
    module_name: Option<&str>,
    name: &str,
)
    ensures { Adds
        (json_escape
        (spelled_name spelling (behind (option_map (λ m. m.now) module_name.entry) name.now)))
        (paged_output W.contents writer.old page.old)
        (paged_output W.contents writer.new page.new) }
{
    if let Some(module) = module_name {
        put_name(page, writer, spelling, module.as_bytes());
        put_name(page, writer, spelling, b":");
    }
    put_name(page, writer, spelling, name.as_bytes());
}

/// Puts a name.
pub(crate) fn put_name<W: Write>(
    page: &mut Page,
    writer: &mut Counted<W>,
    spelling: Spelling,
    name: &[u8],
)
    ensures { Adds (json_escape (spelled_name spelling name.now))
        (paged_output W.contents writer.old page.old)
        (paged_output W.contents writer.new page.new) }
{
    for byte in name {
        put_byte(page, writer, spelling, *byte);
    }
}

fn put_byte<W: Write>(page: &mut Page, writer: &mut Counted<W>, spelling: Spelling, byte: u8)
    ensures { Adds (json_escape (spelled_byte spelling byte))
        (paged_output W.contents writer.old page.old)
        (paged_output W.contents writer.new page.new) }
{
    match spelling {
        Spelling::Path => put_percent_byte(page, writer, byte),
        Spelling::Pointer => put_tilde_byte(page, writer, byte),
    }
}

fn put_item<W: Write>(
    page: &mut Page,
    writer: &mut Counted<W>,
    spelling: Spelling,
    item: Option<u64>,
)
    ensures { Adds (json_escape (spelled_item spelling item))
        (paged_output W.contents writer.old page.old)
        (paged_output W.contents writer.new page.new) }
{
    match spelling {
        Spelling::Path => put_bracketed(page, writer, item),
        Spelling::Pointer => put_index(page, writer, item),
    }
}
