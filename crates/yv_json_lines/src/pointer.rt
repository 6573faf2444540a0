//! Pointers to the places of faults (RFC 6901) as JSON strings.
ghost use Rattle.std.specs.Prelude.{◌≡◌, ◌++◌, ◌-◌, ◌∷◌, [], ℕ, List, Option, codes, decimal, option_map};
ghost use Rattle.json.specs.Print.{escape as json_escape, quoted};
ghost use Rattle.yv_data_leafrefs.specs.Place.{member_text};
ghost use Rattle.yv_base_streams.specs.{Stream.{has_failed, stream_inner}, Pages.{Adds, paged_output}};
ghost use Rattle.yv_json_lines.specs.Pointer.{index_text, is_choice_at, is_of_choices, opens, pointer_byte, pointer_text};

use crate::steps::{Spelling, put_step, put_steps};
use crate::strings::{put_digits, put_inside};
use std::io::Write;
use yv_base_streams::{Counted, Page};
use yv_data_faults::{FaultKind, MemberName, PathSteps};

/// Puts the pointer to the place of a fault of this kind and path as a JSON string.
pub fn put_pointer<W: Write>(
    page: &mut Page,
    writer: &mut Counted<W>,
    kind: FaultKind,
    path: &PathSteps<'_>,
)
    // The pointer, in quotes, follows what was put before it.
    ensures { Adds (quoted (pointer_text kind path.now))
        (paged_output W.contents writer.old page.old)
        (paged_output W.contents writer.new page.new) }
{
    page.put(writer, b"\"");
    put_places(page, writer, kind, path);
    page.put(writer, b"\"");
}

// The places of a path, without that of a choice at its end, which no member writes.
fn put_places<W: Write>(
    page: &mut Page,
    writer: &mut Counted<W>,
    kind: FaultKind,
    path: &PathSteps<'_>,
)
    ensures { Adds (json_escape (pointer_text kind path.now))
        (paged_output W.contents writer.old page.old)
        (paged_output W.contents writer.new page.new) }
{
    if let Some((last, before)) = path.split_last() {
        put_steps(page, writer, Spelling::Pointer, &before);
        if !is_choice(kind, &last.name) {
            put_step(page, writer, Spelling::Pointer, &last);
        }
    }
}

// Whether the last place of a fault of this kind, where a member of this name would be, is that of
// a choice.
fn is_choice(kind: FaultKind, name: &MemberName<'_>) -> bool
    ensures { result
        ≡ is_choice_at kind
        (member_text name.now.is_choice (option_map (λ m. m.now) name.now.module)
        name.now.name.now) }
{
    is_of_choices(kind) && begins_open(name)
}

// Whether faults of this kind are at choices too.
fn is_of_choices(kind: FaultKind) -> bool
    ensures { result ≡ is_of_choices kind }
{
    matches!(kind, FaultKind::Choice | FaultKind::Mandatory)
}

// Whether the name begins with a parenthesis.
fn begins_open(name: &MemberName<'_>) -> bool
    ensures { result
        ≡ opens (member_text name.now.is_choice (option_map (λ m. m.now) name.now.module)
        name.now.name.now) }
{
    name.is_choice || opens(name.module.unwrap_or(name.name).as_bytes())
}

fn opens(text: &[u8]) -> bool
    ensures { result ≡ opens text.now }
{
    matches!(text, [b'(', ..])
}

// Puts a byte of a name: `~0` for `~`, and `~1` for `/`.
pub(crate) fn put_tilde_byte<W: Write>(page: &mut Page, writer: &mut Counted<W>, byte: u8)
    ensures { Adds (json_escape (pointer_byte byte)) (paged_output W.contents writer.old page.old)
        (paged_output W.contents writer.new page.new) }
{
    if byte == b'~' {
        put_inside(page, writer, b"~0");
    } else if byte == b'/' {
        put_inside(page, writer, b"~1");
    } else {
        put_inside(page, writer, &[byte]);
    }
}

// Puts the place of an entry or an item, from 0.
pub(crate) fn put_index<W: Write>(page: &mut Page, writer: &mut Counted<W>, item: Option<u64>)
    ensures { Adds (json_escape (index_text item)) (paged_output W.contents writer.old page.old)
        (paged_output W.contents writer.new page.new) }
{
    if let Some(number) = item {
        put_inside(page, writer, b"/");
        put_digits(page, writer, number.saturating_sub(1));
    }
}
