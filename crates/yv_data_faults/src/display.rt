//! A fault's line.
ghost use Rattle.std.specs.{Prelude.{◌≡◌, ◌++◌, ◌<◌, IfOk, OnErr, OnOk, string_bytes}, Fmt.{WritesOnOk}, Option.{option_map}};
ghost use Rattle.yv_nodes.specs.Member.{behind};
ghost use Rattle.yv_data_leafrefs.specs.Place.{member_text};
ghost use Rattle.yv_data_faults.specs.Line.{escape, escaped_byte, hexadecimal, line_text, places_text};

use crate::fault::{Fault, FaultKind};
use crate::path::{Part, Path, PathSteps};
use std::alloc::{AllocError, Global};
use std::fmt;
use yv_data_leafrefs::MemberName;

/// The name of the kind, as in `missing-key`.
impl fmt::Display for FaultKind {
    ghost use Rattle.std.specs.Prelude.{Some};
    ghost use Rattle.yv_data_faults.specs.Line.{kind_name};

    ghost output = { λ kind. Some (kind_name kind) };

    fn fmt<W: fmt::Write>(&self, f: &mut fmt::Formatter<W>) -> fmt::Result {
        f.write_str(self.name())
    }
}

/// The fault's line without its line feed: the name of its kind, a blank and its path, and after a
/// blank the number where it isn't 0.
impl fmt::Display for Fault {
    ghost use Rattle.std.specs.Prelude.{Some};
    ghost use Rattle.yv_data_faults.specs.Line.{line_text};

    ghost output = { λ fault. Some (line_text fault) };

    fn fmt<W: fmt::Write>(&self, f: &mut fmt::Formatter<W>) -> fmt::Result {
        let (kind, path, number) = (self.kind, &self.path, self.number);
        write!(f, "{kind} {path}")?;
        if number != 0 {
            write!(f, " {number}")?;
        }
        Ok(())
    }
}

/// `/`, or for each step `/` and the member's name, with the number of an item in brackets. In a
/// name bytes that are not visible ASCII characters, and `%`, are percent-encoded.
impl fmt::Display for Path {
    ghost use Rattle.std.specs.Prelude.{Some};
    ghost use Rattle.yv_data_faults.specs.Line.{path_text};

    ghost output = { λ path. Some (path_text path) };

    fn fmt<W: fmt::Write>(&self, f: &mut fmt::Formatter<W>) -> fmt::Result {
        let steps = self.steps();
        if steps.is_empty() {
            f.write_str("/")?;
        }
        write_steps(f, &steps)
    }
}

/// `/`, the member's name, and the number of an item in brackets, as in the line of a fault.
impl<'p> fmt::Display for Part<'p> {
    ghost use Rattle.std.specs.Prelude.{Some};
    ghost use Rattle.yv_data_faults.specs.{Line.{place_text}, Part.{part_of}};

    ghost output = { λ step. Some (place_text (part_of step)) };

    fn fmt<W: fmt::Write>(&self, f: &mut fmt::Formatter<W>) -> fmt::Result {
        f.write_str("/")?;
        write_member(f, &self.name)?;
        if let Some(item) = self.item {
            write!(f, "[{item}]")?;
        }
        Ok(())
    }
}

fn write_steps<W: fmt::Write>(f: &mut fmt::Formatter<W>, path: &PathSteps<'_>) -> fmt::Result
    ensures { WritesOnOk W.write_str_gives f.old result (places_text path.now) f.new }
{
    match path.split_last() {
        None => Ok(()),
        Some((last, before)) => {
            write_steps(f, &before)?;
            write!(f, "{last}")
        }
    }
}

fn write_member<W: fmt::Write>(f: &mut fmt::Formatter<W>, name: &MemberName<'_>) -> fmt::Result
    ensures { WritesOnOk W.write_str_gives f.old result
        (escape
        (member_text name.now.is_choice (option_map (λ m. m.now) name.now.module)
        name.now.name.now))
        f.new }
{
    if !name.is_choice {
        return write_qualified(f, name);
    }
    f.write_str("(")?;
    write_qualified(f, name)?;
    f.write_str(")")
}

fn write_qualified<W: fmt::Write>(f: &mut fmt::Formatter<W>, name: &MemberName<'_>) -> fmt::Result
    ensures { WritesOnOk W.write_str_gives f.old result
        (escape (behind (option_map (λ m. m.now) name.now.module) name.now.name.now)) f.new }
{
    if let Some(module) = name.module {
        write_escaped(f, module)?;
        f.write_str(":")?;
    }
    write_escaped(f, name.name)
}

fn write_escaped<W: fmt::Write>(f: &mut fmt::Formatter<W>, name: &str) -> fmt::Result
    ensures { WritesOnOk W.write_str_gives f.old result (escape name.now) f.new }
{
    for byte in name.as_bytes() {
        write_byte(f, *byte)?;
    }
    Ok(())
}

fn write_byte<W: fmt::Write>(f: &mut fmt::Formatter<W>, byte: u8) -> fmt::Result
    ensures { WritesOnOk W.write_str_gives f.old result (escaped_byte byte) f.new }
{
    if b'!' <= byte && byte <= b'~' && byte != b'%' {
        return f.write_char(byte as char);
    }
    f.write_char('%')?;
    f.write_char(digit(byte / 16))?;
    f.write_char(digit(byte % 16))
}

fn digit(value: u8) -> char
    requires { value < 16 }
    ensures ascii { result < 128 }
    ensures value { result ≡ hexadecimal value }
{
    if value < 10 {
        (b'0' + value) as char
    } else {
        (b'A' + value - 10) as char
    }
}

/// A fault's line without its line feed, as `Display` writes it.
pub fn line(alloc: Global, fault: &Fault) -> Result<String, AllocError>
    ensures { IfOk result (λ s. string_bytes s ≡ line_text fault.now) }
{
    fault.to_string(alloc)
}

/// Appends a fault's line to a text. The line is made first, so that the text stays as it is where
/// memory runs out.
pub fn push_line(text: &mut String, fault: &Fault) -> Result<(), AllocError>
    // That line is appended to the text.
    ensures line { OnOk result
        (string_bytes text.new ≡ string_bytes text.old ++ line_text fault.now) }
    // After an error the text is as it was.
    ensures same { OnErr result (string_bytes text.new ≡ string_bytes text.old) }
{
    let line = line(*text.allocator(), fault)?;
    text.push_str(line.as_str())
}
