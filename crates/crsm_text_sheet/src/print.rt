//! Formatting of sheet lines, each with its line feed.

ghost use Rattle.std.specs.Prelude.{◌≡◌, ◌++◌, ◌∷◌, [], OnOk, OnErr};
ghost use Rattle.crsm_text.specs.Values.{value_text};
ghost use Rattle.crsm_text_sheet.specs.declared.line.SheetLine.{SheetLine};
ghost use Rattle.crsm_text_sheet.specs.Grammar.{sheet_line_text};

use crate::line::SheetLine;
use crsm_base::{Bytes, Members, NoMemory};
use crsm_text::{push_hex, push_members, push_named};
use std::alloc::Global;

/// Appends the input bytes of a turn in hexadecimal, or `empty`.
fn push_taken(out: &mut Bytes, bytes: &[u8]) -> Result<(), NoMemory>
    ensures { OnOk result (out.new ≡ out.old ++ value_text bytes.now) }
{
    match bytes {
        [] => out.append(b"empty"),
        [_, ..] => push_hex(out, bytes),
    }
}

/// Appends the line of a turn whose input was these bytes from `address`. `reading` is in microseconds since 1970.
/// `NoMemory` if memory runs out; a prefix of the line may then have been appended.
pub fn push_in(out: &mut Bytes, reading: u64, address: u64, bytes: &[u8]) -> Result<(), NoMemory>
    ensures { OnOk result (out.new ≡ out.old ++ (sheet_line_text (SheetLine.In reading address bytes.now) ++ 10 ∷ [])) }
{
    push_named(out, b"in", &[reading, address])?;
    out.push(b' ')?;
    push_taken(out, bytes)?;
    out.push(b'\n')
}

/// Appends the line of a log body that the node found. `NoMemory` if memory runs out; a prefix of the line may then have
/// been appended.
pub fn push_entry(out: &mut Bytes, bytes: &[u8]) -> Result<(), NoMemory>
    ensures { OnOk result (out.new ≡ out.old ++ (sheet_line_text (SheetLine.Entry bytes.now) ++ 10 ∷ [])) }
{
    out.append(b"entry ")?;
    push_hex(out, bytes)?;
    out.push(b'\n')
}

fn push_tick(out: &mut Bytes, reading: u64) -> Result<(), NoMemory>
    ensures { OnOk result (out.new ≡ out.old ++ (sheet_line_text (SheetLine.Tick reading) ++ 10 ∷ [])) }
{
    push_named(out, b"tick", &[reading])?;
    out.push(b'\n')
}

fn push_suspect(out: &mut Bytes, reading: u64, members: &Members) -> Result<(), NoMemory>
    ensures { OnOk result (out.new ≡ out.old ++ (sheet_line_text (SheetLine.Suspect reading members.now) ++ 10 ∷ [])) }
{
    push_named(out, b"suspect", &[reading])?;
    out.push(b' ')?;
    push_members(out, members)?;
    out.push(b'\n')
}

fn push_line(out: &mut Bytes, line: &SheetLine) -> Result<(), NoMemory>
    ensures { OnOk result (out.new ≡ out.old ++ (sheet_line_text line.now ++ 10 ∷ [])) }
{
    match line {
        SheetLine::Entry { bytes } => push_entry(out, bytes.as_slice()),
        SheetLine::Open => out.append(b"open\n"),
        SheetLine::In {
            reading,
            address,
            bytes,
        } => push_in(out, *reading, *address, bytes.as_slice()),
        SheetLine::Tick { reading } => push_tick(out, *reading),
        SheetLine::Suspect { reading, members } => push_suspect(out, *reading, members),
    }
}

/// Appends a sheet line with its line feed. `NoMemory` if memory runs out; `out` is then unchanged.
pub fn print_sheet(alloc: Global, line: &SheetLine, out: &mut Bytes) -> Result<(), NoMemory>
    ensures ok { OnOk result (out.new ≡ out.old ++ (sheet_line_text line.now ++ 10 ∷ [])) }
    ensures err { OnErr result (out.new ≡ out.old) }
{
    let mut text = Bytes::new(alloc);
    push_line(&mut text, line)?;
    out.append(text.as_slice())?;
    Ok(())
}
