//! Parsing of sheet lines, each without its line feed.

ghost use Rattle.std.specs.Prelude.{◌≡◌, ℕ, ◌≤◌, ◌++◌, List, IfSome, IfOk, codes, length};
ghost use Rattle.hex.specs.Hex.{encode_lower, IsBytes};
ghost use Rattle.crsm_text.specs.Reads.{ReadsAs};
ghost use Rattle.crsm_text.specs.Values.{value_text};
ghost use Rattle.crsm_text_sheet.specs.declared.line.SheetLine.{SheetLine};
ghost use Rattle.crsm_text_sheet.specs.Grammar.{FitsSheetLine, sheet_line_text};

use crate::line::SheetLine;
use crsm_base::{Bytes, MAX_DATAGRAM_BYTES};
use crsm_text::{LineError, hex_of, number_field, read_members, read_number, two_fields};
use std::alloc::Global;

/// Parses one or more bytes in hexadecimal.
fn some_bytes_of(alloc: Global, word: &[u8]) -> Result<Bytes, LineError>
    ensures found { IfOk result (λ bytes. IsBytes bytes × (1 ≤ length bytes) × (word.now ≡ encode_lower bytes)) }
    ensures only { (bytes : List ℕ) → IsBytes bytes → 1 ≤ length bytes → word.now ≡ encode_lower bytes → ReadsAs result bytes }
{
    let read = hex_of(alloc, word)?;
    if read.is_empty() {
        return Err(LineError::Unreadable);
    }
    let mut bytes = Bytes::new(alloc);
    bytes.append(read.as_slice())?;
    Ok(bytes)
}

/// Parses the input bytes of a turn, up to 8,192: hexadecimal digits, or `empty`.
fn taken_of(alloc: Global, word: &[u8]) -> Result<Bytes, LineError>
    ensures found { IfOk result (λ bytes. IsBytes bytes × (length bytes ≤ 8192) × (word.now ≡ value_text bytes)) }
    ensures only { (bytes : List ℕ) → IsBytes bytes → length bytes ≤ 8192 → word.now ≡ value_text bytes → ReadsAs result bytes }
{
    if word == b"empty".as_slice() {
        return Ok(Bytes::new(alloc));
    }
    let bytes = some_bytes_of(alloc, word)?;
    if bytes.as_slice().len() > MAX_DATAGRAM_BYTES as usize {
        return Err(LineError::Unreadable);
    }
    Ok(bytes)
}

fn entry_of(alloc: Global, text: &[u8]) -> Result<SheetLine, LineError>
    ensures found { IfOk result (λ l. FitsSheetLine l × (codes "entry " ++ text.now ≡ sheet_line_text l)) }
    ensures only { (l : SheetLine) → FitsSheetLine l → codes "entry " ++ text.now ≡ sheet_line_text l → ReadsAs result l }
{
    let bytes = some_bytes_of(alloc, text)?;
    Ok(SheetLine::Entry { bytes })
}

fn in_of(alloc: Global, text: &[u8]) -> Result<SheetLine, LineError>
    ensures found { IfOk result (λ l. FitsSheetLine l × (codes "in " ++ text.now ≡ sheet_line_text l)) }
    ensures only { (l : SheetLine) → FitsSheetLine l → codes "in " ++ text.now ≡ sheet_line_text l → ReadsAs result l }
{
    let Some((reading, address, rest)) = two_fields(text) else {
        return Err(LineError::Unreadable);
    };
    let bytes = taken_of(alloc, rest)?;
    Ok(SheetLine::In {
        reading,
        address,
        bytes,
    })
}

fn tick_of(text: &[u8]) -> Option<SheetLine>
    ensures found { IfSome result (λ l. FitsSheetLine l × (codes "tick " ++ text.now ≡ sheet_line_text l)) }
    ensures only { (l : SheetLine) → FitsSheetLine l → codes "tick " ++ text.now ≡ sheet_line_text l → result ≡ Some l }
{
    let reading = read_number(text)?;
    Some(SheetLine::Tick { reading })
}

fn suspect_of(alloc: Global, text: &[u8]) -> Result<SheetLine, LineError>
    ensures found { IfOk result (λ l. FitsSheetLine l × (codes "suspect " ++ text.now ≡ sheet_line_text l)) }
    ensures only { (l : SheetLine) → FitsSheetLine l → codes "suspect " ++ text.now ≡ sheet_line_text l → ReadsAs result l }
{
    let Some((reading, rest)) = number_field(text) else {
        return Err(LineError::Unreadable);
    };
    let members = read_members(alloc, rest)?;
    Ok(SheetLine::Suspect { reading, members })
}

/// Parses a sheet line. `Unreadable` if it is the text of none; `NoMemory` if memory runs out.
pub fn read_sheet(alloc: Global, line: &[u8]) -> Result<SheetLine, LineError>
    ensures found { IfOk result (λ l. FitsSheetLine l × (line.now ≡ sheet_line_text l)) }
    ensures only { (l : SheetLine) → FitsSheetLine l → line.now ≡ sheet_line_text l → ReadsAs result l }
{
    if let Some(rest) = line.strip_prefix(b"in ") {
        return in_of(alloc, rest);
    }
    if let Some(rest) = line.strip_prefix(b"tick ") {
        return tick_of(rest).ok_or(LineError::Unreadable);
    }
    if let Some(rest) = line.strip_prefix(b"suspect ") {
        return suspect_of(alloc, rest);
    }
    if let Some(rest) = line.strip_prefix(b"entry ") {
        return entry_of(alloc, rest);
    }
    if line == b"open".as_slice() {
        return Ok(SheetLine::Open);
    }
    Err(LineError::Unreadable)
}
