//! Parsing of events of one step.

ghost use Rattle.std.specs.Prelude.{◌≡◌, ℕ, ◌≤◌, ◌++◌, List, IfOk, codes, length};
ghost use Rattle.hex.specs.Hex.{encode_lower, IsBytes};
ghost use Rattle.crsm_text.specs.Reads.{ReadsAs};
ghost use Rattle.crsm_schedule.specs.declared.event.Single.{Single};
ghost use Rattle.crsm_schedule.specs.Grammar.{FitsSingle, single_text};

use crate::event::Single;
use crsm_base::{Bytes, Command, MAX_DATAGRAM_BYTES};
use crsm_text::{LineError, hex_of, read_members, read_op, two_fields, two_numbers};
use std::alloc::Global;

fn request_of(alloc: Global, text: &[u8]) -> Result<Single, LineError>
    ensures found { IfOk result (λ s. FitsSingle s × (codes "request " ++ text.now ≡ single_text s)) }
    ensures only { (s : Single) → FitsSingle s → codes "request " ++ text.now ≡ single_text s → ReadsAs result s }
{
    let Some((replica, reading, rest)) = two_fields(text) else {
        return Err(LineError::Unreadable);
    };
    let Some((client, number, rest)) = two_fields(rest) else {
        return Err(LineError::Unreadable);
    };
    let op = read_op(alloc, rest)?;
    let command = Command { client, number, op };
    Ok(Single::Request {
        replica,
        reading,
        command,
    })
}

fn go_of(text: &[u8]) -> Result<Single, LineError>
    ensures found { IfOk result (λ s. FitsSingle s × (codes "go " ++ text.now ≡ single_text s)) }
    ensures only { (s : Single) → FitsSingle s → codes "go " ++ text.now ≡ single_text s → ReadsAs result s }
{
    let Some((number, reading)) = two_numbers(text) else {
        return Err(LineError::Unreadable);
    };
    Ok(Single::Go { number, reading })
}

fn again_of(text: &[u8]) -> Result<Single, LineError>
    ensures found { IfOk result (λ s. FitsSingle s × (codes "again " ++ text.now ≡ single_text s)) }
    ensures only { (s : Single) → FitsSingle s → codes "again " ++ text.now ≡ single_text s → ReadsAs result s }
{
    let Some((number, reading)) = two_numbers(text) else {
        return Err(LineError::Unreadable);
    };
    Ok(Single::Again { number, reading })
}

fn tick_of(text: &[u8]) -> Result<Single, LineError>
    ensures found { IfOk result (λ s. FitsSingle s × (codes "tick " ++ text.now ≡ single_text s)) }
    ensures only { (s : Single) → FitsSingle s → codes "tick " ++ text.now ≡ single_text s → ReadsAs result s }
{
    let Some((replica, reading)) = two_numbers(text) else {
        return Err(LineError::Unreadable);
    };
    Ok(Single::Tick { replica, reading })
}

fn suspect_of(alloc: Global, text: &[u8]) -> Result<Single, LineError>
    ensures found { IfOk result (λ s. FitsSingle s × (codes "suspect " ++ text.now ≡ single_text s)) }
    ensures only { (s : Single) → FitsSingle s → codes "suspect " ++ text.now ≡ single_text s → ReadsAs result s }
{
    let Some((replica, reading, rest)) = two_fields(text) else {
        return Err(LineError::Unreadable);
    };
    let members = read_members(alloc, rest)?;
    Ok(Single::Suspect {
        replica,
        reading,
        members,
    })
}

/// Parses the hexadecimal bytes of a `junk` line, 1 to 8,192 of them.
fn datagram_of(alloc: Global, word: &[u8]) -> Result<Bytes, LineError>
    ensures found { IfOk result (λ bytes. IsBytes bytes × (1 ≤ length bytes) × (length bytes ≤ 8192) × (word.now ≡ encode_lower bytes)) }
    ensures only { (bytes : List ℕ) → IsBytes bytes → 1 ≤ length bytes → length bytes ≤ 8192 → word.now ≡ encode_lower bytes → ReadsAs result bytes }
{
    let read = hex_of(alloc, word)?;
    if read.is_empty() || read.len() > MAX_DATAGRAM_BYTES as usize {
        return Err(LineError::Unreadable);
    }
    let mut bytes = Bytes::new(alloc);
    bytes.append(read.as_slice())?;
    Ok(bytes)
}

fn junk_of(alloc: Global, text: &[u8]) -> Result<Single, LineError>
    ensures found { IfOk result (λ s. FitsSingle s × (codes "junk " ++ text.now ≡ single_text s)) }
    ensures only { (s : Single) → FitsSingle s → codes "junk " ++ text.now ≡ single_text s → ReadsAs result s }
{
    let Some((replica, reading, rest)) = two_fields(text) else {
        return Err(LineError::Unreadable);
    };
    let bytes = datagram_of(alloc, rest)?;
    Ok(Single::Junk {
        replica,
        reading,
        bytes,
    })
}

/// Parses an event of one step. `Unreadable` if the text is none; `NoMemory` if memory runs out.
pub(crate) fn read_single(alloc: Global, text: &[u8]) -> Result<Single, LineError>
    ensures found { IfOk result (λ s. FitsSingle s × (text.now ≡ single_text s)) }
    ensures only { (s : Single) → FitsSingle s → text.now ≡ single_text s → ReadsAs result s }
{
    if let Some(rest) = text.strip_prefix(b"request ") {
        return request_of(alloc, rest);
    }
    if let Some(rest) = text.strip_prefix(b"go ") {
        return go_of(rest);
    }
    if let Some(rest) = text.strip_prefix(b"again ") {
        return again_of(rest);
    }
    if let Some(rest) = text.strip_prefix(b"tick ") {
        return tick_of(rest);
    }
    if let Some(rest) = text.strip_prefix(b"suspect ") {
        return suspect_of(alloc, rest);
    }
    if let Some(rest) = text.strip_prefix(b"junk ") {
        return junk_of(alloc, rest);
    }
    Err(LineError::Unreadable)
}
