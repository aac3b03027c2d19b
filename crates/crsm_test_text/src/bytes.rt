//! The table `bytes`: a row is a kind and bytes in hexadecimal. It answers what the reader of that kind takes from the
//! prefix of the bytes, written again.

use crate::again::{Found, read_again};
use crate::fault::Fault;
use crate::fields::append_line;
use crate::kind::Kind;
use crsm_base::Bytes;
use hex::FromHexError;
use std::alloc::Global;

/// Returns the bytes that a field spells in hexadecimal; `-` spells none.
fn bytes_of(alloc: Global, field: &str) -> Result<Vec<u8>, Fault> {
    if field == "-" {
        return Ok(Vec::new(alloc));
    }
    match hex::decode(alloc, field) {
        Ok(bytes) => Ok(bytes),
        Err(FromHexError::OutOfMemory) => Err(Fault::NoMemory),
        Err(_) => Err(Fault::NotHexadecimal),
    }
}

/// Returns the kind's name and what was found.
fn shown(alloc: Global, name: &str, found: &Found) -> Result<String, Fault> {
    match found {
        Found::Value { length, written } => {
            let text = hex::encode(alloc, written.as_slice())?;
            Ok(format!(in alloc; "{name} {length} {text}")?)
        }
        Found::Records { count } => Ok(format!(in alloc; "{name} {count}")?),
        Found::Nothing => Ok(format!(in alloc; "{name} none")?),
    }
}

/// Reads the bytes of a field as a value of this kind.
fn found_in(alloc: Global, kind: Kind, field: &str) -> Result<Found, Fault> {
    let bytes = bytes_of(alloc, field)?;
    Ok(read_again(alloc, kind, bytes.as_slice())?)
}

/// Appends the kind's name and what was read.
pub fn tell(alloc: Global, row: &str, out: &mut Bytes) -> Result<(), Fault> {
    let (name, field) = row.split_once(' ').ok_or(Fault::NoBytes)?;
    let kind = Kind::named(name).ok_or(Fault::UnknownKind)?;
    let found = found_in(alloc, kind, field)?;
    let text = shown(alloc, name, &found)?;
    append_line(out, text.as_str())
}
