//! Parts of a case, and the inputs and outputs in memory that it runs over.

use crate::fault::Fault;
use crsm_io::{MemSink, MemSource};
use crsm_text::read_number;
use std::alloc::Global;

/// How many bytes an output has at most.
const ROOM: u64 = 65_536;

/// Returns the two parts of a text around the first of these marks. Without one the text is `Unreadable`.
pub fn parted<'a>(text: &'a str, mark: &str) -> Result<(&'a str, &'a str), Fault> {
    match text.split_once(mark) {
        Some(parts) => Ok(parts),
        None => Err(Fault::Unreadable),
    }
}

/// Returns the number that a word spells in decimal digits, or `Unreadable`.
pub fn number_of(word: &str) -> Result<u64, Fault> {
    match read_number(word.as_bytes()) {
        Some(number) => Ok(number),
        None => Err(Fault::Unreadable),
    }
}

/// Returns the input of a case, without its last line feed where the header ends with ` cut`.
fn kept<'a>(header: &str, text: &'a str) -> &'a str {
    match text.strip_suffix("\n") {
        Some(cut) if header.ends_with(" cut") => cut,
        _ => text,
    }
}

/// Returns the source of a case's input, of which these reads fail.
pub fn source_of(
    alloc: Global,
    header: &str,
    text: &str,
    fails: &[u64],
) -> Result<Box<MemSource>, Fault> {
    boxed_source(alloc, kept(header, text).as_bytes(), fails)
}

/// Returns a source of these bytes, of which these reads fail.
pub fn boxed_source(alloc: Global, bytes: &[u8], fails: &[u64]) -> Result<Box<MemSource>, Fault> {
    let source = MemSource::new(alloc, bytes, fails)?;
    Ok(Box::new(alloc, source)?)
}

/// Returns an output, of which these writes fail.
pub fn sink_of(alloc: Global, fails: &[u64]) -> Result<Box<MemSink>, Fault> {
    let sink = MemSink::new(alloc, fails)?;
    let mut sink = Box::new(alloc, sink)?;
    sink.reserve(ROOM)?;
    Ok(sink)
}
