//! Fields of a row, and lines of its answer.

use crate::fault::Fault;
use crsm_base::Bytes;
use crsm_text::read_number;
use std::str::from_utf8;

/// Returns the two parts of a text around the first of these marks. Without one the text is `Unreadable`.
pub fn parted<'a>(text: &'a str, mark: &str) -> Result<(&'a str, &'a str), Fault> {
    match text.split_once(mark) {
        Some(parts) => Ok(parts),
        None => Err(Fault::Unreadable),
    }
}

/// Returns the number that a field spells in decimal digits, or `Unreadable`.
pub fn number_of(field: &str) -> Result<u64, Fault> {
    match read_number(field.as_bytes()) {
        Some(number) => Ok(number),
        None => Err(Fault::Unreadable),
    }
}

/// Returns these bytes as text, or `no text` where they are not UTF-8.
pub fn text_of(bytes: &[u8]) -> &str {
    from_utf8(bytes).unwrap_or("no text")
}

/// Appends a text and a line feed.
pub fn append_line(out: &mut Bytes, text: &str) -> Result<(), Fault> {
    out.append(text.as_bytes())?;
    out.push(b'\n')?;
    Ok(())
}
