//! Words of a line.

use crsm_io::MemSink;
use crsm_test_cases::Fault;
use crsm_text::{hex_of, read_number};
use std::alloc::Global;

/// Returns the two parts of a text around its first space.
pub fn parted(text: &str) -> Result<(&str, &str), Fault> {
    match text.split_once(' ') {
        Some(parts) => Ok(parts),
        None => Err(Fault::Unreadable),
    }
}

/// Returns the three parts of a text around its first two spaces.
pub fn three_parts(text: &str) -> Result<(&str, &str, &str), Fault> {
    let (first, text) = parted(text)?;
    let (second, text) = parted(text)?;
    Ok((first, second, text))
}

/// Returns the five parts of a text around its first four spaces.
pub fn five_parts(text: &str) -> Result<(&str, &str, &str, &str, &str), Fault> {
    let (first, second, text) = three_parts(text)?;
    let (third, fourth, text) = three_parts(text)?;
    Ok((first, second, third, fourth, text))
}

/// Returns the number of a word.
pub fn number_of(word: &str) -> Result<u64, Fault> {
    match read_number(word.as_bytes()) {
        Some(number) => Ok(number),
        None => Err(Fault::Unreadable),
    }
}

/// Returns the numbers of a word, with commas between: none where it is `-`.
pub fn numbers_of(alloc: Global, word: &str) -> Result<Vec<u64>, Fault> {
    let mut numbers = Vec::new(alloc);
    if word == "-" {
        return Ok(numbers);
    }
    for part in word.split(',') {
        numbers.push(number_of(part)?)?;
    }
    Ok(numbers)
}

/// Returns a small number of a word, as that of a replica.
pub fn small_of(word: &str) -> Result<u32, Fault> {
    match u32::try_from(number_of(word)?) {
        Ok(number) => Ok(number),
        Err(_) => Err(Fault::Unreadable),
    }
}

/// Returns the bytes that a word has in hexadecimal.
pub fn bytes_of(alloc: Global, word: &str) -> Result<Vec<u8>, Fault> {
    Ok(hex_of(alloc, word.as_bytes())?)
}

/// Returns an output whose writes of a word fail.
pub fn sink_of(alloc: Global, writes: &str) -> Result<Box<MemSink>, Fault> {
    let fails = numbers_of(alloc, writes)?;
    Ok(Box::new(alloc, MemSink::new(alloc, &fails)?)?)
}
