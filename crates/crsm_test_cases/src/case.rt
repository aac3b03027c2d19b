//! One case: a header that says how it is run, the datagrams that wait at its port, and an input. Each device is made by
//! a function of its own, and stands in a box.

use crate::fault::Fault;
use crate::fields::{boxed_source, number_of, parted, sink_of, source_of};
use crsm_clock::ListClock;
use crsm_disk::{Disk, MemDisk};
use crsm_io::{MemSink, MemSource};
use crsm_port::MemPort;
use crsm_text::hex_of;
use std::alloc::Global;

/// A case: the words of its command line, and the devices that it runs over.
#[derive(Drop)]
pub struct Case {
    pub words: Vec<String>,
    pub input: Box<MemSource>,
    pub output: Box<MemSink>,
    pub port: Box<MemPort>,
    pub disk: Box<MemDisk>,
    pub clock: Box<ListClock>,
}

/// Returns the word of a header behind this one.
fn word_behind<'a>(header: &'a str, word: &str) -> Option<&'a str> {
    let (_, rest) = header.split_once(word)?;
    let (first, _) = rest.split_once(' ').unwrap_or((rest, ""));
    Some(first)
}

/// Returns the numbers, with commas between them, of the word behind this one.
fn numbers_behind(alloc: Global, header: &str, word: &str) -> Result<Vec<u64>, Fault> {
    let mut numbers = Vec::new(alloc);
    if let Some(list) = word_behind(header, word) {
        for number in list.split(',') {
            numbers.push(number_of(number)?)?;
        }
    }
    Ok(numbers)
}

/// Returns the words of the command line: those behind `words`, which stands last in a header, or else the word
/// `replay`.
fn words_of(alloc: Global, words: Option<&str>) -> Result<Vec<String>, Fault> {
    let mut list = Vec::new(alloc);
    match words {
        Some(words) => {
            for word in words.split(' ').skip(1) {
                list.push(String::from_str(alloc, word)?)?;
            }
        }
        None => list.push(String::from_str(alloc, "replay")?)?,
    }
    Ok(list)
}

/// Puts the datagram of a line `FROM HEX` into the port.
fn put_datagram(alloc: Global, port: &mut MemPort, line: &str) -> Result<(), Fault> {
    let (from, hex) = parted(line, " ")?;
    let from = number_of(from)?;
    let bytes = hex_of(alloc, hex.as_bytes())?;
    port.put(from, bytes.as_slice())?;
    Ok(())
}

/// Returns the port, at which these datagrams wait, one a line: of `port K` the K-th call fails.
fn port_of(alloc: Global, header: &str, datagrams: &str) -> Result<Box<MemPort>, Fault> {
    let mut port = failing_port(alloc, header)?;
    for line in datagrams.lines() {
        put_datagram(alloc, &mut port, line)?;
    }
    Ok(port)
}

fn failing_port(alloc: Global, header: &str) -> Result<Box<MemPort>, Fault> {
    let fails = numbers_behind(alloc, header, " port ")?;
    let port = MemPort::new(alloc, &fails)?;
    Ok(Box::new(alloc, port)?)
}

/// Returns the disk: of `disk K` the K-th call fails, and `file HEX` is its file, which two calls write.
fn disk_of(alloc: Global, header: &str) -> Result<Box<MemDisk>, Fault> {
    let mut disk = failing_disk(alloc, header)?;
    if let Some(hex) = word_behind(header, " file ") {
        write_file(alloc, &mut disk, hex)?;
    }
    Ok(disk)
}

fn failing_disk(alloc: Global, header: &str) -> Result<Box<MemDisk>, Fault> {
    let fails = numbers_behind(alloc, header, " disk ")?;
    let disk = MemDisk::new(alloc, &fails, None, 0)?;
    Ok(Box::new(alloc, disk)?)
}

/// Writes the file of these bytes, and syncs it; a call that fails is none of the case's.
fn write_file(alloc: Global, disk: &mut MemDisk, hex: &str) -> Result<(), Fault> {
    let bytes = hex_of(alloc, hex.as_bytes())?;
    disk.reserve(2, bytes.len() as u64)?;
    let _written = disk.write_at(0, bytes.as_slice());
    let _synced = disk.sync();
    Ok(())
}

/// Returns the input of a case, of which `read K` fails at the K-th read: of `hex` its bytes are in hexadecimal, on one
/// line.
fn input_of(alloc: Global, header: &str, text: &str) -> Result<Box<MemSource>, Fault> {
    let fails = numbers_behind(alloc, header, " read ")?;
    if !header.ends_with(" hex") {
        return source_of(alloc, header, text, &fails);
    }
    let bytes = hex_of(alloc, text.trim_end().as_bytes())?;
    boxed_source(alloc, bytes.as_slice(), &fails)
}

/// Returns the output: of `write K` the K-th write fails.
fn output_of(alloc: Global, header: &str) -> Result<Box<MemSink>, Fault> {
    let fails = numbers_behind(alloc, header, " write ")?;
    sink_of(alloc, &fails)
}

/// Returns the clock, with the readings of `clock`.
fn clock_of(alloc: Global, header: &str) -> Result<Box<ListClock>, Fault> {
    let readings = numbers_behind(alloc, header, " clock ")?;
    let clock = ListClock::new(alloc, &readings)?;
    Ok(Box::new(alloc, clock)?)
}

impl Case {
    /// Reads a case from its header and its text. Datagrams come first, then a line `--` and the input. A number or
    /// datagram that cannot be read is `Unreadable`.
    pub fn read(alloc: Global, header: &str, text: &str) -> Result<Box<Case>, Fault> {
        let (header, words) = match header.split_once(" words") {
            Some((header, words)) => (header, Some(words)),
            None => (header, None),
        };
        let (datagrams, text) = text.split_once("--\n").unwrap_or(("", text));
        let case = Case {
            words: words_of(alloc, words)?,
            input: input_of(alloc, header, text)?,
            output: output_of(alloc, header)?,
            port: port_of(alloc, header, datagrams)?,
            disk: disk_of(alloc, header)?,
            clock: clock_of(alloc, header)?,
        };
        Ok(Box::new(alloc, case)?)
    }
}
