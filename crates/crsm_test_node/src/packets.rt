//! Datagrams with their addresses, as `ADDRESS:HEX`.

use crate::words::{bytes_of, number_of, numbers_of};
use crsm_base::{Bytes, NoMemory};
use crsm_port::MemPort;
use crsm_test_cases::Fault;
use crsm_text::{push_hex, push_number};
use std::alloc::Global;

/// Returns a port whose calls of a word fail, with the datagrams that wait, of which a text has none or more between
/// these marks.
pub fn port_of(
    alloc: Global,
    calls: &str,
    datagrams: &str,
    mark: char,
) -> Result<Box<MemPort>, Fault> {
    let fails = numbers_of(alloc, calls)?;
    let mut port = failing_port(alloc, &fails)?;
    put_all(alloc, &mut port, datagrams, mark)?;
    Ok(port)
}

fn put_all(alloc: Global, port: &mut MemPort, datagrams: &str, mark: char) -> Result<(), Fault> {
    for word in datagrams.split(mark) {
        if !word.is_empty() && word != "-" {
            put_packet(alloc, port, word)?;
        }
    }
    Ok(())
}

/// Returns a port that fails at these calls.
pub fn failing_port(alloc: Global, fails: &[u64]) -> Result<Box<MemPort>, Fault> {
    let port = MemPort::new(alloc, fails)?;
    Ok(Box::new(alloc, port)?)
}

/// Returns the address and the bytes of a word.
pub fn packet_of(alloc: Global, word: &str) -> Result<(u64, Vec<u8>), Fault> {
    let Some((address, hex)) = word.split_once(':') else {
        return Err(Fault::Unreadable);
    };
    Ok((number_of(address)?, bytes_of(alloc, hex)?))
}

/// Lets the datagram of a word wait at a port.
pub fn put_packet(alloc: Global, port: &mut MemPort, word: &str) -> Result<(), Fault> {
    let (from, bytes) = packet_of(alloc, word)?;
    port.put(from, bytes.as_slice())?;
    Ok(())
}

/// Appends a space, an address and bytes.
pub fn push_packet(text: &mut Bytes, address: u64, bytes: &[u8]) -> Result<(), NoMemory> {
    text.push(b' ')?;
    push_number(text, address)?;
    text.push(b':')?;
    push_hex(text, bytes)
}

/// Appends what was sent, in order.
pub fn push_sent(text: &mut Bytes, port: &MemPort) -> Result<(), NoMemory> {
    let packets = port.sent();
    for i in 0..packets.len() {
        if let Some((to, bytes)) = packets.get(i) {
            push_packet(text, to, bytes)?;
        }
    }
    Ok(())
}
