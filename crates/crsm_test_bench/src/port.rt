//! A UDP socket of the local host, on which datagrams are received as a node receives them.

use crate::fault::Fault;
use crsm_port::{Port, Recv, UdpPort};
use std::alloc::Global;
use std::net::Net;

/// The local host, where the system chooses the port.
const LOCAL: u64 = 0x7f00_0001 << 16;

/// The most bytes of a datagram.
const MOST: usize = 8_192;

/// A kind of work on a socket.
#[derive(Clone, Copy)]
pub enum Wait {
    /// Receives while nothing comes.
    Empty,
    /// The same, where each receive is hurried.
    Hurried,
    /// Sends each datagram back to where it came from.
    Echo,
}

/// Returns a socket.
pub fn bound(alloc: Global, net: &impl Net) -> Result<Box<UdpPort>, Fault> {
    let port = UdpPort::bind(alloc, net, LOCAL)?;
    Ok(Box::new(alloc, port)?)
}

/// Returns the number of a socket.
pub fn number_of(port: &UdpPort) -> Result<u64, Fault> {
    match port.address() {
        Some(address) => Ok(address & 0xffff),
        None => Err(Fault::NoAddress),
    }
}

fn send_back(port: &mut UdpPort, to: u64, bytes: &[u8]) -> Result<(), Fault> {
    match port.send(to, bytes) {
        Ok(()) => Ok(()),
        Err(_) => Err(Fault::Port),
    }
}

/// Receives once, and returns how many receives that was of those that the work is about.
fn wait_once(port: &mut UdpPort, wait: Wait, buf: &mut [u8]) -> Result<u64, Fault> {
    match port.recv(buf) {
        Ok(Recv::Nothing) => Ok(u64::from(!matches!(wait, Wait::Echo))),
        Ok(Recv::Datagram { from, len }) => {
            send_back(port, from, &buf[..len.min(buf.len())])?;
            Ok(u64::from(matches!(wait, Wait::Echo)))
        }
        Err(_) => Err(Fault::Port),
    }
}

/// Receives so many times, into room for so many bytes, and counts the receives that gave what the work is about.
pub fn receive(port: &mut UdpPort, wait: Wait, size: u32, rounds: u32) -> Result<u64, Fault> {
    let mut buf = [0u8; MOST];
    let room = (size as usize).min(MOST);
    let mut count = 0u64;
    for _ in 0..rounds {
        if matches!(wait, Wait::Hurried) {
            port.poll_soon();
        }
        count = count.wrapping_add(wait_once(port, wait, &mut buf[..room])?);
    }
    Ok(count)
}
