//! The tables `peer_port`, `packets_port` and `flow_port`: what each send and receive of a port of peers, of packets, or
//! with flow control gave, and behind `>` what went out.
//!
//! A row has the steps of a port: `put:FROM:HEX` is a datagram that waits, `fail:K` a call of the port below that
//! fails, `clock:T,T` has the readings of the port's clock, and then, in order, `reserve` makes room, `send:TO:HEX`
//! sends, `recv` receives and `flush` ends a group. The port is that of replica 0 of three, at the addresses 7000 to
//! 7002. The clock is read at each `reserve`, and where an idle port with flow control receives.

use crate::packets::{failing_port, packet_of, push_packet, push_sent, put_packet};
use crate::words::{number_of, numbers_of};
use crsm_base::{Bytes, NoMemory};
use crsm_clock::ListClock;
use crsm_port::{MemPort, Port, Recv};
use crsm_port_flow::FlowPort;
use crsm_port_packets::PacketsPort;
use crsm_port_peers::PeerPort;
use crsm_test_cases::Fault;
use std::alloc::Global;

/// The port of a table.
#[derive(Clone, Copy)]
pub enum Kind {
    Peers,
    Packets,
    Flow,
}

impl Kind {
    /// How many bytes a receive has room for.
    fn room(self) -> usize {
        match self {
            Kind::Peers | Kind::Packets => MOST,
            Kind::Flow => 64,
        }
    }
}

/// The most bytes of a datagram.
const MOST: usize = 8_192;

/// The addresses of the replicas.
const PEERS: [u64; 3] = [7000, 7001, 7002];

/// The room that is made at the port below, for all that goes out.
const SENDS: u64 = 64;

const BYTES: u64 = 65_536;

/// What a row says of the port below and of the clock.
#[derive(Drop)]
struct Below {
    port: Box<MemPort>,
    clock: ListClock,
}

/// The calls that fail in a row.
fn fails_of(alloc: Global, row: &str) -> Result<Vec<u64>, Fault> {
    let mut fails = Vec::new(alloc);
    for step in row.split(' ') {
        if let Some(number) = step.strip_prefix("fail:") {
            fails.push(number_of(number)?)?;
        }
    }
    Ok(fails)
}

/// The readings in a row, or `-` for none.
fn readings_in(row: &str) -> &str {
    for step in row.split(' ') {
        if let Some(readings) = step.strip_prefix("clock:") {
            return readings;
        }
    }
    "-"
}

/// The clock of a row.
fn clock_of(alloc: Global, row: &str) -> Result<ListClock, Fault> {
    let readings = numbers_of(alloc, readings_in(row))?;
    Ok(ListClock::new(alloc, &readings)?)
}

/// The port below of a row, with the datagrams that wait.
fn port_of(alloc: Global, row: &str) -> Result<Box<MemPort>, Fault> {
    let fails = fails_of(alloc, row)?;
    let mut port = failing_port(alloc, &fails)?;
    wait_all(alloc, &mut port, row)?;
    Ok(port)
}

fn wait_all(alloc: Global, port: &mut MemPort, row: &str) -> Result<(), Fault> {
    for step in row.split(' ') {
        if let Some(word) = step.strip_prefix("put:") {
            put_packet(alloc, port, word)?;
        }
    }
    port.reserve(SENDS, BYTES)?;
    Ok(())
}

/// Receives, and writes what came.
fn receive<P: Port>(port: &mut P, room: usize, text: &mut Bytes) -> Result<(), NoMemory> {
    let mut buf = [0; MOST];
    match port.recv(&mut buf[..room.min(MOST)]) {
        Ok(Recv::Datagram { from, len }) => push_packet(text, from, &buf[..len.min(MOST)]),
        Ok(Recv::Nothing) => text.append(b" nothing"),
        Err(_) => text.append(b" failed"),
    }
}

/// Sends the datagram of a word, and writes whether it was lost.
fn send<P: Port>(alloc: Global, port: &mut P, word: &str, text: &mut Bytes) -> Result<(), Fault> {
    let (to, bytes) = packet_of(alloc, word)?;
    let said: &[u8] = match port.send(to, &bytes) {
        Ok(()) => b" sent",
        Err(_) => b" lost",
    };
    text.append(said)?;
    Ok(())
}

/// Takes a step, and writes what it gave.
fn take_step<P: Port>(
    alloc: Global,
    kind: Kind,
    port: &mut P,
    step: &str,
    text: &mut Bytes,
) -> Result<(), Fault> {
    match step.split_once(":").unwrap_or((step, "")) {
        ("recv", _) => receive(port, kind.room(), text)?,
        ("flush", _) => port.flush(),
        ("reserve", _) => port.reserve(0, 0)?,
        ("send", word) => send(alloc, port, word, text)?,
        ("put" | "fail" | "clock", _) => {}
        _ => return Err(Fault::Unreadable),
    }
    Ok(())
}

fn take_steps<P: Port>(
    alloc: Global,
    kind: Kind,
    port: &mut P,
    row: &str,
    text: &mut Bytes,
) -> Result<(), Fault> {
    for step in row.split(' ') {
        take_step(alloc, kind, port, step, text)?;
    }
    Ok(())
}

/// Takes the steps of a row at a port of this kind over what is below.
fn run(
    alloc: Global,
    kind: Kind,
    below: &mut Below,
    row: &str,
    text: &mut Bytes,
) -> Result<(), Fault> {
    let (port, clock) = (&mut *below.port, &mut below.clock);
    match kind {
        Kind::Peers => {
            let peers = Vec::from_slice(alloc, &PEERS)?;
            take_steps(alloc, kind, &mut PeerPort::new(port, peers), row, text)
        }
        Kind::Packets => {
            let mut over = PacketsPort::new(alloc, port, clock, &PEERS[1..])?;
            let taken = take_steps(alloc, kind, &mut over, row, text);
            drop(over);
            taken
        }
        Kind::Flow => {
            let mut over = FlowPort::new(alloc, port, clock, 0, &PEERS)?;
            let taken = take_steps(alloc, kind, &mut over, row, text);
            drop(over);
            taken
        }
    }
}

/// Writes what the steps of a row gave, and what went out.
fn run_row(alloc: Global, kind: Kind, row: &str, text: &mut Bytes) -> Result<(), Fault> {
    let mut below = Below {
        port: port_of(alloc, row)?,
        clock: clock_of(alloc, row)?,
    };
    run(alloc, kind, &mut below, row, text)?;
    text.append(b" >")?;
    push_sent(text, &below.port)?;
    Ok(())
}

/// Appends what the steps of a row gave, or that one is none.
fn push_row(alloc: Global, kind: Kind, row: &str, out: &mut Bytes) -> Result<(), Fault> {
    let mut text = Bytes::new(alloc);
    match run_row(alloc, kind, row, &mut text) {
        Ok(()) => out.append(text.as_slice())?,
        Err(Fault::Unreadable) => out.append(b"a step that is not known")?,
        Err(why) => return Err(why),
    }
    Ok(out.push(b'\n')?)
}

/// Appends the answers to all lines of the table.
pub fn push_all(alloc: Global, kind: Kind, text: &str, out: &mut Bytes) -> Result<(), Fault> {
    for row in text.lines() {
        push_row(alloc, kind, row, out)?;
    }
    Ok(())
}
