//! The line of a run.

use crate::disks::{disk_with, failing_disk};
use crate::packets::port_of;
use crate::words::{bytes_of, five_parts, number_of, numbers_of, sink_of, small_of, three_parts};
use crsm_clock::ListClock;
use crsm_disk::MemDisk;
use crsm_io::MemSink;
use crsm_node::{NodeEnd, NodeOrder, Reporter, run_node};
use crsm_port::MemPort;
use crsm_test_cases::Fault;
use std::alloc::Global;

/// The most bytes of a sheet.
const SHEET_BYTES: u64 = 4_194_304;

/// A node that is to run, and what it runs over.
#[derive(Drop)]
pub struct Script {
    order: NodeOrder,
    clock: Box<ListClock>,
    pub port: Box<MemPort>,
    pub sheet: Box<MemSink>,
    pub disk: Box<MemDisk>,
}

impl Script {
    /// Reads a line, where the run before left these bytes of its log.
    pub fn read(alloc: Global, line: &str, before: &[u8]) -> Result<Box<Script>, Fault> {
        let (me, n, turns, peers, words) = five_parts(line)?;
        let (cluster, readings, datagrams, sends, words) = five_parts(words)?;
        let (calls, writes, file) = three_parts(words)?;
        let script = Script {
            order: order_of(alloc, me, n, turns, peers, cluster)?,
            clock: clock_of(alloc, readings)?,
            port: port_of(alloc, sends, datagrams, ',')?,
            sheet: sheet_of(alloc, writes)?,
            disk: disk_of(alloc, calls, file, before)?,
        };
        Ok(Box::new(alloc, script)?)
    }

    /// Runs the node.
    pub fn run<R: Reporter>(&mut self, alloc: Global, reporter: &mut R) -> NodeEnd {
        run_node(
            alloc,
            &self.order,
            &mut *self.port,
            &mut *self.disk,
            &mut *self.clock,
            &mut *self.sheet,
            reporter,
        )
    }
}

fn order_of(
    alloc: Global,
    me: &str,
    n: &str,
    turns: &str,
    peers: &str,
    cluster: &str,
) -> Result<NodeOrder, Fault> {
    let me = small_of(me)?;
    let n = small_of(n)?;
    let turns = number_of(turns)?;
    let cluster = number_of(cluster)?;
    let peers = numbers_of(alloc, peers)?;
    NodeOrder::new(me, n, turns, peers, cluster).ok_or(Fault::Unreadable)
}

fn clock_of(alloc: Global, readings: &str) -> Result<Box<ListClock>, Fault> {
    let readings = numbers_of(alloc, readings)?;
    Ok(Box::new(alloc, ListClock::new(alloc, &readings)?)?)
}

fn sheet_of(alloc: Global, writes: &str) -> Result<Box<MemSink>, Fault> {
    let mut sheet = sink_of(alloc, writes)?;
    sheet.reserve(SHEET_BYTES)?;
    Ok(sheet)
}

/// A disk with the bytes of a file, `same` for those before, whose calls of a word fail.
fn disk_of(alloc: Global, calls: &str, file: &str, before: &[u8]) -> Result<Box<MemDisk>, Fault> {
    let fails = numbers_of(alloc, calls)?;
    match file {
        "-" => failing_disk(alloc, &fails),
        "same" => disk_with(alloc, before, &later(alloc, &fails)?),
        _ => disk_with(alloc, &bytes_of(alloc, file)?, &later(alloc, &fails)?),
    }
}

/// The numbers of the calls that fail, behind the two that write the file.
fn later(alloc: Global, fails: &[u64]) -> Result<Vec<u64>, Fault> {
    let mut later = Vec::new(alloc);
    for call in fails {
        later.push(call.wrapping_add(2))?;
    }
    Ok(later)
}
