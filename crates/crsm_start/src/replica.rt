//! A replica over a socket and a log file, and its messages on standard error: a line once it is booted, one for each
//! thing that an operator wants to know, and one why it ends.

ghost use Rattle.std.specs.Prelude.{◌≡◌, IfOk};
ghost use Rattle.crsm_start.specs.Ports.{IsNodePort, without};

use crate::devices::{NoDevice, socket_at, status_over};
use crate::streams::stream_into;
use crsm_app::Status;
use crsm_base::NoMemory;
use crsm_clock::SystemClock;
use crsm_disk::FileDisk;
use crsm_ledger::Ledger;
use crsm_node::{BootReport, Reporter};
use crsm_port::UdpPort;
use crsm_port_flow::FlowPort;
use crsm_port_packets::PacketsPort;
use crsm_port_peers::PeerPort;
use crsm_replica_journal::{Journal, Line};
use crsm_shell::TurnResult;
use crsm_text_words::{NodeTask, Order, Task, read_words};
use std::alloc::Global;
use std::fmt::{self, Display, Formatter, Write};
use std::fs::{File, Files};
use std::io::{Eprint, Input, Print};
use std::net::Net;
use std::time::{Clock, Instant};

/// The identity of a replica, and the address at which it listens, IPv4 x 65,536 + port.
#[derive(Clone, Copy, Debug)]
struct NodeIdentity {
    me: u32,
    /// Number of replicas that the cluster began with.
    n: u32,
    /// The number of the cluster, 0 for none.
    cluster: u64,
    address: u64,
}

impl Display for NodeIdentity {
    fn fmt<W: Write>(&self, f: &mut Formatter<W>) -> fmt::Result {
        write!(f, "replica {} of {}", self.me, self.n)?;
        if self.cluster != 0 {
            write!(f, ", cluster {}", self.cluster)?;
        }
        Ok(())
    }
}

/// The line on standard error of a replica that was booted.
#[derive(Clone, Copy, Debug)]
struct StartLine {
    place: NodeIdentity,
    held: BootReport,
}

impl Display for StartLine {
    fn fmt<W: Write>(&self, f: &mut Formatter<W>) -> fmt::Result {
        let StartLine { place, held } = self;
        let [_, _, a, b, c, d, high, low] = place.address.to_be_bytes();
        let port = u16::from_be_bytes([high, low]);
        write!(f, "{place}: listens at {a}.{b}.{c}.{d}:{port}; ")?;
        let BootReport {
            bodies,
            epoch,
            executed,
            bytes: _,
        } = held;
        write!(
            f,
            "its log held {bodies} bodies, epoch {epoch}, {executed} executed"
        )
    }
}

/// The line on standard error of a replica that ends.
#[derive(Drop)]
struct Ended<Why> {
    place: NodeIdentity,
    why: Why,
}

impl<Why: Display> Display for Ended<Why> {
    fn fmt<W: Write>(&self, f: &mut Formatter<W>) -> fmt::Result {
        write!(f, "{}: ended: {}", self.place, self.why)
    }
}

/// A line on standard error of a replica that runs.
#[derive(Clone, Copy)]
struct JournalLine {
    place: NodeIdentity,
    line: Line,
}

impl Display for JournalLine {
    fn fmt<W: Write>(&self, f: &mut Formatter<W>) -> fmt::Result {
        write!(f, "{}: {}: {}", self.place, self.line.level(), self.line)
    }
}

/// Writes the content of a log, and the lines of the node's journal, to standard error. What fails is not written.
#[derive(Drop)]
struct StderrReporter<'a, R> {
    rt: &'a R,
    place: NodeIdentity,
    /// None before the boot.
    journal: Option<Journal>,
    /// When the last turn was noted. None before the first, and where the clock cannot be read.
    turned: Option<Instant>,
}

impl<R: Clock + Eprint> StderrReporter<'_, R> {
    /// Returns how long ago the last turn was noted, in microseconds, 0 where the clock cannot be read. A group is
    /// flushed right behind its last turn, so at its end that is how long the flush took. The clock is one that no one
    /// sets.
    fn since_turn(&self) -> u64 {
        let Some(turned) = self.turned else {
            return 0;
        };
        match turned.elapsed(self.rt) {
            Ok(time) => u64::try_from(time.as_micros()).unwrap_or(u64::MAX),
            Err(_) => 0,
        }
    }

    /// Writes the lines that the journal has made.
    fn write(&mut self) {
        let Some(journal) = &mut self.journal else {
            return;
        };
        if journal.lines().is_empty() {
            return;
        }
        for line in journal.lines() {
            let (place, line) = (self.place, *line);
            let _ = self.rt.eprintln(JournalLine { place, line });
        }
        journal.clear();
    }
}

impl<R: AllocGlobal + Clock + Eprint> Reporter for StderrReporter<'_, R> {
    fn booted(&mut self, held: BootReport) {
        let place = self.place;
        let _ = self.rt.eprintln(StartLine { place, held });
        self.journal = Some(Journal::new(
            self.rt.alloc(),
            place.me,
            held.bytes,
            held.epoch,
            held.executed,
        ));
    }

    fn turned(&mut self, turn: &TurnResult, datagram: &[u8], state: &Ledger) {
        if let Some(journal) = &mut self.journal {
            journal.turned(turn, datagram, state);
        }
        self.write();
        self.turned = Instant::now(self.rt).ok();
    }

    fn kept(&mut self) {
        let time = self.since_turn();
        if let Some(journal) = &mut self.journal {
            journal.kept(time);
        }
        self.write();
    }
}

/// The ports of a replica over its socket.
type NodePort<'a, R> = FlowPort<
    PeerPort<PacketsPort<UdpPort, SystemClock<'a, R>>>,
    SystemClock<'a, R>,
>;

/// Returns the node of the words, and the number of its cluster.
fn node_in(alloc: Global, words: &[String]) -> Result<(u64, NodeTask), Status> {
    match read_words(alloc, words) {
        Ok(order) => node_of(order),
        Err(_) => Err(Status::NoMemory),
    }
}

/// Returns the node of an order, and the number of its cluster.
fn node_of(order: Order) -> Result<(u64, NodeTask), Status> {
    let Order { cluster, task } = order;
    match task {
        Task::Node(node) => Ok((cluster, node)),
        other => {
            drop(other);
            Err(Status::Usage)
        }
    }
}

/// Returns whether the name is a symbolic link to a missing file. A log made through it would have its name in another
/// folder, which no sync of the log makes durable.
fn is_dangling<R: Files>(rt: &R, name: &str) -> bool {
    rt.symlink_metadata(name).is_ok() && rt.metadata(name).is_err()
}

/// Opens the log file with this name, to which nothing but the log may be written.
fn open_log<R: Files<File = File>>(rt: &R, name: &str) -> Result<FileDisk, NoDevice> {
    if let Some(stream) = stream_into(rt, name) {
        return Err(NoDevice::LogOf(stream));
    }
    if is_dangling(rt, name) {
        return Err(NoDevice::LogBehindLink);
    }
    FileDisk::open(rt, name).map_err(NoDevice::Log)
}

/// Returns the addresses of the others than the one at this address. `NoMemory` if memory runs out.
fn others_of(alloc: Global, peers: &[u64], own: u64) -> Result<Vec<u64>, NoMemory>
    ensures { IfOk result (λ others. others.items ≡ without own peers.now) }
{
    let mut others = Vec::new(alloc);
    for address in peers {
        if *address != own {
            others.push(*address)?;
        }
    }
    Ok(others)
}

/// Returns the ports of a replica over its socket: packets, the check of senders, and flow control. `NoMemory` if
/// memory runs out.
fn port_over<'a, R: AllocGlobal + Clock>(
    rt: &'a R,
    socket: UdpPort,
    place: NodeIdentity,
    peers: &[u64],
) -> Result<NodePort<'a, R>, NoMemory>
    ensures { IfOk result (IsNodePort socket place.me place.address peers.now) }
{
    let others = others_of(rt.alloc(), peers, place.address)?;
    let packets = PacketsPort::new(rt.alloc(), socket, SystemClock::new(rt), others.as_slice())?;
    let checked = PeerPort::new(packets, Vec::from_slice(rt.alloc(), peers)?);
    FlowPort::new(
        rt.alloc(),
        checked,
        SystemClock::new(rt),
        place.me as usize,
        peers,
    )
}

/// Runs a replica over a socket at its address and its log file. Packets of a replica are accepted only from its own
/// address.
fn run_at<R: AllocGlobal + Clock + Eprint + Files<File = File> + Input + Net + Print>(
    rt: &R,
    words: &[String],
    place: NodeIdentity,
    peers: &[u64],
) -> Result<Status, NoDevice> {
    let Ok(name) = format!(in rt.alloc(); "crsm-{}.log", place.me) else {
        return Ok(Status::NoMemory);
    };
    let mut disk = open_log(rt, name.as_str())?;
    let socket = socket_at(rt, place.address)?;
    let Ok(mut port) = port_over(rt, socket, place, peers) else {
        return Ok(Status::NoMemory);
    };
    let mut reporter = StderrReporter {
        rt,
        place,
        journal: None,
        turned: None,
    };
    let status = status_over(rt, words, &mut port, &mut disk, &mut reporter);
    drop(port);
    drop(disk);
    drop(reporter);
    Ok(status)
}

/// Runs the replica of the words, writes to standard error why it ends, and returns its status. If standard error goes
/// to the log, nothing is written.
pub(crate) fn run_replica_of<
    R: AllocGlobal + Clock + Eprint + Files<File = File> + Input + Net + Print,
>(rt: &R, words: &[String], me: u32, address: u64) -> Status {
    let (cluster, node) = match node_in(rt.alloc(), words) {
        Ok(found) => found,
        Err(status) => return status,
    };
    let place = NodeIdentity {
        me,
        n: node.n,
        cluster,
        address,
    };
    match run_at(rt, words, place, node.peers.as_slice()) {
        Ok(status) => {
            let _ = rt.eprintln(Ended { place, why: status });
            status
        }
        Err(error) => {
            let status = error.status();
            if error.may_be_told() {
                let _ = rt.eprintln(Ended { place, why: error });
            }
            status
        }
    }
}
