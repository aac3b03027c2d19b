//! The nodes, the client and what replays a sheet, each a process of the program that runs.

use crate::fault::Fault;
use crsm_port::UdpPort;
use std::alloc::{AllocError, Global};
use std::env;
use std::fs::{self, File};
use std::io::{self, ErrorKind};
use std::process::{Child, Command, ExitStatus, Processes, Stdio};
use std::rt::Files;

/// How many nodes there are.
pub(crate) const NODES: usize = 3;

/// How many turns each takes: some seconds.
const NODE_TURNS: &str = "10000";

/// How many turns the client waits for its reply.
const CLIENT_TURNS: &str = "5000";

/// The local host, where the system chooses the port.
const LOCAL: u64 = 0x7f00_0001 << 16;

/// A socket of the local host, in a box, whose drop is a function of its own.
fn local_socket(rt: &HostRuntime) -> Result<Box<UdpPort>, Fault> {
    let port = UdpPort::bind(rt.alloc(), rt, LOCAL)?;
    Ok(Box::new(rt.alloc(), port)?)
}

/// The addresses of sockets.
fn addresses_of(alloc: Global, ports: &[Box<UdpPort>]) -> Result<Vec<u64>, Fault> {
    let mut addresses = Vec::new(alloc);
    for port in ports {
        let Some(address) = port.address() else {
            return Err(Fault::NoAddress);
        };
        addresses.push(address)?;
    }
    Ok(addresses)
}

/// Free addresses of the local host. All are bound at one time, so that no two are alike.
pub(crate) fn free_addresses(rt: &HostRuntime) -> Result<Vec<u64>, Fault> {
    let mut ports = Vec::new(rt.alloc());
    for _ in 0..NODES {
        ports.push(local_socket(rt)?)?;
    }
    addresses_of(rt.alloc(), &ports)
}

/// The word for an address of the local host.
fn address_word<R: AllocGlobal>(rt: &R, address: u64) -> Result<String, Fault> {
    Ok(format!(in rt.alloc(); "127.0.0.1:{}", address & 0xffff)?)
}

/// The word for all of them.
fn peers_word<R: AllocGlobal>(rt: &R, peers: &[u64]) -> Result<String, Fault> {
    let mut word = String::new(rt.alloc());
    for &peer in peers {
        if !word.is_empty() {
            word.push(',')?;
        }
        word.push_str(address_word(rt, peer)?.as_str())?;
    }
    Ok(word)
}

/// The word for a number.
fn number_word<R: AllocGlobal>(rt: &R, number: usize) -> Result<String, Fault> {
    Ok(format!(in rt.alloc(); "{number}")?)
}

/// Removes a file, if it is there.
fn remove<R: Files>(rt: &R, name: &str) -> Result<(), Fault> {
    match fs::remove_file(rt, name) {
        Err(error) if error.kind() != ErrorKind::NotFound => Err(Fault::Io),
        _ => Ok(()),
    }
}

/// Returns the command that starts the program that runs, with these words.
fn command_of<R: AllocGlobal + Files>(rt: &R, words: &[&str]) -> Result<Box<Command>, Fault> {
    let mut command = bare_command(rt)?;
    add_words(&mut command, words)?;
    Ok(command)
}

fn bare_command<R: AllocGlobal + Files>(rt: &R) -> Result<Box<Command>, Fault> {
    let program = env::current_exe(rt)?;
    let command = Command::new(rt.alloc(), program.as_path())?;
    Ok(Box::new(rt.alloc(), command)?)
}

fn add_words(command: &mut Command, words: &[&str]) -> Result<(), AllocError> {
    for &word in words {
        command.arg(word)?;
    }
    Ok(())
}

/// Returns the command of a node.
fn node_command<R: AllocGlobal + Files>(
    rt: &R,
    me: usize,
    peers: &str,
) -> Result<Box<Command>, Fault> {
    let number = number_word(rt, me)?;
    let size = number_word(rt, NODES)?;
    let words = ["node", number.as_str(), size.as_str(), NODE_TURNS, peers];
    command_of(rt, &words)
}

/// Removes the log of a node.
fn remove_log<R: AllocGlobal + Files>(rt: &R, me: usize) -> Result<(), Fault> {
    let name = format!(in rt.alloc(); "crsm-{me}.log")?;
    remove(rt, name.as_str())
}

/// Creates the file of a node's sheet.
fn create_sheet<R: AllocGlobal + Files<File = File>>(rt: &R, me: usize) -> Result<File, Fault> {
    let name = format!(in rt.alloc(); "sheet-{me}")?;
    Ok(File::create(rt, name.as_str())?)
}

/// Starts a node on an empty log, with its sheet in a file.
fn start_node<R: AllocGlobal + Files<File = File> + Processes>(
    rt: &R,
    me: usize,
    peers: &str,
) -> Result<Child<R::Started>, Fault> {
    remove_log(rt, me)?;
    let mut command = node_command(rt, me, peers)?;
    command.stdout(create_sheet(rt, me)?);
    Ok(command.spawn(rt)?)
}

/// Starts all nodes.
pub(crate) fn start_nodes<R: AllocGlobal + Files<File = File> + Processes>(
    rt: &R,
    peers: &[u64],
) -> Result<Vec<Child<R::Started>>, Fault> {
    let word = peers_word(rt, peers)?;
    let mut nodes = Vec::new(rt.alloc());
    for me in 0..NODES {
        nodes.push(start_node(rt, me, word.as_str())?)?;
    }
    Ok(nodes)
}

/// Starts a process, waits until it has ended, and gives whether that was well and what it wrote.
fn ended<R: AllocGlobal + Processes>(
    rt: &R,
    command: &mut Command,
) -> Result<(bool, String), Fault> {
    let process = command.stdout(Stdio::piped()).spawn(rt)?;
    let output = process.wait_with_output(rt.alloc())?;
    let went_well = output.status.success();
    let text = String::from_utf8_lossy(rt.alloc(), output.stdout.as_slice());
    drop(output);
    Ok((went_well, text?))
}

/// Has a client ask the node at this address to put a value, and gives what it writes.
pub(crate) fn ask<R: AllocGlobal + Files + Processes>(
    rt: &R,
    address: u64,
) -> Result<String, Fault> {
    let to = address_word(rt, address)?;
    let words = [
        "client",
        to.as_str(),
        CLIENT_TURNS,
        "7",
        "1",
        "put",
        "61",
        "62",
    ];
    let mut command = command_of(rt, &words)?;
    let (_, answer) = ended(rt, &mut command)?;
    Ok(answer)
}

/// Returns the command that replays the sheet of a node.
fn replay_command<R: AllocGlobal + Files>(rt: &R, me: usize) -> Result<Box<Command>, Fault> {
    let number = number_word(rt, me)?;
    let size = number_word(rt, NODES)?;
    let words = ["replay-node", number.as_str(), size.as_str()];
    command_of(rt, &words)
}

/// Replays the sheet of a node, and gives whether that ended well and what is written.
pub(crate) fn replay<R: AllocGlobal + Files<File = File> + Processes>(
    rt: &R,
    me: usize,
    sheet: &str,
) -> Result<(bool, String), Fault> {
    let mut command = replay_command(rt, me)?;
    command.stdin(File::open(rt, sheet)?);
    ended(rt, &mut command)
}

/// Waits until a node has ended, and gives its status.
fn end_node<R: Processes>(mut node: Child<R::Started>) -> io::Result<ExitStatus> {
    let status = node.wait();
    drop(node);
    status
}

/// Waits until all nodes have ended, and gives their statuses.
pub(crate) fn end_nodes<R: AllocGlobal + Processes>(
    rt: &R,
    nodes: Vec<Child<R::Started>>,
) -> Result<Vec<ExitStatus>, Fault> {
    let mut statuses = Vec::new(rt.alloc());
    for node in nodes {
        statuses.push(end_node::<R>(node)?)?;
    }
    Ok(statuses)
}
