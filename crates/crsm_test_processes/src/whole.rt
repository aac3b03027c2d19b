//! The trial: nodes and a client as processes, and what their sheets say of each other.

use crate::fault::Fault;
use crate::processes::{NODES, ask, end_nodes, free_addresses, replay, start_nodes};
use crate::sheets::{Took, taken_from};
use std::fs::{self, File};
use std::io::Print;
use std::process::{ExitStatus, Processes};
use std::rt::Files;

/// The sheets of all nodes, and what each is replayed to.
#[derive(Drop)]
struct Replayed {
    sheets: Vec<String>,
    texts: Vec<String>,
}

/// Replays the sheet of a node, and says how that ended.
fn replay_into<R: AllocGlobal + Files<File = File> + Print + Processes>(
    rt: &R,
    me: usize,
    all: &mut Replayed,
) -> Result<(), Fault> {
    let name = format!(in rt.alloc(); "sheet-{me}")?;
    all.sheets.push(fs::read_to_string(rt, name.as_str())?)?;
    let (went_well, text) = replay(rt, me, name.as_str())?;
    all.texts.push(text)?;
    println!(rt; "node {me} is replayed: {went_well}")?;
    Ok(())
}

/// Replays the sheet of each node, and says how that ended.
fn replay_all<R: AllocGlobal + Files<File = File> + Print + Processes>(
    rt: &R,
) -> Result<Replayed, Fault> {
    let mut all = Replayed {
        sheets: Vec::new(rt.alloc()),
        texts: Vec::new(rt.alloc()),
    };
    for me in 0..NODES {
        replay_into(rt, me, &mut all)?;
    }
    Ok(all)
}

/// Says what each node took from the others.
fn compare<R: AllocGlobal + Print>(rt: &R, peers: &[u64], all: &Replayed) -> Result<(), Fault> {
    for (me, sheet) in all.sheets.iter().enumerate() {
        for (from, text) in all.texts.iter().enumerate() {
            let Some(address) = peers.get(from) else {
                continue;
            };
            if from != me {
                let said = match taken_from(
                    rt.alloc(),
                    sheet.as_str(),
                    *address,
                    text.as_str(),
                    me,
                )? {
                    Took::Nothing => "nothing",
                    Took::Sent => "what it sent",
                    Took::More => "more than it sent",
                };
                println!(rt; "node {me} took from {from}: {said}")?;
            }
        }
    }
    Ok(())
}

/// Has a client ask the first node, and says what it was answered.
fn ask_first<R: AllocGlobal + Files<File = File> + Print + Processes>(
    rt: &R,
    peers: &[u64],
) -> Result<(), Fault> {
    let Some(first) = peers.first() else {
        return Err(Fault::NoAddress);
    };
    let answer = ask(rt, *first)?;
    print!(rt; "client: {}", answer.as_str())?;
    Ok(())
}

/// Says how the nodes ended.
fn tell_ends<R: AllocGlobal + Print>(rt: &R, statuses: &[ExitStatus]) -> Result<(), Fault> {
    for (me, status) in statuses.iter().enumerate() {
        println!(rt; "node {me}: {}", status.success())?;
    }
    Ok(())
}

/// Runs the nodes and the client to their ends. Nodes of which the client's process failed are waited for, too.
fn run_all<R: AllocGlobal + Files<File = File> + Print + Processes>(
    rt: &R,
    peers: &[u64],
) -> Result<(), Fault> {
    let nodes = start_nodes(rt, peers)?;
    let asked = ask_first(rt, peers);
    let statuses = end_nodes(rt, nodes);
    asked?;
    tell_ends(rt, &statuses?)
}

/// Runs three nodes and a client of theirs over the loopback network, and says on standard output what the client was
/// answered, how the nodes ended and what each took from the others. Each is a process of the program that runs, which
/// has to execute the words of a command. The sheets and the logs of the nodes stay in the current folder.
///
/// # Errors
/// A process, a socket, a file or the output that fails ends it.
pub fn trial(rt: &HostRuntime) -> Result<(), Fault> {
    let peers = free_addresses(rt)?;
    run_all(rt, &peers)?;
    let all = replay_all(rt)?;
    compare(rt, &peers, &all)
}
