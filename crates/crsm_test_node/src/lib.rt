//! Writes what nodes, clients and their ports make of the lines of tables.
//!
//! The module of a table says what its lines are: `boot`, `node`, `journal`, `client`, and `upper_port` of the tables
//! `peer_port`, `packets_port` and `flow_port`.
#![tactic(auto)]

mod boot;
mod client;
mod devices;
mod disks;
mod journal;
mod lock;
mod node;
mod packets;
mod script;
mod tale;
mod tale_words;
mod traces;
mod upper_port;
mod words;

use crate::upper_port::Kind;
use crsm_base::Bytes;
use crsm_test_cases::Fault;
use std::alloc::Global;
use std::io::{self, Print, Write};

/// Appends what comes of the lines of the table of this name.
fn push_table(alloc: Global, name: &str, lines: &str, out: &mut Bytes) -> Result<(), Fault> {
    match name {
        "boot" => boot::push_all(alloc, lines, out),
        "node" => node::push_all(alloc, lines, out),
        "journal" => journal::push_all(alloc, lines, out),
        "client" => client::push_all(alloc, lines, out),
        "peer_port" => upper_port::push_all(alloc, Kind::Peers, lines, out),
        "packets_port" => upper_port::push_all(alloc, Kind::Packets, lines, out),
        "flow_port" => upper_port::push_all(alloc, Kind::Flow, lines, out),
        _ => Err(Fault::NoTable),
    }
}

/// Writes what comes of the lines of the table of this name.
///
/// # Errors
/// There is no such table, a line is not readable, memory ran out, or the output failed.
pub fn show_nodes<R: AllocGlobal + Print>(rt: &R, name: &str, lines: &str) -> Result<(), Fault> {
    let mut out = Bytes::new(rt.alloc());
    push_table(rt.alloc(), name, lines, &mut out)?;
    io::writer(rt).write_all(out.as_slice())?;
    Ok(())
}
