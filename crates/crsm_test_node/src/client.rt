//! The table `client`: requests to a replica over a port in memory, how each ended, and what was written and sent.
//!
//! `client CLUSTER TO TURNS PORT OUTPUT CLIENT NUMBER OP / DATAGRAMS` is the command of a client,
//! `ask TO TURNS RESEND PORT CLIENT NUMBER OP / DATAGRAMS` the call below it,
//! `operate CLUSTER TO PORT MEMBERS / DATAGRAMS` the command of an operator, and
//! `lock TO TURNS PORT OUTPUT ACTION CLIENT NUMBER get KEY / DATAGRAMS` that of a client about a lock. PORT and OUTPUT
//! are the calls of the port and of the output that fail (`-`: none); each of DATAGRAMS waits at the port, as
//! `FROM:HEX`.

ghost use Rattle.std.specs.Prelude.{◌<◌, IfOk};
ghost use Rattle.crsm_base.specs.Spelling.{FitsCommand};

use crate::lock::push_lock_line;
use crate::packets::{port_of, push_sent};
use crate::words::{five_parts, number_of, parted, sink_of, three_parts};
use crsm_base::{Bytes, Command, NoMemory, Outcome};
use crsm_client::{AskError, ClientOrder, ask, client, operate_command};
use crsm_io::MemSink;
use crsm_port::MemPort;
use crsm_test_cases::Fault;
use crsm_text::{print_outcome, read_members, read_op};
use std::alloc::Global;
use std::str::from_utf8;

/// How many bytes an output has at most.
const ROOM: u64 = 4_096;

/// Reads a client's number, the command's, and its operation.
pub fn command_of(alloc: Global, text: &str) -> Result<Command, Fault>
    ensures { IfOk result (λ command. FitsCommand command) }
{
    let (client, number, text) = three_parts(text)?;
    let client = number_of(client)?;
    let number = number_of(number)?;
    let op = read_op(alloc, text.as_bytes())?;
    Ok(Command { client, number, op })
}

/// Returns an output that fails at these calls.
pub fn output_of(alloc: Global, writes: &str) -> Result<Box<MemSink>, Fault> {
    let mut output = sink_of(alloc, writes)?;
    output.reserve(ROOM)?;
    Ok(output)
}

/// Appends how a command ended, what was written, and what was sent.
pub fn push_ended(
    alloc: Global,
    end: &str,
    output: &MemSink,
    port: &MemPort,
    out: &mut Bytes,
) -> Result<(), Fault> {
    let written = from_utf8(output.as_slice()).unwrap_or("no text");
    let text = format!(in alloc; "{end} {written:?}")?;
    Ok(push_end(text.as_str(), port, out)?)
}

/// Appends how it ended, and what was sent, each datagram as `TO:HEX`.
fn push_end(end: &str, port: &MemPort, out: &mut Bytes) -> Result<(), NoMemory> {
    out.append(end.as_bytes())?;
    push_sent(out, port)
}

/// What the command of a client does, over a port and an output.
fn push_client(
    alloc: Global,
    order: &ClientOrder,
    cluster: u64,
    port: &mut MemPort,
    output: &mut MemSink,
    out: &mut Bytes,
) -> Result<(), Fault>
    requires { FitsCommand order.now.command }
{
    let end = client(alloc, order, cluster, port, output);
    let end = format!(in alloc; "{end:?}")?;
    push_ended(alloc, end.as_str(), output, port, out)
}

/// What a client wants of the replica at an address.
fn order_of(alloc: Global, to: &str, turns: &str, words: &str) -> Result<Box<ClientOrder>, Fault>
    ensures { IfOk result (λ order. FitsCommand order.value.command) }
{
    let to = number_of(to)?;
    let turns = number_of(turns)?;
    let command = command_of(alloc, words)?;
    Ok(Box::new(alloc, ClientOrder { to, turns, command })?)
}

/// The command of a client.
fn push_client_line(
    alloc: Global,
    words: &str,
    datagrams: &str,
    out: &mut Bytes,
) -> Result<(), Fault> {
    let (cluster, to, turns, calls, words) = five_parts(words)?;
    let (writes, words) = parted(words)?;
    let cluster = number_of(cluster)?;
    let order = order_of(alloc, to, turns, words)?;
    let mut port = port_of(alloc, calls, datagrams, ' ')?;
    let mut output = output_of(alloc, writes)?;
    push_client(alloc, &order, cluster, &mut port, &mut output, out)
}

fn outcome_text(alloc: Global, outcome: &Outcome) -> Result<String, Fault> {
    let mut text = Bytes::new(alloc);
    print_outcome(alloc, outcome, &mut text)?;
    let text = from_utf8(text.as_slice()).unwrap_or("no text");
    Ok(format!(in alloc; "{text:?}")?)
}

/// How asking ended.
fn answer_text(alloc: Global, answer: &Result<Outcome, AskError>) -> Result<String, Fault> {
    match answer {
        Ok(outcome) => outcome_text(alloc, outcome),
        Err(error) => Ok(format!(in alloc; "{error:?}")?),
    }
}

/// What asking comes to, over a port.
fn push_asked(
    alloc: Global,
    order: &ClientOrder,
    resend: u64,
    port: &mut MemPort,
    out: &mut Bytes,
) -> Result<(), Fault>
    requires fits { FitsCommand order.now.command }
    requires resend { 0 < resend }
{
    let answer = ask(alloc, port, order.to, &order.command, order.turns, resend);
    let end = answer_text(alloc, &answer);
    drop(answer);
    Ok(push_end(end?.as_str(), port, out)?)
}

/// The call below it.
fn push_ask_line(
    alloc: Global,
    words: &str,
    datagrams: &str,
    out: &mut Bytes,
) -> Result<(), Fault> {
    let (to, turns, resend, calls, words) = five_parts(words)?;
    let resend = number_of(resend)?.max(1);
    let order = order_of(alloc, to, turns, words)?;
    let mut port = port_of(alloc, calls, datagrams, ' ')?;
    push_asked(alloc, &order, resend, &mut port, out)
}

/// How the command of an operator ends.
fn operate_text(
    alloc: Global,
    to: u64,
    members: &str,
    cluster: u64,
    port: &mut MemPort,
) -> Result<String, Fault> {
    let members = read_members(alloc, members.as_bytes())?;
    let end = operate_command(alloc, to, &members, cluster, port);
    Ok(format!(in alloc; "{end:?}")?)
}

/// The command of an operator.
fn push_operate_line(
    alloc: Global,
    words: &str,
    datagrams: &str,
    out: &mut Bytes,
) -> Result<(), Fault> {
    let (cluster, to, words) = three_parts(words)?;
    let (calls, members) = parted(words)?;
    let cluster = number_of(cluster)?;
    let to = number_of(to)?;
    let mut port = port_of(alloc, calls, datagrams, ' ')?;
    let end = operate_text(alloc, to, members, cluster, &mut port)?;
    Ok(push_end(end.as_str(), &port, out)?)
}

/// Appends what comes of a line.
fn push_line(alloc: Global, line: &str, out: &mut Bytes) -> Result<(), Fault> {
    let (words, datagrams) = line.split_once(" / ").unwrap_or((line, ""));
    match parted(words)? {
        ("client", words) => push_client_line(alloc, words, datagrams, out)?,
        ("ask", words) => push_ask_line(alloc, words, datagrams, out)?,
        ("operate", words) => push_operate_line(alloc, words, datagrams, out)?,
        ("lock", words) => push_lock_line(alloc, words, datagrams, out)?,
        _ => return Err(Fault::Unreadable),
    }
    Ok(out.push(b'\n')?)
}

/// Appends what comes of all lines of the table.
pub fn push_all(alloc: Global, text: &str, out: &mut Bytes) -> Result<(), Fault> {
    for line in text.lines() {
        push_line(alloc, line, out)?;
    }
    Ok(())
}
