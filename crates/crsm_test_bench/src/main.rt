//! Does one kind of work a number of times, to be timed from outside, and prints a count of what was done. Work on a
//! socket prints the socket's number first.
#![tactic(auto)]

mod fault;
mod logs;
mod page;
mod port;
mod reports;
mod request;
mod rows;
mod spell;

use crate::fault::Fault;
use crate::request::{Request, Work};
use std::alloc::Global;
use std::env;

const USAGE: &str =
    "usage: crsm_test_bench write|read|store|store_in_order|ledger|collect|empty|hurried|echo SIZE ROUNDS";

/// What the command line asks for; `None` where it asks for no work.
fn asked(rt: &(impl env::Env + Alloc)) -> Result<Option<Request>, Fault> {
    let mut words = env::args(rt)?;
    let _program = words.next();
    let (Some(work), Some(size), Some(rounds)) = (words.next(), words.next(), words.next()) else {
        return Ok(None);
    };
    Ok(Request::read(work.as_str(), size.as_str(), rounds.as_str()))
}

/// Waits on a socket whose number is printed, and counts what was done.
fn listen(rt: &HostRuntime, kind: port::Wait, size: u32, rounds: u32) -> Result<u64, Fault> {
    let mut socket = port::bound(rt.alloc(), rt)?;
    println!(rt; "{}", port::number_of(&socket)?)?;
    port::receive(&mut socket, kind, size, rounds)
}

/// Does the work, and counts what was done.
fn run(rt: &HostRuntime, request: Request) -> Result<u64, Fault> {
    let Request { work, size, rounds } = request;
    let alloc: Global = rt.alloc();
    match work {
        Work::Write => page::write(alloc, size, rounds),
        Work::Read => page::read(alloc, size, rounds),
        Work::Store(visits) => rows::apply(alloc, visits, size, rounds),
        Work::Ledger => logs::recover(alloc, size, rounds),
        Work::Collect => reports::collect(alloc, size, rounds),
        Work::Port(kind) => listen(rt, kind, size, rounds),
    }
}

fn main(rt: HostRuntime) -> Result<(), Fault> {
    match asked(&rt)? {
        None => println!(rt; "{USAGE}")?,
        Some(request) => println!(rt; "{}", run(&rt, request)?)?,
    }
    Ok(())
}
