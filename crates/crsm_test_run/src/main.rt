//! Without words, reads tables of tests from the standard input, writes what each leads to, and then tries nodes as
//! processes; with words it is one of the processes that this trial starts: a node, its client or a replay.
//!
//! A line `table NAME` names the table of the lines behind it, up to the next such line, and is written through. What
//! its lines are says the module of its name, here or in `crsm_test_text` or `crsm_test_node`.
#![tactic(auto)]

mod delay;
mod runs;
mod soak;

use crate::delay::show_delays;
use crate::runs::show_runs;
use crate::soak::show_soaks;
use crsm_test_cases::{Fault, Table, read_tables};
use crsm_test_node::show_nodes;
use crsm_test_text::show_texts;
use std::env::{self, Env};
use std::fmt::Display;
use std::io::{self, Print};
use std::process::ExitCode;

/// Whether words were given: then this process is one that the trial started.
fn has_words<R: AllocGlobal + Env>(rt: &R) -> bool {
    match env::args(rt) {
        Ok(words) => words.count() > 1,
        Err(_) => false,
    }
}

/// Writes what the cases of a table lead to.
fn show_cases<R: AllocGlobal + Print>(rt: &R, name: &str, cases: &str) -> Result<(), Fault> {
    match name {
        "runs" => show_runs(rt, cases),
        "soak" => show_soaks(rt, cases),
        "delay" => show_delays(rt, cases),
        _ => match crsm_test_text::Table::named(name) {
            Some(table) => Ok(show_texts(rt, table, cases)?),
            None => show_nodes(rt, name, cases),
        },
    }
}

/// Writes the heading of a table, and what its cases lead to.
fn show_table<R: AllocGlobal + Print>(rt: &R, table: &Table) -> Result<(), Fault> {
    println!(rt; "table {}", table.name)?;
    show_cases(rt, table.name.as_str(), table.cases.as_str())
}

/// Reads tables from the standard input, and writes what the cases of each lead to.
fn show_tables(rt: &HostRuntime) -> Result<(), Fault> {
    let alloc = rt.alloc();
    let text = io::read_to_string(alloc, rt.reader())?;
    for table in &read_tables(alloc, text.as_str())? {
        show_table(rt, table)?;
    }
    Ok(())
}

/// Whether a part of the tests came to its end. Else its fault is written to standard error.
fn is_done<F: Display + Drop>(rt: &HostRuntime, part: Result<(), F>) -> bool {
    match part {
        Ok(()) => true,
        Err(fault) => {
            let _ = rt.eprintln(fault);
            false
        }
    }
}

fn main(rt: HostRuntime) -> ExitCode {
    if has_words(&rt) {
        return crsm_start::start(&rt);
    }
    if is_done(&rt, show_tables(&rt)) && is_done(&rt, crsm_test_processes::trial(&rt)) {
        ExitCode::SUCCESS
    } else {
        ExitCode::FAILURE
    }
}
