//! The table `delay`: `== NAME` begins a plan, whose lines follow, and `== NAME cut` one that comes without its last
//! line feed. It answers the moments at which the replicas execute the command of each, and how the reading ended.

use crsm_delay::delay_times;
use crsm_io::{MemSink, MemSource};
use crsm_test_cases::{Fault, parted, sink_of, source_of};
use std::alloc::{AllocError, Global};
use std::io::Print;
use std::str::from_utf8;

/// Returns the moments of a plan, and how the reading ended.
fn times_over(
    alloc: Global,
    source: &mut MemSource,
    sink: &mut MemSink,
) -> Result<String, AllocError> {
    let ending = delay_times(alloc, source, sink);
    let written = from_utf8(sink.as_slice()).unwrap_or("no text\n");
    format!(in alloc; "{written}{ending:?}")
}

/// Returns the same over devices of its own.
fn times_of(alloc: Global, header: &str, plan: &str) -> Result<String, Fault> {
    let mut sink = sink_of(alloc, &[])?;
    let mut source = source_of(alloc, header, plan, &[])?;
    let times = times_over(alloc, &mut source, &mut sink);
    drop(source);
    drop(sink);
    Ok(times?)
}

/// Writes the moments of each plan, and how its reading ended.
pub fn show_delays<R: AllocGlobal + Print>(rt: &R, cases: &str) -> Result<(), Fault> {
    for case in cases.split("== ").skip(1) {
        let (header, plan) = parted(case, "\n")?;
        let told = times_of(rt.alloc(), header, plan)?;
        println!(rt; "== {header}\n{told}")?;
    }
    Ok(())
}
