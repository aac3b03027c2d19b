//! The table `runs`: `== NAME` and a manner begin a case, which is run over memory. It answers what each run wrote,
//! sent, kept and answered.

use crsm_app::{Silent, Status, run};
use crsm_base::Bytes;
use crsm_test_cases::{Case, Fault, left_of, parted};
use std::alloc::Global;
use std::io::{self, Print, Write};

/// Does what the words of a case say over its devices.
fn run_case(alloc: Global, case: &mut Case) -> Status {
    run(
        alloc,
        &case.words,
        &mut *case.input,
        &mut *case.output,
        &mut *case.port,
        &mut *case.disk,
        &mut *case.clock,
        &mut Silent,
    )
}

/// Returns how the run of a case ended, and what it wrote, sent and kept. Each case is given up before a way out, which
/// keeps the drops of its devices out of this proof.
fn end_of(alloc: Global, header: &str, text: &str) -> Result<(Status, Bytes), Fault> {
    let mut case = Case::read(alloc, header, text)?;
    let status = run_case(alloc, &mut case);
    Ok((status, left_of(alloc, case)?))
}

/// Writes what the run of a case wrote, sent, kept and answered.
fn show<R: AllocGlobal + Print>(rt: &R, case: &str) -> Result<(), Fault> {
    let (header, text) = parted(case, "\n")?;
    let (status, left) = end_of(rt.alloc(), header, text)?;
    println!(rt; "== {header}")?;
    io::writer(rt).write_all(left.as_slice())?;
    println!(rt; "status {}, {status}", status.number())?;
    Ok(())
}

/// Writes what the run of each case wrote, sent, kept and answered.
pub fn show_runs<R: AllocGlobal + Print>(rt: &R, cases: &str) -> Result<(), Fault> {
    for case in cases.split("== ").skip(1) {
        show(rt, case)?;
    }
    Ok(())
}
