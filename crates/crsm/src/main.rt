//! The program: its commands over the real streams.
#![tactic(auto)]

use std::process::ExitCode;

fn main(rt: HostRuntime) -> ExitCode {
    crsm_start::start(&rt)
}
