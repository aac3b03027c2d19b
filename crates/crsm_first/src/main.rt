//! A first look: `replay` by itself, which compiles in a fraction of the time of the whole program.
#![tactic(auto)]

use crsm_cmd_replay::replay;
use crsm_io::{StdSink, StdSource};
use crsm_port_lines::InputEnd;
use std::io;
use std::process::ExitCode;

fn main(rt: HostRuntime) -> ExitCode {
    let mut input = StdSource::new(rt.reader());
    let mut output = StdSink::new(io::writer(&rt));
    match replay(rt.alloc(), &mut input, &mut output) {
        InputEnd::Done => ExitCode::SUCCESS,
        _ => ExitCode::FAILURE,
    }
}
