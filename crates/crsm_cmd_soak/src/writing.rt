//! The soak from its first event to the text that it writes.

ghost use Rattle.std.specs.Prelude.{◌≡◌, ◌≢◌, ◌≤◌, IfOk};
ghost use Rattle.crsm_port_faults.specs.Counts.{Rose};
ghost use Rattle.crsm_io.specs.Streams.{Puts, PutsPrefix};
ghost use Rattle.crsm_cmd_soak.specs.Soak.{drawn};
ghost use Rattle.crsm_cmd_soak.specs.Text.{soak_text};
ghost use Rattle.crsm_world.specs.Laws.{IsLawful};
ghost use Rattle.crsm_world.specs.Schedule.{acts_of};

use crate::running::run_all;
use crate::text::{push_finals, text_of};
use crsm_base::{Bytes, NoMemory};
use crsm_io::{Sink, put_all};
use std::alloc::Global;

/// The end of a soak.
#[derive(Clone, Copy, Debug, PartialEq, Eq)]
pub enum SoakEnd {
    /// All events were executed, or the world was full before one, and the summary was written.
    Done,
    /// A prefix of the summary was written.
    WriteFault,
    /// Memory ran out.
    NoMemory,
}

/// Returns the text of a generated run.
fn run_to_text(alloc: Global, number: u64, n: u32, steps: u64) -> Result<Bytes, NoMemory>
    requires some { 1 ≤ n }
    requires most { n ≤ 15 }
    ensures text { IfOk result (λ text. text ≡ soak_text (drawn number n steps)) }
    ensures laws { IfOk result (λ text. IsLawful n (acts_of (drawn number n steps))) }
{
    let mut run = run_all(alloc, number, n, steps)?;
    let finals = run.world.finals()?;
    run.summary.end(finals.as_slice());
    let mut text = text_of(alloc, &run.summary)?;
    push_finals(&mut text, finals.as_slice())?;
    Ok(text)
}

/// Runs up to `steps` events generated from the seed `number` for a cluster of `n` replicas, and writes the summary of
/// the run and the final lines. Equal arguments give equal bytes. Returns how that ended.
pub fn soak<O: Sink>(alloc: Global, number: u64, n: u32, steps: u64, output: &mut O) -> SoakEnd
    requires some { 1 ≤ n }
    requires most { n ≤ 15 }
    // The bytes written: all of the text, or a prefix; none if memory ran out.
    ensures done { result ≡ SoakEnd.Done → Puts (O.written output.old) (O.written output.new) (soak_text (drawn number n steps)) }
    ensures prefix { PutsPrefix (O.written output.old) (O.written output.new) (soak_text (drawn number n steps)) }
    ensures unwritten { result ≡ SoakEnd.NoMemory → O.written output.new ≡ O.written output.old }

    // A fault is returned only if it was counted.
    ensures write_fault { result ≡ SoakEnd.WriteFault → Rose (O.faults output.old) (O.faults output.new) }

    // All laws hold for the run.
    ensures laws { result ≢ SoakEnd.NoMemory → IsLawful n (acts_of (drawn number n steps)) }
{
    let Ok(text) = run_to_text(alloc, number, n, steps) else {
        return SoakEnd::NoMemory;
    };
    match put_all(output, text.as_slice()) {
        Ok(()) => SoakEnd::Done,
        Err(_) => SoakEnd::WriteFault,
    }
}
