//! The commands on a plan, from its beginning to its end.

ghost use Rattle.std.specs.Prelude.{◌≡◌, ◌≢◌, ◌<◌, ◌≤◌, ◌+◌, ℕ, List, Some, length};
ghost use Rattle.crsm_port_faults.specs.Counts.{Rose};
ghost use Rattle.crsm_port_lines.specs.Exact.{Exact};
ghost use Rattle.crsm_port_lines.specs.Run.{Ran};
ghost use Rattle.crsm_delay.specs.Exactly.{EndsExactly};
ghost use Rattle.crsm_delay.specs.declared.handling.Wanted.{Wanted as Asked};
ghost use Rattle.crsm_delay.specs.Reading.{plans_of, schedule_of, times_of};
ghost use Rattle.crsm_law_timing.specs.Commits.{CommandsCommitInTime, TimelinesArePossible};

use crate::handling::{PlanCause, Wanted};
use crate::reader::PlanReader;
use crsm_io::{Sink, Source};
use crsm_law_timing::{commands_commit_in_time, timelines_are_possible};
use crsm_port_lines::{InputEnd, MAX_INPUT_BYTES, run_lines};
use std::alloc::Global;

/// Reads a plan to its end, and writes the wanted text. Returns how that ended.
fn run_plan<I: Source, O: Sink>(
    alloc: Global,
    wanted: Wanted,
    input: &mut I,
    output: &mut O,
) -> InputEnd<PlanCause>
    // The bytes read and written, by how it ended.
    ensures ran { Ran (plans_of wanted) result (I.left input.old) (I.left input.new) (O.written output.old) (O.written output.new) }

    // A fault is returned only if it was counted.
    ensures read_fault { result ≡ InputEnd.ReadFault → Rose (I.faults input.old) (I.faults input.new) }
    ensures write_fault { result ≡ InputEnd.WriteFault → Rose (O.faults output.old) (O.faults output.new) }

    // If no fault was counted, a whole plan is done, the first bad line is refused, and more than the limit is too
    // long.
    ensures exactly { EndsExactly wanted (I.left input.old) (I.faults input.old) (I.faults input.new) (O.faults output.old) (O.faults output.new) result }

    // An input beyond the limit is never done, and one within it is never too long.
    ensures limit { (bytes : List ℕ) → I.left input.old ≡ Some bytes → MAX_INPUT_BYTES < length bytes → result ≢ InputEnd.Done }
    ensures within { (bytes : List ℕ) → I.left input.old ≡ Some bytes → length bytes ≤ MAX_INPUT_BYTES → result ≢ InputEnd.InputTooLong }
{
    run_lines(alloc, PlanReader::new(alloc, wanted), input, output)
}

/// Reads a plan to its end, and writes the moment at which each replica executes the command, in microseconds. Returns
/// how that ended.
pub fn delay_times<I: Source, O: Sink>(
    alloc: Global,
    input: &mut I,
    output: &mut O,
) -> InputEnd<PlanCause>
    // The bytes read and written, by how it ended.
    ensures ran { Ran times_of result (I.left input.old) (I.left input.new) (O.written output.old) (O.written output.new) }

    // A fault is returned only if it was counted.
    ensures read_fault { result ≡ InputEnd.ReadFault → Rose (I.faults input.old) (I.faults input.new) }
    ensures write_fault { result ≡ InputEnd.WriteFault → Rose (O.faults output.old) (O.faults output.new) }

    // If no fault was counted, a whole plan is done, the first bad line is refused, and more than the limit is too
    // long.
    ensures exactly { EndsExactly Wanted.Times (I.left input.old) (I.faults input.old) (I.faults input.new) (O.faults output.old) (O.faults output.new) result }

    // An input beyond the limit is never done, and one within it is never too long.
    ensures limit { (bytes : List ℕ) → I.left input.old ≡ Some bytes → MAX_INPUT_BYTES < length bytes → result ≢ InputEnd.Done }
    ensures within { (bytes : List ℕ) → I.left input.old ≡ Some bytes → length bytes ≤ MAX_INPUT_BYTES → result ≢ InputEnd.InputTooLong }

    // The moments written are those of the protocol: each timeline of a plan is possible, and in it each replica
    // executes the command once, at its moment.
    ensures possible { TimelinesArePossible }
    ensures moments { CommandsCommitInTime }
{
    timelines_are_possible();
    commands_commit_in_time();
    run_plan(alloc, Wanted::Times, input, output)
}

/// Reads a plan to its end, and writes the schedule of its timeline, which can be run. Returns how that ended.
pub fn delay<I: Source, O: Sink>(
    alloc: Global,
    input: &mut I,
    output: &mut O,
) -> InputEnd<PlanCause>
    // The bytes read and written, by how it ended.
    ensures ran { Ran schedule_of result (I.left input.old) (I.left input.new) (O.written output.old) (O.written output.new) }

    // A fault is returned only if it was counted.
    ensures read_fault { result ≡ InputEnd.ReadFault → Rose (I.faults input.old) (I.faults input.new) }
    ensures write_fault { result ≡ InputEnd.WriteFault → Rose (O.faults output.old) (O.faults output.new) }

    // If no fault was counted, a whole plan is done, the first bad line is refused, and more than the limit is too
    // long.
    ensures exactly { EndsExactly Wanted.Schedule (I.left input.old) (I.faults input.old) (I.faults input.new) (O.faults output.old) (O.faults output.new) result }

    // An input beyond the limit is never done, and one within it is never too long.
    ensures limit { (bytes : List ℕ) → I.left input.old ≡ Some bytes → MAX_INPUT_BYTES < length bytes → result ≢ InputEnd.Done }
    ensures within { (bytes : List ℕ) → I.left input.old ≡ Some bytes → length bytes ≤ MAX_INPUT_BYTES → result ≢ InputEnd.InputTooLong }

    // In the timeline written each replica executes the command once, at the moment of the plan.
    ensures moments { CommandsCommitInTime }
{
    commands_commit_in_time();
    run_plan(alloc, Wanted::Schedule, input, output)
}

/// States that the lines alone determine what is read and what is refused, so that a plan is done and a bad line is
/// refused exactly. It runs no code.
pub fn plans_are_exact()
    ensures { (wanted : Asked) → Exact (plans_of wanted) }
{}
