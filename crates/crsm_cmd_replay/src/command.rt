//! The replay of a schedule from its beginning to its end.

ghost use Rattle.std.specs.Prelude.{◌≡◌, ◌≢◌, ◌<◌, ◌≤◌, ◌+◌, ℕ, List, Some, length};
ghost use Rattle.crsm_port_faults.specs.Counts.{Rose};
ghost use Rattle.crsm_port_lines.specs.Exact.{IsDone, IsTooLong, WhereFaultless};
ghost use Rattle.crsm_sim_schedule.specs.State.{count_of};
ghost use Rattle.crsm_cmd_replay.specs.Run.{Ran, IsRefused, WhereBad, WhereSchedule, WhereTooLong};

use crate::simulation::ClusterRun;
use crsm_io::{Sink, Source};
use crsm_port_lines::{InputEnd, MAX_INPUT_BYTES};
use crsm_sim_schedule::{Cause, replay_over};
use std::alloc::Global;

/// Reads a schedule to its end, and writes its transcript and final lines. Returns how that ended.
pub fn replay<I: Source, O: Sink>(alloc: Global, input: &mut I, output: &mut O) -> InputEnd<Cause>
    // The bytes read and written, by how it ended.
    ensures ran { Ran result (I.left input.old) (I.left input.new) (O.written output.old) (O.written output.new) }

    // A fault is returned only if it was counted.
    ensures read_fault { result ≡ InputEnd.ReadFault → Rose (I.faults input.old) (I.faults input.new) }
    ensures write_fault { result ≡ InputEnd.WriteFault → Rose (O.faults output.old) (O.faults output.new) }

    // A schedule within the limit is done, if no fault was counted.
    ensures complete { WhereSchedule (I.left input.old) (λ s. WhereFaultless (I.faults input.old) (I.faults input.new) (O.faults output.old) (O.faults output.new) (IsDone result)) }

    // An input with a bad line within the limit is refused for the first one, if no fault was counted.
    ensures refused { WhereBad (I.left input.old) (λ read cause. WhereFaultless (I.faults input.old) (I.faults input.new) (O.faults output.old) (O.faults output.new) (IsRefused (count_of read + 1) cause result)) }

    // An input whose lines are good up to the limit and that has more bytes is too long, if no fault was counted.
    ensures too_long { WhereTooLong (I.left input.old) (WhereFaultless (I.faults input.old) (I.faults input.new) (O.faults output.old) (O.faults output.new) (IsTooLong result)) }

    // An input beyond the limit is never done, and one within it is never too long.
    ensures limit { (bytes : List ℕ) → I.left input.old ≡ Some bytes → MAX_INPUT_BYTES < length bytes → result ≢ InputEnd.Done }
    ensures within { (bytes : List ℕ) → I.left input.old ≡ Some bytes → length bytes ≤ MAX_INPUT_BYTES → result ≢ InputEnd.InputTooLong }
{
    replay_over::<ClusterRun, I, O>(alloc, input, output)
}
