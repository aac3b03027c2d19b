//! The replay of a sheet from its beginning to its end.

ghost use Rattle.std.specs.Prelude.{◌≡◌, ◌≢◌, ◌<◌, ◌≤◌, ℕ, List, Some, length};
ghost use Rattle.crsm_port_faults.specs.Counts.{Rose};
ghost use Rattle.crsm_port_lines.specs.Exact.{IsDone, IsTooLong, WhereFaultless};
ghost use Rattle.crsm_cmd_replay_node.specs.Run.{Ran, IsRefused, WhereBad, WhereSheet, WhereTooLong};

use crate::cause::SheetCause;
use crate::handling::SheetReplay;
use crsm_io::{Sink, Source};
use crsm_port_lines::{InputEnd, MAX_INPUT_BYTES, run_lines};
use crsm_replica_rerun::bad_logs_are_one;
use crsm_text_sheet::{lines_have_no_feed, lines_have_one_text};
use std::alloc::Global;

/// Reads the sheet of replica `me`, of a cluster that began with `n`, to its end. Writes the records, datagrams and
/// replies of the replica at each line, and its state at the end. Returns how that ended.
pub fn replay_node<I: Source, O: Sink>(
    alloc: Global,
    me: u32,
    n: u32,
    input: &mut I,
    output: &mut O,
) -> InputEnd<SheetCause>
    requires me_below { me < 15 }
    requires some { 1 ≤ n }
    requires few { n ≤ 15 }

    // The bytes read and written, by how it ended.
    ensures ran { Ran me n result (I.left input.old) (I.left input.new) (O.written output.old) (O.written output.new) }

    // A fault is returned only if it was counted.
    ensures read_fault { result ≡ InputEnd.ReadFault → Rose (I.faults input.old) (I.faults input.new) }
    ensures write_fault { result ≡ InputEnd.WriteFault → Rose (O.faults output.old) (O.faults output.new) }

    // A sheet whose bodies fit is done, within the limits on the input and its lines, if no fault was counted.
    ensures complete { WhereSheet me n (I.left input.old) (WhereFaultless (I.faults input.old) (I.faults input.new) (O.faults output.old) (O.faults output.new) (IsDone result)) }

    // An input with a bad line within the limit is refused for the first one, if no fault was counted; `open` after
    // bodies that are not a log is refused for the first bad one of these.
    ensures refused { WhereBad me n (I.left input.old) (λ line cause. WhereFaultless (I.faults input.old) (I.faults input.new) (O.faults output.old) (O.faults output.new) (IsRefused line cause result)) }

    // An input whose lines are good up to the limit and that has more bytes is too long, if no fault was counted.
    ensures too_long { WhereTooLong me n (I.left input.old) (WhereFaultless (I.faults input.old) (I.faults input.new) (O.faults output.old) (O.faults output.new) (IsTooLong result)) }

    // An input beyond the limit is never done, and one within it is never too long.
    ensures limit { (bytes : List ℕ) → I.left input.old ≡ Some bytes → MAX_INPUT_BYTES < length bytes → result ≢ InputEnd.Done }
    ensures within { (bytes : List ℕ) → I.left input.old ≡ Some bytes → length bytes ≤ MAX_INPUT_BYTES → result ≢ InputEnd.InputTooLong }
{
    lines_have_no_feed();
    lines_have_one_text();
    bad_logs_are_one();
    run_lines(alloc, SheetReplay::new(alloc, me, n), input, output)
}
