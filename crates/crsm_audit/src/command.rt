//! The audit of several nodes' sheets from the first to the last.

ghost use Rattle.std.specs.Prelude.{◌≡◌, ◌≢◌, ◌<◌, ◌≤◌, ℕ, List, Some, length};
ghost use Rattle.crsm_port_faults.specs.Counts.{Rose};
ghost use Rattle.crsm_port_lines.specs.Run.{Ran};
ghost use Rattle.crsm_audit.specs.Exactly.{EndsExactly, IsDecided};
ghost use Rattle.crsm_audit.specs.Handled.{audited};

use crate::state::Audit;
use crsm_cmd_replay_node::SheetCause;
use crsm_io::{Sink, Source};
use crsm_port_lines::{InputEnd, MAX_INPUT_BYTES, run_lines};
use crsm_replica_rerun::bad_logs_are_one;
use crsm_text_sheet::lines_have_one_text;
use std::alloc::Global;

/// Reads the sheets of nodes of a cluster that began with `n` to their end, and writes the verdict: the one list and
/// that they agree, or the first contradiction. A bad log is refused at the end of the input. Returns how that ended.
pub fn audit<I: Source, O: Sink>(
    alloc: Global,
    n: u32,
    input: &mut I,
    output: &mut O,
) -> InputEnd<SheetCause>
    requires some { 1 ≤ n }
    requires few { n ≤ 15 }

    // The bytes read and written, by how it ended.
    ensures ran { Ran (audited n) result (I.left input.old) (I.left input.new) (O.written output.old) (O.written output.new) }

    // A fault is returned only if it was counted.
    ensures read_fault { result ≡ InputEnd.ReadFault → Rose (I.faults input.old) (I.faults input.new) }
    ensures write_fault { result ≡ InputEnd.WriteFault → Rose (O.faults output.old) (O.faults output.new) }

    // If no fault was counted, an audit of good logs is done, the first bad line is refused, and more than the limit is
    // too long.
    ensures exactly { EndsExactly n (I.left input.old) (I.faults input.old) (I.faults input.new) (O.faults output.old) (O.faults output.new) result }

    // An input beyond the limit is never done, and one within it is never too long.
    ensures limit { (bytes : List ℕ) → I.left input.old ≡ Some bytes → MAX_INPUT_BYTES < length bytes → result ≢ InputEnd.Done }
    ensures within { (bytes : List ℕ) → I.left input.old ≡ Some bytes → length bytes ≤ MAX_INPUT_BYTES → result ≢ InputEnd.InputTooLong }
{
    run_lines(alloc, Audit::new(alloc, n), input, output)
}

/// States that the lines alone determine what is read and what is refused, so that an audit is done and a bad line is
/// refused exactly. It runs no code.
pub fn audits_are_exact()
    ensures { (n : ℕ) → IsDecided n }
{
    lines_have_one_text();
    bad_logs_are_one();
}
