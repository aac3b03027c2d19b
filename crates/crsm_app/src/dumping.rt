//! The dump of a log file.

ghost use Rattle.std.specs.Prelude.{◌≡◌, ◌≢◌, ◌<◌, ◌≤◌, ℕ, List, Some, length};
ghost use Rattle.crsm_base.specs.Limits.{most_log_bytes};
ghost use Rattle.crsm_port_faults.specs.Counts.{Rose};
ghost use Rattle.crsm_port_lines.specs.Exact as loop_exact;
ghost use Rattle.crsm_app.specs.Did.{DidDump};
ghost use Rattle.crsm_app.specs.Exact.{DumpsExactly};
ghost use Rattle.crsm_app.specs.Parts as spec;

use crate::status::{Status, dump_status};
use crsm_cmd_dump::{Part, dump};
use crsm_io::{Sink, Source};
use crsm_text_words::DumpPart;
use std::alloc::Global;

fn part_of(part: DumpPart) -> Part
    ensures { result ≡ spec.part_of part }
{
    match part {
        DumpPart::All => Part::All,
        DumpPart::State => Part::State,
        DumpPart::Keys => Part::Keys,
    }
}

/// Writes a part of what the log file of replica `me` says, of a cluster that began with `n`.
pub(crate) fn run_dump<I: Source, O: Sink>(
    alloc: Global,
    me: u32,
    n: u32,
    part: DumpPart,
    input: &mut I,
    output: &mut O,
) -> Status
    requires me_below { me < 15 }
    requires some { 1 ≤ n }
    requires few { n ≤ 15 }
    ensures did { DidDump me n part result (I.left input.old) (I.left input.new) (O.written output.old) (O.written output.new) }
    ensures read_fault { result ≡ Status.ReadFault → Rose (I.faults input.old) (I.faults input.new) }
    ensures write_fault { result ≡ Status.WriteFault → Rose (O.faults output.old) (O.faults output.new) }
    ensures exact { loop_exact.WhereFaultless (I.faults input.old) (I.faults input.new) (O.faults output.old) (O.faults output.new)
        (DumpsExactly me n part (I.left input.old) (O.written output.old) (O.written output.new) result) }
    ensures limit { (bytes : List ℕ) → I.left input.old ≡ Some bytes → most_log_bytes < length bytes → result ≢ Status.Ok }
    ensures within { (bytes : List ℕ) → I.left input.old ≡ Some bytes → length bytes ≤ most_log_bytes → result ≢ Status.LogTooLong }
    ensures no_line { result ≢ Status.InputTooLong }
    ensures no_port { result ≢ Status.PortFault }
    ensures no_disk { result ≢ Status.DiskFault }
{
    dump_status(dump(alloc, me, n, part_of(part), input, output))
}
