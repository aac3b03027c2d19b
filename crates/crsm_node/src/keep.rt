//! The flush of the pending turns.

ghost use Rattle.std.specs.Prelude.{◌≡◌, ◌≤◌, [], true, false, OnOk, IsErrOf};
ghost use Rattle.crsm_log.specs.Log.{Goes};
ghost use Rattle.crsm_shell.specs.Shell.{WhereStands};
ghost use Rattle.crsm_shell.specs.Words.{disk_of, has_failed, peers_of, pending_of};
ghost use Rattle.crsm_node.specs.Steps.{KeepsGroup};

use crate::errors::NodeError;
use crate::pending::PendingTurns;
use crate::report::Reporter;
use crsm_disk::Disk;
use crsm_io::{Sink, put_all};
use crsm_port::Port;
use crsm_shell::Shell;

/// Makes the pending turns durable, sends their datagrams, and then writes their lines.
pub(crate) fn keep_group<P: Port, D: Disk, O: Sink, R: Reporter>(
    shell: &mut Shell<D>,
    port: &mut P,
    sheet: &mut O,
    pending: &mut PendingTurns,
    reporter: &mut R,
) -> Result<(), NodeError>
    ensures keeps { WhereStands D.meaning shell.old (λ kept r steps.
        KeepsGroup D.meaning shell.old shell.new (P.meaning port.old) (P.meaning port.new) (O.written sheet.old) (O.written sheet.new) (O.faults sheet.old) (O.faults sheet.new) pending.old.lines r steps result) }
    ensures goes { Goes (D.meaning (disk_of shell.old)) (D.meaning (disk_of shell.new)) }
    ensures peers { peers_of shell.new ≡ peers_of shell.old }
    ensures cleared { OnOk result (pending.new.lines ≡ []) }
    ensures none_left { OnOk result (pending_of shell.new ≡ 0) }
    ensures later { O.faults sheet.old ≤ O.faults sheet.new }
    ensures usable { OnOk result (has_failed shell.new ≡ false) }
    ensures had_failed { IsErrOf result NodeError.Failed → has_failed shell.old ≡ true }
{
    shell.flush(port)?;
    let_go(port);
    reporter.kept();
    let written = put_all(sheet, pending.lines.as_slice());
    pending.clear();
    match written {
        Ok(()) => Ok(()),
        Err(_) => Err(NodeError::WriteFault),
    }
}

/// Lets the port send what waits for the end of the group.
fn let_go<P: Port>(port: &mut P)
    ensures { P.meaning port.new ≡ P.meaning port.old }
{
    port.flush();
}
