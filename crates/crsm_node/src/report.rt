//! What a node reports of its work.

ghost use Rattle.std.specs.Prelude.{◌≡◌, length};

use crsm_base::Bodies;
use crsm_disk::Disk;
use crsm_ledger::Ledger;
use crsm_shell::{Shell, TurnResult};

/// The content of a node's log when its replica was booted.
#[derive(Clone, Copy, Debug, PartialEq, Eq)]
pub struct BootReport {
    /// Number of log bodies.
    pub bodies: u64,
    /// Length of the log in bytes, without the name of a cluster.
    pub bytes: u64,
    /// The epoch of the latest decision.
    pub epoch: u64,
    /// Number of executed commands.
    pub executed: u64,
}

/// Receives what a node does. A node's work does not depend on it.
pub trait Reporter {
    /// Receives the content of the log at the boot.
    fn booted(&mut self, held: BootReport);

    /// Receives a turn that was taken, with the bytes of its datagram, which are empty if it took none, and the ledger
    /// after it.
    fn turned(&mut self, turn: &TurnResult, datagram: &[u8], state: &Ledger);

    /// Receives that all turns so far are in the log.
    fn kept(&mut self);
}

/// A reporter without effect.
#[derive(Clone, Copy, Debug)]
pub struct Silent;

impl Reporter for Silent {
    fn booted(&mut self, _held: BootReport) {}

    fn turned(&mut self, _turn: &TurnResult, _datagram: &[u8], _state: &Ledger) {}

    fn kept(&mut self) {}
}

/// Returns the length in bytes of the log with these bodies.
fn bytes_of(bodies: &Bodies) -> u64 {
    let mut bytes: u64 = 1;
    for index in 0..bodies.len() {
        if let Some(body) = bodies.get(index) {
            bytes = bytes.saturating_add(body.len() as u64).saturating_add(5);
        }
    }
    bytes
}

/// Returns the report on a shell that was booted on these bodies.
pub(crate) fn held_in<D: Disk>(bodies: &Bodies, shell: &Shell<D>) -> BootReport
    ensures { result.bodies ≡ length bodies.now }
{
    let state = shell.state();
    BootReport {
        bodies: bodies.len() as u64,
        bytes: bytes_of(bodies),
        epoch: state.known().epoch,
        executed: state.executed_len(),
    }
}
