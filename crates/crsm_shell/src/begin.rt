//! The boot of a core on the bodies of a log.

ghost use Rattle.std.specs.Prelude.{◌≡◌, ◌<◌, ◌≤◌, ℕ, [], length, IfOk, IfErr};
ghost use Rattle.crsm_core.specs.Core.{CoreAwaits};
ghost use Rattle.crsm_ledger.specs.Recovered.{AreKept};
ghost use Rattle.crsm_ledger.specs.Ledger.{LedgerStands};
ghost use Rattle.crsm_spec.specs.Clock.{u64_max};
ghost use Rattle.crsm_spec.specs.Log.{Log, boots};
ghost use Rattle.crsm_shell.specs.Beginning.{AwaitsOne, BeginsOn, HasBooted, IsLedgerOf, IsLedgerOfOne, IsRefusal};

use crate::errors::BootError;
use crsm_base::{Bodies, Bytes, Lines, NoMemory};
use crsm_core::Core;
use crsm_ledger::{Ledger, LedgerError};
use crsm_replica_io::write_records;
use std::alloc::Global;

/// A core that has booted, whose boot is not durable yet.
#[derive(Drop)]
pub(crate) struct Begun {
    pub(crate) core: Box<Core>,
    /// The address of each replica, IPv4 x 65,536 + port.
    pub(crate) peers: Vec<u64>,
    /// The buffer for received datagrams.
    pub(crate) buffer: Vec<u8>,
    /// The encodings of the boot's records.
    pub(crate) body: Bytes,
    /// The lines of these records.
    pub(crate) lines: Lines,
}

/// Boots a core on the bodies of its log.
pub(crate) fn begin(
    alloc: Global,
    me: u32,
    n: u32,
    peers: &[u64],
    bodies: &Bodies,
) -> Result<Begun, BootError>
    requires me_below { me < 15 }
    requires some { 1 ≤ n }
    requires few { n ≤ 15 }
    ensures found { IfOk result (λ b. (log : Log) × AreKept me n [] bodies.now log × BeginsOn b me n log) }
    ensures peers { IfOk result (λ b. b.peers.items ≡ peers.now) }
    ensures room { IfOk result (λ b. length b.buffer.items ≡ 8192) }
    ensures refused { IfErr result (IsRefusal me n bodies.now) }
{
    let ledger = recovered(alloc, me, n, bodies)?;
    begin_on(alloc, peers, ledger)
}

/// Boots a core on the ledger of its log.
pub(crate) fn begin_on(alloc: Global, peers: &[u64], ledger: Ledger) -> Result<Begun, BootError>
    requires { ∥ IsLedgerOfOne ledger ∥₁ }
    ensures begins { IfOk result (λ b. (me n : ℕ) (log : Log) → IsLedgerOf ledger me n log → BeginsOn b me n log) }
    ensures peers { IfOk result (λ b. b.peers.items ≡ peers.now) }
    ensures room { IfOk result (λ b. length b.buffer.items ≡ 8192) }
    ensures refused { IfErr result (λ why. why ≡ BootError.NoMemory) }
{
    let mut core = core_on(alloc, ledger)?;
    let Ok((body, lines)) = boot(alloc, &mut *core) else {
        drop(core);
        return Err(BootError::NoMemory);
    };
    let Ok((peers, buffer)) = room_for(alloc, peers) else {
        drop((core, body, lines));
        return Err(BootError::NoMemory);
    };
    Ok(Begun {
        core,
        peers,
        buffer,
        body,
        lines,
    })
}

/// Boots the core. Returns the encodings of the boot's records, and their lines.
fn boot(alloc: Global, core: &mut Core) -> Result<(Bytes, Lines), NoMemory>
    requires { ∥ AwaitsOne core.old ∥₁ }
    ensures { IfOk result (λ made. (me n : ℕ) (log : Log) → CoreAwaits core.old me n log → boots log < u64_max → HasBooted core.new made.0 made.1 me n log) }
{
    let batch = core.begin()?;
    let mut body = Bytes::new(alloc);
    let Ok(()) = write_records(batch.records.as_slice(), &mut body) else {
        drop((batch, body));
        return Err(NoMemory);
    };
    Ok((body, batch.lines))
}

/// Returns the core of the ledger, which awaits its boot.
fn core_on(alloc: Global, ledger: Ledger) -> Result<Box<Core>, BootError>
    ensures awaits { IfOk result (λ core. (me n : ℕ) (log : Log) → IsLedgerOf ledger me n log → CoreAwaits core.value me n log) }
    ensures room { IfOk result (λ _. (me n : ℕ) (log : Log) → IsLedgerOf ledger me n log → boots log < u64_max) }
    ensures refused { IfErr result (λ why. why ≡ BootError.NoMemory) }
{
    let ledger = with_room(ledger)?;
    let core = Core::new(ledger)?;
    Ok(in_a_place(alloc, core)?)
}

/// Moves the core to the heap. `NoMemory` if memory runs out.
fn in_a_place(alloc: Global, core: Core) -> Result<Box<Core>, NoMemory>
    ensures { IfOk result (λ boxed. boxed.value ≡ core) }
{
    Ok(Box::new(alloc, core)?)
}

/// Returns the ledger of the bodies.
fn recovered(alloc: Global, me: u32, n: u32, bodies: &Bodies) -> Result<Ledger, BootError>
    requires me_below { me < 15 }
    requires some { 1 ≤ n }
    requires few { n ≤ 15 }
    ensures whole { IfOk result (λ ledger. (log : Log) × AreKept me n [] bodies.now log × LedgerStands me n ledger log) }
    ensures refused { IfErr result (IsRefusal me n bodies.now) }
{
    match Ledger::recover(alloc, me, n, bodies) {
        Ok(ledger) => Ok(ledger),
        Err(LedgerError::BadLog { entry, why }) => Err(BootError::BadLog { entry, why }),
        Err(LedgerError::NoMemory) => Err(BootError::NoMemory),
        // Recovery never returns this error.
        Err(LedgerError::NotFit { .. }) => unreachable!(),
    }
}

/// Returns the ledger if one more boot can be counted. No memory has room for a log with 2^64 - 1 boots.
fn with_room(ledger: Ledger) -> Result<Ledger, BootError>
    ensures same { IfOk result (λ same. same ≡ ledger) }
    ensures room { IfOk result (λ _. (me n : ℕ) (log : Log) → LedgerStands me n ledger log → boots log < u64_max) }
    ensures refused { IfErr result (λ why. why ≡ BootError.NoMemory) }
{
    if ledger.boot() == u64::MAX {
        drop(ledger);
        return Err(BootError::NoMemory);
    }
    Ok(ledger)
}

// Maximum length in bytes of a datagram that is received whole.
const MOST_RECEIVED: usize = 8192;

/// Returns a copy of the addresses, and the buffer for received datagrams.
fn room_for(alloc: Global, peers: &[u64]) -> Result<(Vec<u64>, Vec<u8>), NoMemory>
    ensures peers { IfOk result (λ r. r.0.items ≡ peers.now) }
    ensures buffer { IfOk result (λ r. length r.1.items ≡ 8192) }
{
    let addresses = Vec::from_slice(alloc, peers)?;
    let buffer = Vec::from_elem(alloc, 0u8, MOST_RECEIVED)?;
    Ok((addresses, buffer))
}
