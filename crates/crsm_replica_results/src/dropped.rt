//! The test whether an entry will never be executed.

ghost use Rattle.std.specs.Prelude.{◌≡◌};
ghost use Rattle.crsm_ledger.specs.Ledger.{LedgerStands};
ghost use Rattle.crsm_spec.specs.Replica.{Replica};
ghost use Rattle.crsm_spec.specs.Clients.{is_dropped};

use crsm_base::Entry;
use crsm_ledger::Ledger;

/// Returns whether a later epoch has begun here without the entry. While a replica is suspended the entry may still be
/// executed.
pub fn has_dropped(ledger: &Ledger, entry: &Entry) -> bool
    ensures { (r : Replica) → LedgerStands r.me r.n ledger.now r.log → result ≡ is_dropped r entry.now }
{
    let is_earlier = entry.epoch < ledger.known().epoch;
    ledger.start() <= ledger.executed_len() && is_earlier
}
