//! The state of a replica at the end of its sheet.

ghost use Rattle.std.specs.Prelude.{◌≡◌, ℕ};
ghost use Rattle.crsm_ledger.specs.Ledger.{LedgerStands};
ghost use Rattle.crsm_spec.specs.Replica.{Replica};
ghost use Rattle.crsm_spec.specs.World.{Site, final_line};
ghost use Rattle.crsm_spec.specs.World as world;

use crsm_base::{Line, State};
use crsm_ledger::Ledger;

/// Returns the state of a ledger's replica.
fn state_of(ledger: &Ledger) -> State
    ensures { (r : Replica) → LedgerStands r.me r.n ledger.now r.log → result ≡ world.state_of (Site.Up r) }
{
    if !ledger.live() {
        return State::Out;
    }
    if ledger.suspended() {
        return State::Held;
    }
    State::Live
}

/// Returns the final line of replica `me`, which is up.
pub(crate) fn ending(me: u32, ledger: &Ledger) -> Line
    ensures { (r : Replica) → LedgerStands r.me r.n ledger.now r.log → result ≡ final_line (me, Site.Up r) }
{
    Line::Final {
        replica: me,
        state: state_of(ledger),
        known: ledger.known().epoch,
        executed: ledger.executed_len(),
    }
}
