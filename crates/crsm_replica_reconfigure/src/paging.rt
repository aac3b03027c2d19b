//! State transfer: executed entries are asked for and adopted page by page.

ghost use Rattle.std.specs.Prelude.{◌<◌};
ghost use Rattle.crsm_base.specs.Messages.{FitsControl};
ghost use Rattle.crsm_base.specs.Spelling.{FitsEntries};
ghost use Rattle.crsm_spec.specs.Draft.{Draft};
ghost use Rattle.crsm_spec.specs.Controls.{on_retrieve};
ghost use Rattle.crsm_replica.specs.Replica.{ReplicaStands, Makes};
ghost use Rattle.crsm_transfer.specs.Fitting.{IsPage};
ghost use Rattle.crsm_replica_reconfigure.specs.Rules.{Follows, FollowsWhere, on_page_in, CanAdopt, send_executed, take_executed};

use crate::learning::{adopt, advance};
use crate::tails::rest_goes_on;
use crate::telling::tell;
use crsm_base::{Control, Entries, NoMemory};
use crsm_replica::{ReplicaState, states_are_sound};
use crsm_transfer::{Fit, fit, page};

/// Answers replica `k`, which knows the epoch `known` and has executed `from` entries: with the known decision if it is
/// later, else with a page of executed entries. `NoMemory` if memory runs out.
pub fn on_retrieve(state: &mut ReplicaState, k: u32, known: u64, from: u64) -> Result<(), NoMemory>
    requires { k < 15 }
    ensures { Makes (on_retrieve k known from) state.old result state.new }
{
    let own = state.known();
    if known < own {
        return state.send_decision(k);
    }
    send_page(state, k, from)?;
    if own < known {
        return state.send_retrieve(k);
    }
    Ok(())
}

/// Sends replica `k` the first page of the executed entries from index `from` on, if there is one.
fn send_page(state: &mut ReplicaState, k: u32, from: u64) -> Result<(), NoMemory>
    requires { k < 15 }
    ensures { Makes (send_executed k from) state.old result state.new }
{
    states_are_sound();
    let found = page(state.alloc(), state.ledger(), from)?;
    let Some(control) = found else {
        return Ok(());
    };
    tell(state, k, control)
}

/// Handles a page of executed entries from replica `k`. `NoMemory` if memory runs out.
pub fn on_page(state: &mut ReplicaState, k: u32, page: &Control) -> Result<(), NoMemory>
    requires to { k < 15 }
    requires is { IsPage page.now }
    requires spelt { FitsControl page.now }
    ensures { Follows (on_page_in k page.now) state.old result state.new }
{
    let found = fit(state.alloc(), state.ledger(), page)?;
    let Fit::Adopt(entries) = found else {
        return Ok(());
    };
    let Ok(()) = take_entries(state, k, &entries) else {
        drop(entries);
        return Err(NoMemory);
    };
    drop(entries);
    Ok(())
}

/// Executes the entries, which follow the executed ones, and asks replica `k` for more.
fn take_entries(state: &mut ReplicaState, k: u32, entries: &Entries) -> Result<(), NoMemory>
    requires to { k < 15 }
    requires spelt { FitsEntries entries.now }
    ensures { FollowsWhere (λ x. CanAdopt x entries.now) (take_executed k entries.now) state.old result state.new }
{
    states_are_sound();
    if entries.as_slice().is_empty() {
        return Ok(());
    }
    let goes_on = rest_goes_on(state, entries)?;
    if !goes_on {
        return Ok(());
    }
    let place = state.executed_len();
    let fits = adopt(state, place, entries.as_slice())?;
    if !fits {
        return Ok(());
    }
    advance(state)?;
    state.send_retrieve(k)
}
