//! The moments of a plan, and their text. For a plan beyond the bounds the sums saturate at 64 bits.

ghost use Rattle.std.specs.Prelude.{◌≡◌, ◌≤◌, ◌<◌, ◌+◌, ◌++◌, ◌∷◌, [], ℕ, OnOk};
ghost use Rattle.crsm_spec_plan.specs.Plans as timing;
ghost use Rattle.crsm_delay.specs.Times.{row, times_text};

use crsm_base::{Bytes, NoMemory};
use crsm_spec_plan::Plan;
use crsm_text::push_named;

/// Returns how far the clock of a replica is ahead, in microseconds.
#[tactic(auto, unfolding(crsm_spec_plan::specs::Plans::offset_of))]
pub(crate) fn offset_of(plan: &Plan, k: u64) -> u64
    ensures { result ≡ timing.offset_of plan.now k }
{
    for o in plan.offsets.as_slice() {
        if o.replica == k {
            return o.by;
        }
    }
    0
}

/// Returns the delay of a datagram from replica `a` to replica `b`, in microseconds.
#[tactic(auto, unfolding(crsm_spec_plan::specs::Plans::delay_of))]
pub(crate) fn delay_of(plan: &Plan, a: u64, b: u64) -> u64
    ensures { result ≡ timing.delay_of plan.now a b }
{
    if a == b {
        return 0;
    }
    for d in plan.delays.as_slice() {
        if d.from == a && d.to == b {
            return d.by;
        }
    }
    0
}

/// Returns the reading of a replica's clock at a moment, in microseconds.
#[tactic(auto, unfolding(crsm_spec_plan::specs::Plans::reading))]
pub(crate) fn reading_of(plan: &Plan, k: u64, moment: u64) -> u64
    requires fits { timing.FitsPlan plan.now }
    requires soon { moment ≤ 4000000000000 }
    ensures { result ≡ timing.reading plan.now k moment }
{
    moment + offset_of(plan, k)
}

/// Returns the moment at which replica `k` acknowledges the command, in microseconds.
fn ok_at(plan: &Plan, k: u64) -> u64
    ensures { timing.FitsPlan plan.now → result ≡ timing.ok_at plan.now k }
{
    let arrival = plan.at.saturating_add(delay_of(plan, plan.origin, k));
    let stamped = plan.at.saturating_add(offset_of(plan, plan.origin));
    let past = stamped.saturating_add(1);
    arrival.max(past.saturating_sub(offset_of(plan, k)))
}

/// Returns the moment at which replica `i` executes the command, in microseconds.
pub fn commit_at(plan: &Plan, i: u64) -> u64
    ensures { timing.FitsPlan plan.now → result ≡ timing.commit_at plan.now i }
{
    let mut last = plan.at;
    for k in 0..plan.n {
        if k != plan.origin {
            let comes = ok_at(plan, k).saturating_add(delay_of(plan, k, i));
            last = last.max(comes);
        }
    }
    last
}

/// Appends the line of a replica. `NoMemory` if memory runs out.
fn push_row(text: &mut Bytes, plan: &Plan, i: u64) -> Result<(), NoMemory>
    ensures { OnOk result (timing.FitsPlan plan.now → text.new ≡ text.old ++ row plan.now i) }
{
    push_named(text, b"commit", &[i, commit_at(plan, i)])?;
    text.push(b'\n')?;
    Ok(())
}

/// Appends the moment at which each replica executes the command. `NoMemory` if memory runs out.
pub(crate) fn push_times(text: &mut Bytes, plan: &Plan) -> Result<(), NoMemory>
    ensures { OnOk result (timing.FitsPlan plan.now → text.new ≡ text.old ++ times_text plan.now) }
{
    for i in 0..plan.n {
        push_row(text, plan, i)?;
    }
    Ok(())
}
