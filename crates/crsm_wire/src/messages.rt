//! Whether control messages and records can be encoded.

ghost use Rattle.std.specs.Prelude.{◌<◌, ◌^◌, IsTrue};
ghost use Rattle.crsm_base.specs.Spelling.{FitsBallot, FitsOption, FitsStamp};
ghost use Rattle.crsm_base.specs.Messages.{FitsControl};
ghost use Rattle.crsm_base.specs.Records.{FitsRec};

use crate::decision::{is_decision_spelt, is_vote_spelt};
use crate::entries::are_entries_spelt;
use crate::fields::{entry_size, is_ballot_spelt, is_floor_spelt, is_number_spelt, is_stamp_spelt};
use crsm_base::{Ballot, Control, MAX_REPLICAS, Rec, Stamp};

/// Returns whether an instance and a ballot can be encoded.
fn is_ballot_of(instance: u64, ballot: Ballot) -> bool
    ensures { IsTrue result → (instance < 2 ^ 64) × FitsBallot ballot }
{
    is_number_spelt(instance) && is_ballot_spelt(ballot)
}

fn are_numbers_spelt(first: u64, second: u64) -> bool
    ensures { IsTrue result → (first < 2 ^ 64) × (second < 2 ^ 64) }
{
    is_number_spelt(first) && is_number_spelt(second)
}

fn are_floors_spelt(first: Option<Stamp>, second: Option<Stamp>) -> bool
    ensures { IsTrue result → FitsOption FitsStamp first × FitsOption FitsStamp second }
{
    is_floor_spelt(first) && is_floor_spelt(second)
}

/// Returns whether the control message can be encoded.
pub fn is_control_spelt(control: &Control) -> bool
    ensures { IsTrue result → FitsControl control.now }
{
    match control {
        Control::Suspend { epoch, after } => is_number_spelt(*epoch) && is_floor_spelt(*after),
        Control::SuspendOk {
            epoch,
            executed,
            last,
            after,
            entries,
            ..
        } => {
            are_numbers_spelt(*epoch, *executed)
                && are_floors_spelt(*last, *after)
                && are_entries_spelt(entries)
        }
        Control::P1a { instance, ballot } => is_ballot_of(*instance, *ballot),
        Control::P1b {
            instance,
            ballot,
            accepted,
        } => is_ballot_of(*instance, *ballot) && is_vote_spelt(accepted),
        Control::P1no {
            instance,
            ballot,
            promised,
        } => is_ballot_of(*instance, *ballot) && is_ballot_spelt(*promised),
        Control::P2a {
            instance,
            ballot,
            decision,
        } => is_ballot_of(*instance, *ballot) && is_decision_spelt(decision),
        Control::P2b { instance, ballot } => is_ballot_of(*instance, *ballot),
        Control::Decide { decision } => is_decision_spelt(decision),
        Control::Retrieve { known, from } => are_numbers_spelt(*known, *from),
        Control::Page {
            known,
            from,
            entries,
        } => are_numbers_spelt(*known, *from) && are_entries_spelt(entries),
    }
}

/// Returns whether the record can be encoded.
pub fn is_rec_spelt(rec: &Rec) -> bool
    ensures { IsTrue result → FitsRec rec.now }
{
    match rec {
        Rec::Boot { me, n } => *me < MAX_REPLICAS && *n <= MAX_REPLICAS,
        Rec::Prepare { entry } => entry_size(entry).is_some(),
        Rec::Commit { stamp } => is_stamp_spelt(*stamp),
        Rec::Adopt { place, entries } => is_number_spelt(*place) && are_entries_spelt(entries),
        Rec::Suspend { epoch } => is_number_spelt(*epoch),
        Rec::Promise { instance, ballot } => is_ballot_of(*instance, *ballot),
        Rec::Accept {
            instance,
            ballot,
            decision,
        } => is_ballot_of(*instance, *ballot) && is_decision_spelt(decision),
        Rec::Decide { decision } => is_decision_spelt(decision),
        Rec::Enter { epoch } => is_number_spelt(*epoch),
    }
}
