//! The stages of a replica in an election.

ghost use Rattle.std.specs.Prelude.{◌≡◌, ℕ, ◌∷◌};
ghost use Rattle.crsm_mpspec.specs.Log.{Log};
ghost use Rattle.crsm_mpreplica.specs.Notes.{NoteStands, is_lead, is_lesser};
ghost use Rattle.crsm_mpspec.specs.Replica.{Note as NoteOnPaper, ended_by, refused_by, without_lead};
ghost use Rattle.crsm_mpspec.specs.Types.{Value};
ghost use Rattle.crsm_mpspec.specs.declared.rec.MpRec.{MpRec as Record};

use crsm_base::{Ballot, ballot_precedes};
use crsm_mpspec::{MpAccepts, MpChoices};
use std::collections::BTreeMap;

/// The report that a replica sent with its promise.
#[derive(Drop)]
pub struct MpReport {
    pub accepted: MpAccepts,
    pub chosen: MpChoices,
}

/// A ballot for which promises are asked, for all slots from a first one on.
#[derive(Drop)]
pub struct Asking {
    pub ballot: Ballot,
    pub start: u64,
    /// The reports received, by replica.
    pub reports: BTreeMap<u32, MpReport>,
}

/// A ballot in which a replica leads.
#[derive(Drop)]
pub struct Leading {
    pub ballot: Ballot,
    /// The slot of the next command.
    pub next: u64,
    /// The slots that were proposed and are not known to be chosen, with the replicas that have accepted.
    pub open: BTreeMap<u64, Vec<u32>>,
}

/// The stage of a replica in an election: idle, asking for promises, or leading.
#[derive(Drop)]
pub enum Note {
    Idle,
    Asking(Asking),
    Leading(Leading),
}

/// Returns whether the replica leads.
fn is_leading(note: &Note) -> bool
    ensures { (me : ℕ) (log : Log) (p : NoteOnPaper) → NoteStands note.now me log p → result ≡ is_lead p }
{
    matches!(note, Note::Leading(_))
}

/// Returns whether the replica asks or leads in a ballot below this one.
#[tactic(auto, unfolding(crsm_base::specs::Order::ballot_lt))]
fn is_below(note: &Note, ballot: Ballot) -> bool
    ensures { (me : ℕ) (log : Log) (p : NoteOnPaper) → NoteStands note.now me log p → result ≡ is_lesser ballot p }
{
    match note {
        Note::Idle => false,
        Note::Asking(asking) => ballot_precedes(asking.ballot, ballot),
        Note::Leading(leading) => ballot_precedes(leading.ballot, ballot),
    }
}

/// Ends the lead of the replica.
pub(crate) fn end_lead(note: &mut Note)
    ensures { (me : ℕ) (log : Log) (p : NoteOnPaper) → NoteStands note.old me log p → NoteStands note.new me log (without_lead p) }
{
    if is_leading(note) {
        *note = Note::Idle;
    }
}

/// Ends a request for promises, or a lead, in a ballot below one that is promised here.
pub(crate) fn end_below(note: &mut Note, ballot: Ballot)
    ensures { (me : ℕ) (log : Log) (p : NoteOnPaper) → NoteStands note.old me log p → NoteStands note.new me log (ended_by ballot p) }
{
    if is_below(note, ballot) {
        *note = Note::Idle;
    }
}

/// Ends a lead in a ballot below one that is promised elsewhere.
pub(crate) fn end_lead_below(note: &mut Note, ballot: Ballot)
    ensures { (me : ℕ) (log : Log) (p : NoteOnPaper) → NoteStands note.old me log p → NoteStands note.new me log (refused_by ballot p) }
{
    if is_leading(note) {
        end_below(note, ballot);
    }
}

/// Closes a slot whose value is known.
pub(crate) fn close(note: &mut Note, slot: u64)
    ensures { (me : ℕ) (log : Log) (v : Value) (p : NoteOnPaper) → NoteStands note.old me log p → NoteStands note.new me (Record.Choose slot v ∷ log) p }
{
    if let Note::Leading(leading) = note {
        leading.open.remove(&slot);
    }
}
