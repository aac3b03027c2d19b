//! Requests for promises.

ghost use Rattle.std.specs.Prelude.{◌≡◌, ◌∷◌, [], true};
ghost use Rattle.crsm_base.specs.Spelling.{FitsBallot};
ghost use Rattle.crsm_mpspec.specs.Draft as drafts;
ghost use Rattle.crsm_mpspec.specs.Electing as electing;
ghost use Rattle.crsm_mpspec.specs.Replica.{Note as NoteOnPaper};
ghost use Rattle.crsm_mpspec.specs.Types.{Ballot as BallotOnPaper};
ghost use Rattle.crsm_mpreplica.specs.Fitting.{FitsReport};
ghost use Rattle.crsm_mpreplica.specs.Notes.{awaits_report, report_of, reported};
ghost use Rattle.crsm_mpreplica.specs.State.{MakesIf, MakesWhere, WhereStands};

use crate::note::{Asking, MpReport, Note};
use crate::state::MpReplica;
use crsm_base::{Ballot, NoMemory};
use crsm_mpspec::{MpAccepts, MpChoices};
use std::collections::BTreeMap;

impl MpReplica {
    /// Begins to ask for promises of a ballot, for all slots from `start` on. The replica's own report is the first.
    /// `NoMemory` if memory runs out.
    pub fn begin_asking(&mut self, ballot: Ballot, start: u64) -> Result<(), NoMemory>
        ensures { MakesWhere (λ x. FitsBallot ballot) (λ x. drafts.noting (NoteOnPaper.Asking ballot start (electing.report start x.replica ∷ [])) x) self.old result self.new }
    {
        let own = MpReport {
            accepted: self.ledger.accepted_from(start)?,
            chosen: self.ledger.chosen_from(start)?,
        };
        let mut reports = BTreeMap::new(self.alloc);
        reports.insert(self.me, own)?;
        self.note = Note::Asking(Asking {
            ballot,
            start,
            reports,
        });
        Ok(())
    }

    /// Counts the report of a replica with its promise of a ballot, once for each replica, if promises of this ballot
    /// are asked for. Returns whether it counted. `NoMemory` if memory runs out.
    pub fn take_report(
        &mut self,
        from: u32,
        ballot: Ballot,
        accepted: &MpAccepts,
        chosen: &MpChoices,
    ) -> Result<bool, NoMemory>
        ensures { FitsReport (record { from = from; accepted = accepted.now; chosen = chosen.now }) → MakesIf (λ x. awaits_report ballot from x.replica.note)
            (reported (record { from = from; accepted = accepted.now; chosen = chosen.now })) self.old result self.new }
    {
        if !self.awaits_report(from, ballot) {
            return Ok(false);
        }
        let report = MpReport {
            accepted: accepted.share()?,
            chosen: chosen.share()?,
        };
        self.add_report(from, report)?;
        Ok(true)
    }

    /// Returns whether promises of this ballot are asked for, and the replica has not reported.
    fn awaits_report(&self, from: u32, ballot: Ballot) -> bool
        ensures { WhereStands self.now (λ x. result ≡ awaits_report ballot from x.replica.note) }
    {
        let Note::Asking(asking) = &self.note else {
            return false;
        };
        asking.ballot == ballot && !asking.reports.contains_key(&from)
    }

    /// Adds the report of a replica that has not reported.
    fn add_report(&mut self, from: u32, report: MpReport) -> Result<(), NoMemory>
        ensures { (b : BallotOnPaper) → FitsReport (report_of (from, report)) →
            MakesWhere (λ x. awaits_report b from x.replica.note ≡ true) (reported (report_of (from, report))) self.old result self.new }
    {
        if let Note::Asking(asking) = &mut self.note {
            asking.reports.insert(from, report)?;
        }
        Ok(())
    }
}
