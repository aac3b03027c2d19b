//! The joint content of the reports of a majority.

ghost use Rattle.std.specs.Prelude.{◌≡◌, ℕ, List, [], ◌∷◌, Some, OnOk, IfOk, if◌then◌else◌};
ghost use Rattle.std.specs.List.{AllByRecursion};
ghost use Rattle.crsm_mpspec.specs.Electing.{greater_held, reported_at};
ghost use Rattle.crsm_mpspec.specs.Replica.{Report as ReportOnPaper};
ghost use Rattle.crsm_mpreplica.specs.Fitting.{FitsAccepted, FitsChosen};

use crsm_base::{Ballot, NoMemory, ballot_precedes};
use crsm_mpledger::share_noop;
use crsm_mpreplica::MpReport;
use crsm_mpspec::{MpAccepted, MpChosen, SharedValue};
use std::alloc::Global;
use std::collections::BTreeMap;

/// The content of reports for each slot: the value known to be chosen, and the accepted value of the greatest ballot.
/// If reports differ, the first one counts.
#[derive(Drop)]
pub(crate) struct Findings {
    alloc: Global,
    /// The slot after all that are reported.
    next: u64,
    chosen: BTreeMap<u64, SharedValue>,
    best: BTreeMap<u64, (Ballot, SharedValue)>,
}

impl Findings {
    ghost use Rattle.crsm_mpcore.specs.Findings.{AreFindings, FindingsStand, FitsInside, Found, and_accepted, and_chosen, and_report, as_held, best_at, none_found};

    /// Returns the findings before any report, for the slots from `start` on.
    pub(crate) fn new(alloc: Global, start: u64) -> Findings
        ensures { FindingsStand result (none_found start) }
    {
        Findings {
            alloc,
            next: start,
            chosen: BTreeMap::new(alloc),
            best: BTreeMap::new(alloc),
        }
    }

    /// Adds a report.
    pub(crate) fn add(&mut self, report: &MpReport) -> Result<(), NoMemory>
        ensures { OnOk result ((found : Found) → FindingsStand self.old found → FitsInside report.now → FindingsStand self.new (and_report found report.now)) }
    {
        self.add_all_chosen(report.chosen.as_slice())?;
        self.add_all_accepted(report.accepted.as_slice())?;
        Ok(())
    }

    /// Adds the chosen values of a report.
    fn add_all_chosen(&mut self, all: &[MpChosen]) -> Result<(), NoMemory>
        ensures { OnOk result ((found : Found) → FindingsStand self.old found → AllByRecursion FitsChosen all.now → FindingsStand self.new (and_chosen found all.now)) }
    {
        for chosen in all {
            self.add_chosen(chosen)?;
        }
        Ok(())
    }

    /// Adds the accepted values of a report.
    fn add_all_accepted(&mut self, all: &[MpAccepted]) -> Result<(), NoMemory>
        ensures { OnOk result ((found : Found) → FindingsStand self.old found → AllByRecursion FitsAccepted all.now → FindingsStand self.new (and_accepted found all.now)) }
    {
        for accepted in all {
            self.add_accepted(accepted)?;
        }
        Ok(())
    }

    /// Adds a chosen value.
    fn add_chosen(&mut self, chosen: &MpChosen) -> Result<(), NoMemory>
        ensures { OnOk result ((found : Found) → FindingsStand self.old found → FitsChosen chosen.now → FindingsStand self.new (and_chosen found (chosen.now ∷ []))) }
    {
        self.next = self.next.max(chosen.slot.saturating_add(1));
        if self.chosen.contains_key(&chosen.slot) {
            return Ok(());
        }
        let value = chosen.value.share()?;
        self.chosen.insert(chosen.slot, value)?;
        Ok(())
    }

    /// Adds an accepted value.
    fn add_accepted(&mut self, accepted: &MpAccepted) -> Result<(), NoMemory>
        ensures { OnOk result ((found : Found) → FindingsStand self.old found → FitsAccepted accepted.now → FindingsStand self.new (and_accepted found (accepted.now ∷ []))) }
    {
        self.next = self.next.max(accepted.slot.saturating_add(1));
        if !self.is_greater(accepted) {
            return Ok(());
        }
        let value = accepted.value.share()?;
        self.best.insert(accepted.slot, (accepted.ballot, value))?;
        Ok(())
    }

    /// Returns whether the value has a greater ballot than all found at its slot.
    fn is_greater(&self, accepted: &MpAccepted) -> bool
        ensures { greater_held (best_at self.now accepted.now.slot) (as_held accepted.now) ≡
            (if result then Some (as_held accepted.now) else best_at self.now accepted.now.slot) }
    {
        match self.best.get(&accepted.slot) {
            Some((ballot, _)) => ballot_precedes(*ballot, accepted.ballot),
            None => true,
        }
    }

    /// Returns the values known to be chosen, by slot.
    pub(crate) fn chosen(&self) -> &BTreeMap<u64, SharedValue>
        ensures { result.now ≡ self.now.chosen }
    {
        &self.chosen
    }

    /// Returns the value that must be proposed at a slot: a noop if none is reported.
    pub(crate) fn value_at(&self, slot: u64) -> Result<SharedValue, NoMemory>
        ensures { IfOk result (λ value. (start : ℕ) (reports : List ReportOnPaper) → AreFindings self.now start reports → value ≡ reported_at slot reports) }
    {
        match self.best.get(&slot) {
            Some((_, value)) => value.share(),
            None => share_noop(self.alloc),
        }
    }

    /// Returns the slot after all that are reported.
    pub(crate) fn next(&self) -> u64
        ensures { result ≡ self.now.next }
    {
        self.next
    }
}
