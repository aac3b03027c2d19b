//! The tests of whether a record may come next. Each reads all fields that its kind of record depends on, and joins
//! them by `&`.

ghost use Rattle.std.specs.Prelude.{◌≡◌, ◌==◌, ◌+◌, ◌≤◌, ℕ, true, false, List, [], ◌∷◌, nat_lt, nat_le, ◌||◌, ◌&&◌, unwrap_or};
ghost use Rattle.std.specs.List.{list_all};
ghost use Rattle.std.specs.Option.{option_map_or};
ghost use Rattle.crsm_base.specs.declared.Rec.{Rec};
ghost use Rattle.crsm_base.specs.Order.{stamp_lt, ballot_lt};
ghost use Rattle.crsm_spec.specs.Fits.{fits, can_be_members};
ghost use Rattle.crsm_spec.specs.Lists.{numbers_below};
ghost use Rattle.crsm_ledger.specs.Executed.{goes_on_behind};
ghost use Rattle.crsm_ledger.specs.Ledger.{CanFollow, FieldsStand, WhereFieldsStand};

use crate::history::Position;
use crate::ledger::Ledger;
use crsm_base::{
    Ballot, Decision, Entry, Rec, Stamp, ballot_precedes, can_be_members, first_replicas, is_among,
    stamp_precedes,
};

impl Ledger {
    /// Returns whether the record may come next, so that `apply` accepts it.
    pub fn fits(&self, rec: &Rec) -> bool
        ensures { WhereFieldsStand self.now (λ me n log. result ≡ fits me n log rec.now) }
    {
        self.admits(rec)
    }

    pub(crate) fn admits(&self, rec: &Rec) -> bool
        ensures value { WhereFieldsStand self.now (λ me n log. result ≡ fits me n log rec.now) }
        ensures can { result ≡ true → CanFollow self.now rec.now }
    {
        match rec {
            Rec::Boot { me, n } => self.fits_boot(*me, *n),
            Rec::Prepare { entry } => self.fits_prepare(entry),
            Rec::Commit { stamp } => self.fits_commit(*stamp),
            Rec::Adopt { place, entries } => self.fits_adopt(*place, entries.as_slice()),
            Rec::Suspend { epoch } => self.fits_suspend(*epoch),
            Rec::Promise { instance, ballot } => self.fits_promise(*instance, *ballot),
            Rec::Accept {
                instance,
                ballot,
                decision,
            } => self.fits_accept(*instance, *ballot, decision),
            Rec::Decide { decision } => self.fits_decide(decision),
            Rec::Enter { epoch } => self.fits_enter(*epoch),
        }
    }

    pub(crate) fn fits_boot(&self, me: u32, n: u32) -> bool
        ensures { (own cluster : ℕ) (log : List Rec) → FieldsStand own cluster self.now log → result ≡ fits own cluster log (Rec.Boot me n) }
    {
        (me == self.me) & (n == self.n) & (self.boots < u64::MAX)
    }

    pub(crate) fn fits_prepare(&self, entry: &Entry) -> bool
        ensures value { WhereFieldsStand self.now (λ me n log. result ≡ fits me n log (Rec.Prepare entry.now)) }
        ensures can { result ≡ true → CanFollow self.now (Rec.Prepare entry.now) }
    {
        let is_member = is_among(self.known.get().members.as_slice(), entry.stamp.origin);
        let is_newest = self.held.logged.is_newest(entry);
        self.is_live
            & !self.is_suspended
            & (entry.epoch == self.held.history.epoch())
            & is_member
            & is_newest
    }

    pub(crate) fn fits_commit(&self, stamp: Stamp) -> bool
        ensures value { WhereFieldsStand self.now (λ me n log. result ≡ fits me n log (Rec.Commit stamp)) }
        ensures can { result ≡ true → CanFollow self.now (Rec.Commit stamp) }
    {
        let is_next = self
            .held
            .logged
            .is_next(self.held.history.last_stamp(), stamp);
        self.is_live & !self.is_suspended & is_next
    }

    pub(crate) fn fits_adopt(&self, place: u64, entries: &[Entry]) -> bool
        ensures { WhereFieldsStand self.now (λ me n log. result ≡ fits me n log (Rec.Adopt place entries.now)) }
    {
        let is_place = place == self.held.history.len();
        let are_known = all_up_to(entries, self.known.get().epoch);
        let are_behind = stand_behind(self.held.history.last(), entries);
        (0 < self.boots) & is_place & are_known & are_behind & (!self.is_live | self.is_suspended)
    }

    pub(crate) fn fits_suspend(&self, epoch: u64) -> bool
        ensures { WhereFieldsStand self.now (λ me n log. result ≡ fits me n log (Rec.Suspend epoch)) }
    {
        (0 < self.boots) & (epoch == self.known.get().epoch) & !self.is_suspended
    }

    pub(crate) fn fits_promise(&self, instance: u64, ballot: Ballot) -> bool
        ensures { WhereFieldsStand self.now (λ me n log. result ≡ fits me n log (Rec.Promise instance ballot)) }
    {
        let is_next = is_after(instance, self.known.get().epoch);
        let is_above = ballot_precedes(self.promised.get(), ballot);
        (0 < self.boots) & is_next & is_above
    }

    pub(crate) fn fits_accept(&self, instance: u64, ballot: Ballot, decision: &Decision) -> bool
        ensures { WhereFieldsStand self.now (λ me n log. result ≡ fits me n log (Rec.Accept instance ballot decision.now)) }
    {
        let is_next = is_after(instance, self.known.get().epoch);
        let decides_next = is_after(decision.epoch, self.known.get().epoch);
        let is_below_promise = ballot_precedes(ballot, self.promised.get());
        let is_above_accepted = is_above(ballot, self.accepted.get());
        let has_base = decision.base_len <= self.held.history.len();
        (0 < self.boots) & is_next & decides_next & !is_below_promise & is_above_accepted & has_base
    }

    pub(crate) fn fits_decide(&self, decision: &Decision) -> bool
        ensures { WhereFieldsStand self.now (λ me n log. result ≡ fits me n log (Rec.Decide decision.now)) }
    {
        let has_members = has_members(self.n, decision);
        (0 < self.boots) & (self.known.get().epoch < decision.epoch) & has_members
    }

    pub(crate) fn fits_enter(&self, epoch: u64) -> bool
        ensures { WhereFieldsStand self.now (λ me n log. result ≡ fits me n log (Rec.Enter epoch)) }
    {
        let known = self.known.get();
        let is_member = is_among(known.members.as_slice(), self.me);
        let is_start = self.held.history.len() == self.start;
        (0 < self.boots) & (epoch == known.epoch) & is_member & is_start & !self.has_entered
    }
}

/// Returns whether no entry is of a later epoch.
fn all_up_to(entries: &[Entry], epoch: u64) -> bool
    ensures { result ≡ list_all (λ e. nat_le e.epoch epoch) entries.now }
{
    entries.iter().all(|entry| entry.epoch <= epoch)
}

/// Returns whether the list is not empty and its first entry is after `last`.
#[tactic(auto, unfolding(crate::specs::Executed::goes_on_behind))]
fn stand_behind(last: Option<Position>, entries: &[Entry]) -> bool
    ensures { result ≡ goes_on_behind last entries.now }
{
    match (last, entries) {
        (_, []) => false,
        (None, _) => true,
        (Some(last), [first, ..]) => is_behind(last, first),
    }
}

/// Returns whether the entry is after `last` in the global order, or there is no `last`.
#[tactic(auto, unfolding(crate::specs::Executed::goes_on_behind))]
pub fn stands_behind(last: Option<Position>, entry: &Entry) -> bool
    ensures { result ≡ goes_on_behind last (entry.now ∷ []) }
{
    match last {
        None => true,
        Some(last) => is_behind(last, entry),
    }
}

fn is_behind(last: Position, entry: &Entry) -> bool
    ensures { result ≡ (nat_lt last.epoch entry.now.epoch || (last.epoch == entry.now.epoch && stamp_lt last.stamp entry.now.stamp)) }
{
    let is_later = stamp_precedes(last.stamp, entry.stamp);
    last.epoch < entry.epoch || (last.epoch == entry.epoch && is_later)
}

/// Returns whether `number` is the epoch after `epoch`.
fn is_after(number: u64, epoch: u64) -> bool
    ensures { result ≡ (number == epoch + 1) }
{
    0 < number && number - 1 == epoch
}

/// Returns whether the ballot is above the accepted one, if any.
fn is_above(ballot: Ballot, accepted: &Option<(Ballot, Decision)>) -> bool
    ensures { result ≡ option_map_or (λ a. ballot_lt a.0 ballot) accepted.now true }
{
    match accepted {
        Some((other, _)) => ballot_precedes(*other, ballot),
        None => true,
    }
}

/// Returns whether the decision's members are valid for its epoch, in a cluster that began with `n` replicas.
fn has_members(n: u32, decision: &Decision) -> bool
    ensures { n ≤ 15 → result ≡ can_be_members (unwrap_or decision.now.spec (numbers_below n)) decision.now.members }
{
    match &decision.spec {
        Some(spec) => can_be_members(spec.as_slice(), decision.members.as_slice()),
        None => can_be_members(first_replicas(n), decision.members.as_slice()),
    }
}
