//! The ledger of one replica: its fields, its readers, and how a record changes it.

ghost use Rattle.std.specs.Prelude.{◌≡◌, ℕ, ◌≤◌, ◌<◌, ◌^◌, true, false, List, [], ◌∷◌, length, slice_get, drop, Some, IfOk, IfSome};
ghost use Rattle.std.specs.Option.{option_map, option_copied};
ghost use Rattle.crsm_base.specs.declared.Rec.{Rec};
ghost use Rattle.crsm_base.specs.Messages.{FitsVote};
ghost use Rattle.crsm_base.specs.Spelling.{entry_bytes, FitsBallot, FitsDecision, FitsEntry, FitsOption, FitsStamp};
ghost use Rattle.crsm_base.specs.Members.{IsMembers};
ghost use Rattle.crsm_base.specs.Records.{FitsRec};
ghost use Rattle.crsm_spec.specs.Fits.{fits, goes_on};
ghost use Rattle.crsm_spec.specs.Lines.{lines_of};
ghost use Rattle.crsm_ledger.specs.Ledger.{HasLogged, HoldsLogged, WhereStands, epoch_of, executed_count, kind, logged_count};
ghost use Rattle.crsm_spec.specs.Log.{boots, known, start, live, suspended, executed, logged, above, unexecuted, last_stamp, promised, accepted, spec};

use crate::checks::stands_behind;
use crate::error::LedgerError;
use crate::fields::{AcceptedVote, KnownDecision, PromisedBallot};
use crate::held::HeldEntries;
use crsm_base::{
    Ballot, Decision, Entries, Entry, Lines, Members, MembersError, NoMemory, Rec, Stamp,
    first_replicas,
};
use std::alloc::Global;

/// The state that the records of a replica's log lead to. After `NoMemory` the ledger is spent, and its fields are
/// unspecified.
pub struct Ledger {
    pub(crate) alloc: Global,
    pub(crate) me: u32,
    pub(crate) n: u32,
    /// The replicas that began the cluster.
    pub(crate) founders: Members,
    pub(crate) is_spent: bool,
    pub(crate) boots: u64,
    pub(crate) known: KnownDecision,
    pub(crate) start: u64,
    pub(crate) is_live: bool,
    pub(crate) is_suspended: bool,
    /// Whether a boot of this replica has entered the known epoch.
    pub(crate) has_entered: bool,
    pub(crate) promised: PromisedBallot,
    pub(crate) accepted: AcceptedVote,
    pub(crate) held: HeldEntries,
}

// Written by hand, it is one call for the crates above, which would prove a derived one again.
impl Drop for Ledger {
    fn drop(self) {
        let Ledger {
            alloc: _,
            me: _,
            n: _,
            founders: _,
            is_spent: _,
            boots: _,
            known: _,
            start: _,
            is_live: _,
            is_suspended: _,
            has_entered: _,
            promised: _,
            accepted: _,
            held: _,
        } = self;
    }
}

/// The promise before any ballot was promised.
pub(crate) const NO_BALLOT: Ballot = Ballot { round: 0, by: 0 };

/// Returns these numbers as members. `NoMemory` if memory runs out.
fn members_of(alloc: Global, numbers: &[u32]) -> Result<Members, NoMemory>
    requires { IsMembers numbers.now }
    ensures { IfOk result (λ members. members ≡ numbers.now) }
{
    match Members::from_slice(alloc, numbers) {
        Ok(members) => Ok(members),
        Err(MembersError::NoMemory) => Err(NoMemory),
        Err(MembersError::NotAscending) => unreachable!(),
    }
}

impl Ledger {
    ghost use Rattle.crsm_ledger.specs.Ledger.{LedgerStands, IsSpent, known_decision};

    /// Returns the ledger of an empty log, of replica `me` in a cluster that began with `n` replicas. `NoMemory` if
    /// memory runs out.
    #[tactic(auto, using(crate::proofs::FounderLemmas::founders_are_members))]
    pub fn new(alloc: Global, me: u32, n: u32) -> Result<Ledger, NoMemory>
        requires me_below { me < 15 }
        requires some { 1 ≤ n }
        requires few { n ≤ 15 }
        ensures { IfOk result (λ ledger. LedgerStands me n ledger []) }
    {
        let numbers = first_replicas(n);
        let founders = members_of(alloc, numbers)?;
        let members = members_of(alloc, numbers)?;
        let held = HeldEntries::new(alloc)?;
        let decision = Decision {
            epoch: 0,
            spec: None,
            members,
            base_len: 0,
            tail: Entries::new(alloc),
        };
        Ok(Ledger {
            alloc,
            me,
            n,
            founders,
            is_spent: false,
            boots: 0,
            known: KnownDecision { decision },
            start: 0,
            is_live: false,
            is_suspended: false,
            has_entered: false,
            promised: PromisedBallot { ballot: NO_BALLOT },
            accepted: AcceptedVote { vote: None },
            held,
        })
    }

    /// Returns the number of boots on record.
    pub fn boot(&self) -> u64
        ensures { WhereStands self.now (λ me n log. result ≡ boots log) }
    {
        self.boots
    }

    /// Returns the decision of the known epoch. Epoch 0 has all replicas that began the cluster, no base and no tail.
    pub fn known(&self) -> &Decision
        ensures value { WhereStands self.now (λ me n log. result.now ≡ known_decision n log) }
        ensures fits { 1 ≤ result.now.epoch → FitsDecision result.now }
    {
        self.known.get()
    }

    /// Returns the number of the known epoch.
    #[tactic(auto, unfolding(crate::specs::Ledger::epoch_of))]
    pub fn epoch(&self) -> u64
        ensures value { WhereStands self.now (λ me n log. result ≡ known log) }
        ensures is { result ≡ epoch_of self.now }
    {
        self.held.history.epoch()
    }

    /// Returns the number of entries that were executed when the known epoch began.
    pub fn start(&self) -> u64
        ensures { WhereStands self.now (λ me n log. result ≡ start log) }
    {
        self.start
    }

    /// Returns whether this boot has entered the known epoch.
    pub fn live(&self) -> bool
        ensures { WhereStands self.now (λ me n log. result ≡ live log) }
    {
        self.is_live
    }

    /// Returns whether the replica is suspended: it takes no further part in the known epoch.
    pub fn suspended(&self) -> bool
        ensures { WhereStands self.now (λ me n log. result ≡ suspended log) }
    {
        self.is_suspended
    }

    /// Returns the number of executed entries.
    #[tactic(auto, unfolding(crate::specs::Ledger::executed_count))]
    pub fn executed_len(&self) -> u64
        ensures value { WhereStands self.now (λ me n log. result ≡ length (executed log)) }
        ensures count { result ≡ executed_count self.now }
        ensures few { result < 2 ^ 63 }
    {
        self.held.history.len()
    }

    /// Returns the executed entry with this index, or `None` if the index is not below `executed_len`. `NoMemory` if
    /// memory runs out.
    pub fn executed(&self, place: u64) -> Result<Option<Entry>, NoMemory>
        ensures value { WhereStands self.now (λ me n log. IfOk result (λ r. r ≡ slice_get (executed log) place)) }
        ensures fit { IfOk result (λ r. IfSome r FitsEntry) }
    {
        self.held.history.executed(place)
    }

    /// Returns the executed entry with this index, which is below `executed_len`. `NoMemory` if memory runs out.
    #[tactic(auto, unfolding(crate::specs::Ledger::executed_count))]
    pub fn executed_at(&self, place: u64) -> Result<Entry, NoMemory>
        requires { place < executed_count self.now }
        ensures value { WhereStands self.now (λ me n log. IfOk result (λ e. slice_get (executed log) place ≡ Some e)) }
        ensures fit { IfOk result FitsEntry }
    {
        let entry = self.held.history.entry(place)?;
        Ok(entry)
    }

    /// Returns whether the entry is after all executed ones, and so is not one of them.
    pub fn is_ahead(&self, entry: &Entry) -> bool
        ensures { WhereStands self.now (λ me n log. result ≡ goes_on (executed log) (entry.now ∷ [])) }
    {
        stands_behind(self.held.history.last(), entry)
    }

    /// Returns the encoding of the executed entry with this index, or `None` if the index is not below `executed_len`.
    pub fn spelt(&self, place: u64) -> Option<&[u8]>
        ensures { WhereStands self.now (λ me n log. option_copied result ≡ option_map entry_bytes (slice_get (executed log) place)) }
    {
        self.held.history.spelt(place)
    }

    /// Returns the number of logged entries of the known epoch.
    #[tactic(auto, unfolding(crate::specs::Ledger::logged_count))]
    pub fn logged_len(&self) -> usize
        ensures value { WhereStands self.now (λ me n log. result ≡ length (logged log)) }
        ensures count { result ≡ logged_count self.now }
        ensures holds { (es : List Entry) → HoldsLogged self.now es → result ≡ length es }
        ensures some { ∥ HasLogged self.now ∥₁ }
    {
        self.held.logged.len()
    }

    /// Returns the logged entry of the known epoch with this index, by ascending stamp. `NoMemory` if memory runs out.
    #[tactic(auto, unfolding(crate::specs::Ledger::logged_count))]
    pub fn logged_at(&self, index: usize) -> Result<Entry, NoMemory>
        requires { index < logged_count self.now }
        ensures value { WhereStands self.now (λ me n log. IfOk result (λ e. slice_get (logged log) index ≡ Some e)) }
        ensures holds { (es : List Entry) → HoldsLogged self.now es → IfOk result (λ e. slice_get es index ≡ Some e) }
        ensures fit { IfOk result FitsEntry }
    {
        let entry = self.held.entry(index)?;
        Ok(entry)
    }

    /// Returns the index of the first logged entry of the known epoch above a stamp (at `None` of the first of all), or
    /// their number if there is none.
    pub fn first_above(&self, stamp: Option<Stamp>) -> usize
        ensures value { WhereStands self.now (λ me n log. drop result (logged log) ≡ above stamp (logged log)) }
        ensures holds { (es : List Entry) → HoldsLogged self.now es → drop result es ≡ above stamp es }
    {
        self.held.logged.first_above(stamp)
    }

    /// Returns the number of logged entries of the known epoch that are not executed.
    #[tactic(auto, unfolding(crsm_spec::specs::Log::unexecuted))]
    pub fn unexecuted_len(&self) -> u64
        ensures { WhereStands self.now (λ me n log. result ≡ length (unexecuted log)) }
    {
        let first = self.held.logged.first_above(self.held.history.last_stamp());
        (self.held.logged.len() - first) as u64
    }

    /// Returns the stamp of the last executed entry of the known epoch, or `None` if there is none.
    pub fn last_stamp(&self) -> Option<Stamp>
        ensures value { WhereStands self.now (λ me n log. result ≡ last_stamp log) }
        ensures fits { FitsOption FitsStamp result }
    {
        self.held.history.last_stamp()
    }

    /// Returns the ballot that is promised for the next decision, or round 0 of replica 0 if none is.
    pub fn promised(&self) -> Ballot
        ensures value { WhereStands self.now (λ me n log. result ≡ promised log) }
        ensures fits { FitsBallot result }
    {
        self.promised.get()
    }

    /// Returns the decision of the next epoch that was accepted last, with its ballot, or `None` if none was.
    pub fn accepted(&self) -> Option<(&Ballot, &Decision)>
        ensures value { WhereStands self.now (λ me n log. option_map (λ p. (p.0.now, p.1.now)) result ≡ accepted log) }
        ensures fits { FitsOption FitsVote (option_map (λ p. (p.0.now, p.1.now)) result) }
    {
        match self.accepted.get() {
            Some((ballot, decision)) => Some((ballot, decision)),
            None => None,
        }
    }

    /// Returns the replicas whose majorities count in the known epoch.
    pub fn counted(&self) -> &Members
        ensures { WhereStands self.now (λ me n log. result.now ≡ spec n log) }
    {
        match &self.known.get().spec {
            Some(members) => members,
            None => &self.founders,
        }
    }

    /// Returns a copy of the replicas whose majorities count in the known epoch. `NoMemory` if memory runs out.
    pub fn spec(&self) -> Result<Members, NoMemory>
        ensures { WhereStands self.now (λ me n log. IfOk result (λ members. members ≡ spec n log)) }
    {
        let members = self.counted().copy(self.alloc)?;
        Ok(members)
    }

    /// Applies a record and returns its lines. `NotFit`, with the record's kind, if the record may not come next;
    /// nothing has changed then. `NoMemory` if memory runs out; the ledger is then spent.
    pub fn apply(&mut self, rec: &Rec) -> Result<Lines, LedgerError>
        requires { FitsRec rec.now }
        ensures kept { WhereStands self.old (λ me n log. IfOk result (λ lines. (fits me n log rec.now ≡ true) × (lines ≡ lines_of me log rec.now) × LedgerStands me n self.new (rec.now ∷ log))) }
        ensures not_fit { (me n why : ℕ) (log : List Rec) → LedgerStands me n self.old log → result ≡ Err (LedgerError.NotFit why) → (fits me n log rec.now ≡ false) × (why ≡ kind rec.now) }
        ensures unchanged { (why : ℕ) → result ≡ Err (LedgerError.NotFit why) → self.new ≡ self.old }
        ensures spent { result ≡ Err LedgerError.NoMemory → IsSpent self.new }
        ensures stays_spent { IsSpent self.old → result ≡ Err LedgerError.NoMemory }
        ensures no_bad_log { (entry why : ℕ) → result ≡ Err (LedgerError.BadLog entry why) → ⊥ }
    {
        if self.is_spent {
            return Err(LedgerError::NoMemory);
        }
        if !self.admits(rec) {
            return Err(LedgerError::NotFit { why: kind_of(rec) });
        }
        // A caller that sees the error below must not read the effect of half a record.
        self.is_spent = true;
        let lines = self.keep(rec)?;
        self.is_spent = false;
        Ok(lines)
    }
}

/// Returns the record's kind, the first byte of its encoding.
#[tactic(auto, unfolding(crate::specs::Ledger::kind))]
pub(crate) fn kind_of(rec: &Rec) -> u32
    ensures { result ≡ kind rec.now }
{
    match rec {
        Rec::Boot { .. } => 1,
        Rec::Prepare { .. } => 2,
        Rec::Commit { .. } => 3,
        Rec::Adopt { .. } => 4,
        Rec::Suspend { .. } => 5,
        Rec::Promise { .. } => 6,
        Rec::Accept { .. } => 7,
        Rec::Decide { .. } => 8,
        Rec::Enter { .. } => 9,
    }
}
