//! The collection of frozen logs from a majority.

ghost use Rattle.std.specs.Prelude.{◌≡◌, ◌<◌, ◌≤◌, [], ◌∷◌, ◌++◌, List, Option, IfOk, OnOk, OnErr};
ghost use Rattle.crsm_base.specs.Messages.{FitsControl};
ghost use Rattle.crsm_base.specs.Spelling.{FitsOption, FitsStamp};
ghost use Rattle.crsm_base.specs.declared.Rec.{Rec};
ghost use Rattle.crsm_base.specs.declared.Stamp.{Stamp};
ghost use Rattle.crsm_spec.specs.Collect.{cursor, is_whole, own_page};
ghost use Rattle.crsm_spec.specs.Coordinate.{most_collected};
ghost use Rattle.crsm_spec.specs.Log.{known, start as start_of};
ghost use Rattle.crsm_suspend.specs.Collecting.{CollectStands, FitsGot, WhereCollecting, WhereCollectingOver, got_of, got_whole, pages_after};

use crate::collection::Collection;
use crate::got::PageOutcome;
use crsm_base::{Control, Members, NoMemory, Stamp};
use crsm_ledger::Ledger;
use std::alloc::Global;
use std::marker::Model;

/// The reports of frozen logs received from replicas, page by page, until those of a majority are whole. Its pages are
/// of one epoch and have encodings, so a decision that it completes with has one.
pub struct Collect {
    inner: Collection,
}

// Written by hand, it is one call for the crates above, which would prove a derived one again.
impl Drop for Collect {
    fn drop(self) {
        let Collect { inner: _ } = self;
    }
}

impl Model for Collect {
    ghost use Rattle.crsm_suspend.specs.declared.collection.Collection.{Collection};
    ghost use Rattle.crsm_suspend.specs.Collecting.{IsSound};

    ghost Value = { Collection };

    ghost view = { λ c. c.inner };

    ghost invariant = { λ c. IsSound c.inner };
}

impl Collect {
    /// Returns a collection for epoch `epoch` without reports. A majority of `spec` completes it; the decision names
    /// `named` as the next epoch's counted replicas and `members` as its members.
    pub fn start(
        alloc: Global,
        epoch: u64,
        start: u64,
        spec: Members,
        named: Option<Members>,
        members: Members,
    ) -> Collect
        requires epoch { epoch ≤ most_collected }
        requires start { start ≤ most_collected }
        ensures { (log : List Rec) → known log ≡ epoch → start_of log ≡ start → CollectStands log spec named members [] result }
    {
        let inner = Collection::start(alloc, epoch, start, spec, named, members);
        Collect { inner }
    }

    /// Takes the replica's own frozen log, whole, and returns the outcome: `Kept`, `Complete` or `TooMany`, or
    /// `Stranger`, with nothing changed, if the ledger is of another epoch. `NoMemory` if memory runs out; nothing has
    /// changed then.
    pub fn take_own(&mut self, me: u32, ledger: &Ledger) -> Result<PageOutcome, NoMemory>
        requires { me < 15 }
        ensures got { WhereCollectingOver me ledger.now self.old (λ log spec named members pages. IfOk result (λ got. got ≡ got_whole log spec named members (pages ++ own_page me log ∷ []))) }
        ensures state { WhereCollectingOver me ledger.now self.old (λ log spec named members pages. OnOk result (CollectStands log spec named members (pages ++ own_page me log ∷ []) self.new)) }
        ensures fits { IfOk result FitsGot }
        ensures err { OnErr result (self.new ≡ self.old) }
    {
        self.inner.take_own(me, ledger)
    }

    /// Takes a message from replica `from` and returns the outcome: `Stranger`, with nothing changed, if it is not the
    /// page that was asked for. `NoMemory` if memory runs out; nothing has changed then.
    pub fn take(&mut self, from: u32, answer: Control) -> Result<PageOutcome, NoMemory>
        requires from { from < 15 }
        requires fits { FitsControl answer }
        ensures got { WhereCollecting self.old (λ log spec named members pages. IfOk result (λ got. got ≡ got_of log spec named members pages from answer)) }
        ensures state { WhereCollecting self.old (λ log spec named members pages. OnOk result (CollectStands log spec named members (pages_after log spec pages from answer) self.new)) }
        ensures fits { IfOk result FitsGot }
        ensures err { OnErr result (self.new ≡ self.old) }
    {
        self.inner.take(from, answer)
    }

    /// Returns the stamp of the last entry received from replica `k`, above which its next page is asked for, or `None`
    /// if no entry was received.
    pub fn cursor(&self, k: u32) -> Option<Stamp>
        requires { k < 15 }
        ensures value { WhereCollecting self.now (λ log spec named members pages. result ≡ cursor pages k) }
        ensures fits { FitsOption FitsStamp result }
    {
        self.inner.cursor(k)
    }

    /// Returns whether the last page of replica `k` was received.
    pub fn is_whole(&self, k: u32) -> bool
        requires { k < 15 }
        ensures { WhereCollecting self.now (λ log spec named members pages. result ≡ is_whole pages k) }
    {
        self.inner.is_whole(k)
    }
}
