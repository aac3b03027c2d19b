//! The collection of frozen logs from a majority, whatever its pages are.

ghost use Rattle.std.specs.Prelude.{◌≡◌, ◌<◌, ◌≤◌, [], ◌∷◌, ◌++◌, List, Option, IfOk, OnOk, OnErr};
ghost use Rattle.crsm_base.specs.Members.{IsMembers};
ghost use Rattle.crsm_base.specs.Messages.{FitsControl};
ghost use Rattle.crsm_base.specs.Spelling.{FitsOption};
ghost use Rattle.crsm_base.specs.declared.Rec.{Rec};
ghost use Rattle.crsm_base.specs.declared.Stamp.{Stamp};
ghost use Rattle.crsm_spec.specs.Collect.{own_page, collected};
ghost use Rattle.crsm_spec.specs.Coordinate.{most_collected};
ghost use Rattle.crsm_spec.specs.Log.{known, start as start_of};

use crate::asked::{is_page, own_page};
use crate::got::{PageOutcome, decided, more};
use crate::report::{Page, Report, ReportHead};
use crate::reports::{base_of, floor_of, tail_of, whole_count};
use crsm_base::{Control, Decision, Members, MembersError, NoMemory, Stamp, majority};
use crsm_ledger::Ledger;
use std::alloc::Global;

/// The reports of a collection, and what its decision is made of besides.
#[derive(Drop)]
pub struct Collection {
    pub alloc: Global,
    /// The epoch that ends. The decision is on the next one.
    pub epoch: u64,
    pub next: u64,
    /// Number of entries that were executed when the epoch began.
    pub start: u64,
    /// The replicas whose majority counts.
    pub spec: Members,
    /// The replicas whose majorities count in the next epoch, as the decision names them.
    pub named: Option<Members>,
    /// The members of the next epoch.
    pub members: Members,
    /// By replica number.
    pub reports: [Report; 15],
}

impl Collection {
    ghost use Rattle.crsm_suspend.specs.Collecting.{CollectStands, IsSound, is_asked, got_whole, got_from, got_of, pages_after, FitsGot, WhereCanSend, WhereCollecting, WhereCollectingOver};
    ghost use Rattle.crsm_suspend.specs.Reports.{head_of, page_from};
    ghost use Rattle.crsm_spec.specs.Collect.{pages_of, cursor, is_whole, whole_ones};
    ghost use Rattle.crsm_spec.specs.Quorum.{has_majority};

    /// Returns a collection for epoch `epoch` without reports. A majority of `spec` completes it; the decision names
    /// `named` as the next epoch's counted replicas and `members` as its members.
    pub fn start(
        alloc: Global,
        epoch: u64,
        start: u64,
        spec: Members,
        named: Option<Members>,
        members: Members,
    ) -> Collection
        requires epoch { epoch ≤ most_collected }
        requires start { start ≤ most_collected }
        ensures { (log : List Rec) → known log ≡ epoch → start_of log ≡ start → CollectStands log spec named members [] result }
    {
        Collection {
            alloc,
            epoch,
            next: epoch + 1,
            start,
            spec,
            named,
            members,
            reports: [
                Report::new(alloc),
                Report::new(alloc),
                Report::new(alloc),
                Report::new(alloc),
                Report::new(alloc),
                Report::new(alloc),
                Report::new(alloc),
                Report::new(alloc),
                Report::new(alloc),
                Report::new(alloc),
                Report::new(alloc),
                Report::new(alloc),
                Report::new(alloc),
                Report::new(alloc),
                Report::new(alloc),
            ],
        }
    }

    /// Takes the replica's own frozen log, whole, and returns the outcome: `Kept`, `Complete` or `TooMany`, or
    /// `Stranger`, with nothing changed, if the ledger is of another epoch. `NoMemory` if memory runs out; nothing has
    /// changed then.
    pub fn take_own(&mut self, me: u32, ledger: &Ledger) -> Result<PageOutcome, NoMemory>
        requires { me < 15 }
        ensures got { WhereCollectingOver me ledger.now self.old (λ log spec named members pages. IfOk result (λ got. got ≡ got_whole log spec named members (pages ++ own_page me log ∷ []))) }
        ensures state { WhereCollectingOver me ledger.now self.old (λ log spec named members pages. OnOk result (CollectStands log spec named members (pages ++ own_page me log ∷ []) self.new)) }
        ensures sound { IsSound self.old → OnOk result (IsSound self.new) }
        ensures fits { IsSound self.old → IfOk result FitsGot }
        ensures err { OnErr result (self.new ≡ self.old) }
    {
        if ledger.epoch() != self.epoch {
            return Ok(PageOutcome::Stranger);
        }
        let page = own_page(self.alloc, ledger)?;
        self.add(me, page)
    }

    /// Takes a message from replica `from` and returns the outcome: `Stranger`, with nothing changed, if it is not the
    /// page that was asked for. `NoMemory` if memory runs out; nothing has changed then.
    pub fn take(&mut self, from: u32, answer: Control) -> Result<PageOutcome, NoMemory>
        requires from { from < 15 }
        requires fits { FitsControl answer }
        ensures got { WhereCollecting self.old (λ log spec named members pages. IfOk result (λ got. got ≡ got_of log spec named members pages from answer)) }
        ensures state { WhereCollecting self.old (λ log spec named members pages. OnOk result (CollectStands log spec named members (pages_after log spec pages from answer) self.new)) }
        ensures fits { WhereCollecting self.old (λ log spec named members pages. IfOk result FitsGot) }
        ensures err { OnErr result (self.new ≡ self.old) }
    {
        let Control::SuspendOk {
            epoch,
            executed,
            last,
            after,
            whole,
            entries,
        } = answer
        else {
            drop(answer);
            return Ok(PageOutcome::Stranger);
        };
        let page = Page {
            executed,
            last,
            is_whole: whole,
            entries,
        };
        if !self.is_asked(from, epoch, after, &page) {
            drop(page);
            return Ok(PageOutcome::Stranger);
        }
        self.add(from, page)
    }

    /// Returns the stamp of the last entry received from replica `k`, above which its next page is asked for, or `None`
    /// if no entry was received.
    pub fn cursor(&self, k: u32) -> Option<Stamp>
        requires { k < 15 }
        ensures { WhereCollecting self.now (λ log spec named members pages. result ≡ cursor pages k) }
    {
        self.head(k).cursor
    }

    /// Returns whether the last page of replica `k` was received.
    pub fn is_whole(&self, k: u32) -> bool
        requires { k < 15 }
        ensures { WhereCollecting self.now (λ log spec named members pages. result ≡ is_whole pages k) }
    {
        self.head(k).is_whole
    }

    fn head(&self, k: u32) -> ReportHead
        requires { k < 15 }
        ensures { WhereCollecting self.now (λ log spec named members pages. result ≡ head_of (pages_of pages k)) }
    {
        self.reports[k as usize].head
    }

    /// Returns whether this page was asked for.
    fn is_asked(&self, from: u32, epoch: u64, after: Option<Stamp>, page: &Page) -> bool
        requires { from < 15 }
        ensures { WhereCollecting self.now (λ log spec named members pages. result ≡ is_asked log spec pages epoch after (page_from from page.now)) }
    {
        let is_of_spec = self.spec.has(from);
        let head = self.head(from);
        let is_next = is_page(self.epoch, head.cursor, epoch, after, page);
        is_of_spec & (is_next & !head.is_whole)
    }

    /// Adds a page and returns the outcome. `NoMemory` if memory runs out; nothing has changed then.
    fn add(&mut self, from: u32, page: Page) -> Result<PageOutcome, NoMemory>
        requires { from < 15 }
        ensures got { WhereCanSend self.old (page_from from page) (λ log spec named members pages. IfOk result (λ got. got ≡ got_from log spec named members (pages ++ page_from from page ∷ []) from)) }
        ensures state { WhereCanSend self.old (page_from from page) (λ log spec named members pages. OnOk result (CollectStands log spec named members (pages ++ page_from from page ∷ []) self.new)) }
        ensures fits { WhereCanSend self.old (page_from from page) (λ log spec named members pages. IfOk result FitsGot) }
        ensures err { OnErr result (self.new ≡ self.old) }
    {
        let index = from as usize;
        let before = self.reports[index].head;
        self.reports[index].push(page)?;
        let got = self.got(from);
        if got.is_err() {
            self.reports[index].take_back(before);
        }
        got
    }

    /// Returns the outcome of the page just added for replica `from`.
    fn got(&self, from: u32) -> Result<PageOutcome, NoMemory>
        requires { from < 15 }
        ensures got { WhereCollecting self.now (λ log spec named members pages. IfOk result (λ got. got ≡ got_from log spec named members pages from)) }
        ensures fits { WhereCollecting self.now (λ log spec named members pages. IfOk result FitsGot) }
    {
        let head = self.head(from);
        if !head.is_whole {
            return Ok(more(from, head.cursor));
        }
        if !self.has_majority() {
            return Ok(PageOutcome::Kept);
        }
        Ok(decided(self.decision()?))
    }

    /// Returns whether a majority of the counted replicas is whole.
    fn has_majority(&self) -> bool
        ensures { WhereCollecting self.now (λ log spec named members pages. result ≡ has_majority spec (whole_ones spec pages)) }
    {
        let least = majority(self.spec.count()) as usize;
        least <= whole_count(&self.reports, self.spec.as_slice())
    }

    /// Returns the decision that the whole replicas lead to. `NoMemory` if memory runs out.
    fn decision(&self) -> Result<Decision, NoMemory>
        ensures value { WhereCollecting self.now (λ log spec named members pages. IfOk result (λ d. d ≡ collected spec named log members pages)) }
        ensures members { IfOk result (λ d. IsMembers d.members × FitsOption IsMembers d.spec) }
    {
        let spec = self.spec.as_slice();
        let base_len = base_of(self.start, &self.reports, spec);
        let floor = floor_of(base_len, &self.reports, spec);
        let tail = tail_of(self.alloc, floor, &self.reports, spec)?;
        let Ok(named) = copy_of_option(self.alloc, &self.named) else {
            drop(tail);
            return Err(NoMemory);
        };
        let Ok(members) = copy_of(self.alloc, &self.members) else {
            drop((tail, named));
            return Err(NoMemory);
        };
        Ok(Decision {
            epoch: self.next,
            spec: named,
            members,
            base_len,
            tail,
        })
    }
}

fn copy_of(alloc: Global, members: &Members) -> Result<Members, NoMemory>
    ensures { IfOk result (λ copy. (copy ≡ members.now) × IsMembers copy) }
{
    match Members::from_slice(alloc, members.as_slice()) {
        Ok(copy) => Ok(copy),
        Err(MembersError::NoMemory) => Err(NoMemory),
        Err(MembersError::NotAscending) => unreachable!(),
    }
}

fn copy_of_option(alloc: Global, members: &Option<Members>) -> Result<Option<Members>, NoMemory>
    ensures { IfOk result (λ copy. (copy ≡ members.now) × FitsOption IsMembers copy) }
{
    match members {
        Some(members) => Ok(Some(copy_of(alloc, members)?)),
        None => Ok(None),
    }
}
