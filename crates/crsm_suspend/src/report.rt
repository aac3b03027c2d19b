//! The report of one replica on its frozen log.

ghost use Rattle.std.specs.Prelude.{◌≡◌, ◌==◌, length, OnOk, OnErr};
ghost use Rattle.crsm_suspend.specs.Pages.{without_last};
ghost use Rattle.crsm_suspend.specs.Reports.{last_stamp_or};

use crate::pages::Pages;
use crsm_base::{Entries, Entry, NoMemory, Stamp};
use std::alloc::Global;

/// A page of a frozen log: its sender's executed length in entries, the stamp of the last executed entry of the epoch,
/// whether it is the last page, and its entries.
#[derive(Drop)]
pub struct Page {
    pub executed: u64,
    pub last: Option<Stamp>,
    pub is_whole: bool,
    pub entries: Entries,
}

/// The heading of a report: what its pages say besides their entries.
#[derive(Clone, Copy)]
pub struct ReportHead {
    /// The executed length that the first page names, in entries, and the stamp of the last executed entry.
    pub executed: u64,
    pub last: Option<Stamp>,
    /// The stamp of the last entry received, above which the next page is asked for.
    pub cursor: Option<Stamp>,
    /// Whether the last page was received.
    pub is_whole: bool,
}

/// The pages received from one replica.
#[derive(Drop)]
pub struct Report {
    pub head: ReportHead,
    pub pages: Pages,
}

impl Report {
    ghost use Rattle.crsm_suspend.specs.Reports.{head_with, with_page, no_report};

    /// Returns the report without pages.
    #[tactic(auto, unfolding(crate::specs::Reports::head_of, crsm_spec::specs::Lists::first_of, crsm_spec::specs::Lists::last_of))]
    pub fn new(alloc: Global) -> Report
        ensures { result ≡ no_report }
    {
        let head = ReportHead {
            executed: 0,
            last: None,
            cursor: None,
            is_whole: false,
        };
        Report {
            head,
            pages: Pages::new(alloc),
        }
    }

    /// Returns the heading after a further page.
    fn head_with(&self, page: &Page) -> ReportHead
        ensures { result ≡ head_with (length self.now.pages == 0) self.now.head page.now }
    {
        let is_first = self.pages.as_slice().is_empty();
        let cursor = last_stamp_or(self.head.cursor, page.entries.as_slice());
        ReportHead {
            executed: if is_first {
                page.executed
            } else {
                self.head.executed
            },
            last: if is_first { page.last } else { self.head.last },
            cursor,
            is_whole: self.head.is_whole || page.is_whole,
        }
    }

    /// Adds a page. `NoMemory` if memory runs out; nothing has changed then.
    pub fn push(&mut self, page: Page) -> Result<(), NoMemory>
        ensures ok { OnOk result (self.new ≡ with_page self.old page) }
        ensures err { OnErr result (self.new ≡ self.old) }
    {
        let head = self.head_with(&page);
        self.pages.push(page.entries)?;
        self.head = head;
        Ok(())
    }

    /// Removes the last page, and restores the heading from before it.
    pub fn take_back(&mut self, head: ReportHead)
        ensures head { self.new.head ≡ head }
        ensures pages { self.new.pages ≡ without_last self.old.pages }
    {
        self.pages.drop_last();
        self.head = head;
    }
}

/// Returns the last entry's stamp, or `stamp` if the list is empty.
#[tactic(auto, using(crate::proofs::ReportLemmas::last_is), unfolding(crate::specs::Reports::last_stamp_or))]
fn last_stamp_or(stamp: Option<Stamp>, entries: &[Entry]) -> Option<Stamp>
    ensures { result ≡ last_stamp_or stamp entries.now }
{
    match entries.last() {
        Some(last) => Some(last.stamp),
        None => stamp,
    }
}
