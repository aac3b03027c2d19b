//! The pages of frozen logs: a replica's own, and which page of another is expected.

ghost use Rattle.std.specs.Prelude.{◌≡◌, ℕ, List, IfOk};
ghost use Rattle.std.specs.List.{AllByRecursion};
ghost use Rattle.std.specs.Option.{option_eq};
ghost use Rattle.crsm_base.specs.Spelling.{FitsEntry};
ghost use Rattle.crsm_base.specs.Order.{stamp_eq};
ghost use Rattle.crsm_base.specs.declared.Entry.{Entry};
ghost use Rattle.crsm_base.specs.declared.Rec.{Rec};
ghost use Rattle.crsm_ledger.specs.Ledger.{HoldsLogged, LedgerStands, epoch_of};
ghost use Rattle.crsm_spec.specs.Collect.{own_page};
ghost use Rattle.crsm_spec.specs.Controls.{are_above, is_page_of};
ghost use Rattle.crsm_spec.specs.Log.{above, known};
ghost use Rattle.crsm_suspend.specs.Collecting.{CanSend};
ghost use Rattle.crsm_suspend.specs.Reports.{page_from};

use crate::checks::is_above;
use crate::frozen::asked;
use crate::report::Page;
use crsm_base::{Entries, Entry, NoMemory, Stamp};
use crsm_ledger::Ledger;
use std::alloc::Global;

/// Greatest executed length of a page, in entries: that plus a tail stays below 2^64.
const MOST_EXECUTED: u64 = u64::MAX - 4_096;

/// Returns the replica's own frozen log as one page. `NoMemory` if memory runs out.
pub fn own_page(alloc: Global, ledger: &Ledger) -> Result<Page, NoMemory>
    ensures page { (me n : ℕ) (log : List Rec) → LedgerStands me n ledger.now log → IfOk result (λ p. page_from me p ≡ own_page me log) }
    ensures told { (me n : ℕ) (log : List Rec) → LedgerStands me n ledger.now log → IfOk result (λ p. CanSend (known log) (page_from me p)) }
    ensures can { (k : ℕ) → IfOk result (λ p. CanSend (epoch_of ledger.now) (page_from k p)) }
{
    let executed = ledger.executed_len();
    let last = ledger.last_stamp();
    let entries = copies_above(alloc, ledger, last)?;
    Ok(Page {
        executed,
        last,
        is_whole: true,
        entries,
    })
}

/// Returns copies of the logged entries above a stamp, of all at `None`. `NoMemory` if memory runs out.
fn copies_above(alloc: Global, ledger: &Ledger, floor: Option<Stamp>) -> Result<Entries, NoMemory>
    ensures value { (es : List Entry) → HoldsLogged ledger.now es → IfOk result (λ copies. copies ≡ above floor es) }
    ensures fit { IfOk result (AllByRecursion FitsEntry) }
    ensures epoch { IfOk result (AllByRecursion (λ e. e.epoch ≡ epoch_of ledger.now)) }
{
    let mut copies = Entries::new(alloc);
    for index in ledger.first_above(floor)..ledger.logged_len() {
        let Ok(entry) = ledger.logged_at(index) else {
            drop(copies);
            return Err(NoMemory);
        };
        let Ok(()) = copies.push(entry) else {
            drop(copies);
            return Err(NoMemory);
        };
    }
    Ok(copies)
}

/// Returns whether the page is the expected next one: of the known epoch and asked for from `cursor` on, with entries
/// above it only, at least one unless it is the last page.
pub fn is_page(
    known: u64,
    cursor: Option<Stamp>,
    epoch: u64,
    after: Option<Stamp>,
    page: &Page,
) -> bool
    ensures { (k : ℕ) → result ≡ is_page_of known epoch cursor after (page_from k page.now) }
{
    let entries = page.entries.as_slice();
    let is_next = (epoch == known) & is_same(after, cursor);
    let are_behind = are_above(epoch, asked(after, page.last), entries);
    let says_more = !entries.is_empty() | page.is_whole;
    (is_next & are_behind) & (says_more & (page.executed <= MOST_EXECUTED))
}

#[tactic(auto, unfolding(crsm_base::specs::Order::stamp_eq))]
fn is_same(after: Option<Stamp>, cursor: Option<Stamp>) -> bool
    ensures { result ≡ option_eq stamp_eq after cursor }
{
    after == cursor
}

/// Returns whether the entries are of the epoch and above the stamp.
#[tactic(auto, unfolding(crsm_spec::specs::Controls::are_above, crate::specs::Pages::is_over))]
fn are_above(epoch: u64, floor: Option<Stamp>, entries: &[Entry]) -> bool
    ensures { result ≡ are_above epoch floor entries.now }
{
    entries.iter().all(|entry| entry.epoch == epoch && is_above(floor, entry.stamp))
}
