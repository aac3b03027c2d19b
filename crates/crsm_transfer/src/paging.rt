//! The request for executed entries, and the page that answers it.

ghost use Rattle.std.specs.Prelude.{◌≡◌, ℕ, List, [], ◌∷◌, drop, length, IfOk};
ghost use Rattle.std.specs.Option.{IfSome};
ghost use Rattle.crsm_base.specs.declared.Rec.{Rec};
ghost use Rattle.crsm_base.specs.declared.Control.{Control};
ghost use Rattle.crsm_base.specs.Messages.{FitsControl};
ghost use Rattle.crsm_base.specs.Spelling.{FitsEntries, Rises};
ghost use Rattle.crsm_spec.specs.Log.{known, executed};
ghost use Rattle.crsm_spec.specs.Collect.{first_page};
ghost use Rattle.crsm_spec.specs.Fits.{goes_on};
ghost use Rattle.crsm_ledger.specs.Ledger.{LedgerStands};
ghost use Rattle.crsm_transfer.specs.Paging.{page_at};

use crsm_base::{Control, Entries, Entry, MAX_PAGE_BYTES, NoMemory, entry_precedes};
use crsm_ledger::Ledger;
use crsm_suspend::entry_size;
use std::alloc::Global;

/// Returns the request for the executed entries after one's own and for decisions above the known epoch. A library
/// call: a replica makes the same message where it sends it (`crsm_replica`).
pub fn want(ledger: &Ledger) -> Control
    ensures { (me n : ℕ) (log : List Rec) → LedgerStands me n ledger.now log → result ≡ Control.Retrieve (known log) (length (executed log)) }
{
    Control::Retrieve {
        known: ledger.known().epoch,
        from: ledger.executed_len(),
    }
}

/// Returns the page of executed entries from index `from` on, as many as fit in one. `None` if `from` is not below the
/// executed length. `NoMemory` if memory runs out. No other entries are read, but for the first that does not fit.
pub fn page(alloc: Global, ledger: &Ledger, from: u64) -> Result<Option<Control>, NoMemory>
    ensures value { (me n : ℕ) (log : List Rec) → LedgerStands me n ledger.now log → Rises (executed log) → IfOk result (λ page. page ≡ page_at log from) }
    ensures fits { IfOk result (λ page. IfSome page FitsControl) }
{
    if from >= ledger.executed_len() {
        return Ok(None);
    }
    let known = ledger.epoch();
    let entries = entries_from(alloc, ledger, from)?;
    Ok(Some(Control::Page {
        known,
        from,
        entries,
    }))
}

/// Returns as many of the executed entries from an index on as fit in a page. One that is not after the one before it
/// ends the page: the entries that a log executes rise, which a ledger does not know, and only such a page can be sent.
fn entries_from(alloc: Global, ledger: &Ledger, from: u64) -> Result<Entries, NoMemory>
    ensures value { (me n : ℕ) (log : List Rec) → LedgerStands me n ledger.now log → Rises (executed log) → IfOk result (λ es. es ≡ first_page (drop from (executed log))) }
    ensures fits { IfOk result FitsEntries }
{
    let mut entries = Entries::new(alloc);
    let mut room = MAX_PAGE_BYTES as u128;
    for place in from..ledger.executed_len() {
        let entry = ledger.executed_at(place)?;
        let size = entry_size(&entry);
        if size > room {
            return Ok(entries);
        }
        if !goes_on(entries.as_slice(), &entry) {
            return Ok(entries);
        }
        entries.push(entry)?;
        room -= size;
    }
    Ok(entries)
}

/// Returns whether the entry is after the last of these in the global order; true if there are none.
#[tactic(auto, using(crsm_suspend::proofs::ReportLemmas::last_is), unfolding(crsm_spec::specs::Fits::goes_on))]
fn goes_on(entries: &[Entry], entry: &Entry) -> bool
    ensures { result ≡ goes_on entries.now (entry.now ∷ []) }
{
    match entries.last() {
        Some(last) => entry_precedes(last, entry),
        None => true,
    }
}
