//! The answers of a suspended replica.

ghost use Rattle.std.specs.Prelude.{◌≡◌, ℕ, List, IfOk};
ghost use Rattle.crsm_base.specs.declared.Entry.{Entry};
ghost use Rattle.crsm_base.specs.declared.Rec.{Rec};
ghost use Rattle.crsm_base.specs.Messages.{FitsControl};
ghost use Rattle.crsm_base.specs.Spelling.{FitsEntries, FitsOption, FitsStamp};
ghost use Rattle.crsm_spec.specs.Collect.{suspend_ok};
ghost use Rattle.crsm_spec.specs.Log.{above};
ghost use Rattle.crsm_ledger.specs.Ledger.{HoldsLogged, LedgerStands};
ghost use Rattle.crsm_suspend.specs.Pages.{asked_stamp, IsPageOf};

use crate::sizes::entry_size;
use crsm_base::{Control, Entries, MAX_PAGE_BYTES, NoMemory, Stamp};
use crsm_ledger::Ledger;
use std::alloc::Global;

/// Returns the answer to a replica that ends the known epoch: the first page of the logged entries above `after`, at
/// `None` above the last executed entry. `NoMemory` if memory runs out.
pub fn page_of(alloc: Global, ledger: &Ledger, after: Option<Stamp>) -> Result<Control, NoMemory>
    ensures value { (me n : ℕ) (log : List Rec) → LedgerStands me n ledger.now log → IfOk result (λ answer. answer ≡ suspend_ok log after) }
    ensures fits { FitsOption FitsStamp after → IfOk result (λ c. FitsControl c) }
{
    let last = ledger.last_stamp();
    let page = page_above(alloc, ledger, asked(after, last))?;
    Ok(Control::SuspendOk {
        epoch: ledger.known().epoch,
        executed: ledger.executed_len(),
        last,
        after,
        whole: page.1,
        entries: page.0,
    })
}

/// Returns `after`, or `last` if it is `None`.
pub fn asked(after: Option<Stamp>, last: Option<Stamp>) -> Option<Stamp>
    ensures { result ≡ asked_stamp after last }
{
    match after {
        Some(after) => Some(after),
        None => last,
    }
}

/// Returns as many of the logged entries above the stamp as fit in a page, and whether these are all. `NoMemory` if
/// memory runs out.
fn page_above(
    alloc: Global,
    ledger: &Ledger,
    floor: Option<Stamp>,
) -> Result<(Entries, bool), NoMemory>
    ensures value { (es : List Entry) → HoldsLogged ledger.now es → IfOk result (λ page. IsPageOf (above floor es) page.0 page.1) }
    ensures fits { IfOk result (λ page. FitsEntries page.0) }
{
    let mut page = Entries::new(alloc);
    let mut room = MAX_PAGE_BYTES as u128;
    for index in ledger.first_above(floor)..ledger.logged_len() {
        let Ok(entry) = ledger.logged_at(index) else {
            drop(page);
            return Err(NoMemory);
        };
        let size = entry_size(&entry);
        if size > room {
            drop(entry);
            return Ok((page, false));
        }
        let Ok(()) = page.push(entry) else {
            drop(page);
            return Err(NoMemory);
        };
        room -= size;
    }
    Ok((page, true))
}
