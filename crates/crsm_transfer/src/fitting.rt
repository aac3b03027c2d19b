//! The comparison of a page of executed entries with a ledger.

ghost use Rattle.std.specs.Prelude.{◌≡◌, ◌≤◌, ℕ, List, drop, take, IfOk};
ghost use Rattle.crsm_base.specs.declared.Rec.{Rec};
ghost use Rattle.crsm_base.specs.Messages.{FitsControl};
ghost use Rattle.crsm_base.specs.Spelling.{FitsEntries};
ghost use Rattle.crsm_spec.specs.Log.{active};
ghost use Rattle.crsm_ledger.specs.Ledger.{LedgerStands};
ghost use Rattle.crsm_transfer.specs.Fitting.{FitsAdopted, IsPage, fit_in, fit_of, new_above};

use crate::answer::Fit;
use crsm_base::{Control, Entries, Entry, NoMemory};
use crsm_ledger::Ledger;
use std::alloc::Global;

/// Returns how a page compares with the ledger, by the first of the four cases that applies. `NoMemory` if memory runs
/// out.
pub fn fit(alloc: Global, ledger: &Ledger, page: &Control) -> Result<Fit, NoMemory>
    requires { IsPage page.now }
    ensures value { (me n : ℕ) (log : List Rec) → LedgerStands me n ledger.now log → IfOk result (λ fit. fit ≡ fit_in log page.now) }
    ensures fits { FitsControl page.now → IfOk result FitsAdopted }
{
    match page {
        Control::Page {
            known,
            from,
            entries,
        } => fit_entries(alloc, ledger, *known, *from, entries.as_slice()),
        _ => Ok(Fit::Nothing),
    }
}

fn fit_entries(
    alloc: Global,
    ledger: &Ledger,
    known: u64,
    from: u64,
    entries: &[Entry],
) -> Result<Fit, NoMemory>
    ensures value { (me n : ℕ) (log : List Rec) → LedgerStands me n ledger.now log → IfOk result (λ fit. fit ≡ fit_of log known from entries.now) }
    ensures fits { FitsEntries entries.now → IfOk result FitsAdopted }
{
    let decision = ledger.known();
    let done = ledger.executed_len();
    if known > decision.epoch {
        return Ok(Fit::Ahead);
    }
    if from > done {
        return Ok(Fit::Gap);
    }
    let new = new_entries(done, decision.base_len, from, entries);
    if takes_part(ledger) {
        return Ok(Fit::Nothing);
    }
    if new.is_empty() {
        return Ok(Fit::Nothing);
    }
    Ok(Fit::Adopt(copied(alloc, new)?))
}

/// Returns whether the replica takes part in the known epoch: live and not suspended.
fn takes_part(ledger: &Ledger) -> bool
    ensures { (me n : ℕ) (log : List Rec) → LedgerStands me n ledger.now log → result ≡ active log }
{
    if ledger.suspended() {
        return false;
    }
    ledger.live()
}

/// Returns the entries of a page, which begins at index `from`, that are after the `done` executed ones; while `done`
/// is below `base`, only those below `base`.
fn new_entries(done: u64, base: u64, from: u64, entries: &[Entry]) -> &[Entry]
    requires { from ≤ done }
    ensures value { result.now ≡ new_above done base from entries.now }
    ensures fits { FitsEntries entries.now → FitsEntries result.now }
{
    let new = behind(entries, done - from);
    if done < base {
        up_to(new, base - done)
    } else {
        new
    }
}

/// Returns the entries after the first `count`.
fn behind(entries: &[Entry], count: u64) -> &[Entry]
    ensures { result.now ≡ drop count entries.now }
{
    let count = count as usize;
    if count >= entries.len() {
        &entries[entries.len()..]
    } else {
        &entries[count..]
    }
}

/// Returns the first `count` entries, or all if there are fewer.
fn up_to(entries: &[Entry], count: u64) -> &[Entry]
    ensures { result.now ≡ take count entries.now }
{
    let count = count as usize;
    if count >= entries.len() {
        entries
    } else {
        &entries[..count]
    }
}

/// Returns a copy of the entries. `NoMemory` if memory runs out.
fn copied(alloc: Global, entries: &[Entry]) -> Result<Entries, NoMemory>
    ensures { IfOk result (λ copy. copy ≡ entries.now) }
{
    let mut copy = Entries::new(alloc);
    for item in entries {
        copy.push(item.copy(alloc)?)?;
    }
    Ok(copy)
}
