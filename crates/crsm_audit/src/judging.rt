//! The verdict on the accounts of sheets.

ghost use Rattle.std.specs.Prelude.{◌≡◌, ℕ, [], List, IfOk, IfSome, IfNone};
ghost use Rattle.crsm_law_sheets.specs.Sheets.{Sheet};
ghost use Rattle.crsm_audit.specs.Accounts.{AccountsStand};
ghost use Rattle.crsm_audit.specs.Judging.{AreWithin, DropsFirst, IsOdd, IsStranger, NamesFirst};
ghost use Rattle.crsm_audit.specs.Lists.{IsAscending, WhereNamed, longest_of};
ghost use Rattle.crsm_audit.specs.Lists as on_paper;
ghost use Rattle.crsm_audit.specs.Verdict.{IsVerdict};

use crate::account::Account;
use crate::entries::AccountEntries;
use crate::list::{first_difference, place_at};
use crate::naming::is_named;
use crate::origins::Origins;
use crate::verdict::Verdict;
use crsm_base::NoMemory;
use crsm_codec::one_spelling_each;
use crsm_law_sheets::{entries_stand_in_order, one_list_rises};
use std::alloc::Global;

/// Returns the entries with the longer list, the first if the lists are equally long.
#[tactic(auto, unfolding(crate::specs::Lists::longer))]
fn longer<'a>(best: &'a AccountEntries, other: &'a AccountEntries) -> &'a AccountEntries
    ensures { result.now.list ≡ on_paper.longer best.now.list other.now.list }
{
    if best.list_len() < other.list_len() {
        other
    } else {
        best
    }
}

/// Returns the entries of the account with the longest list, the first among equals, or `none`, whose list is empty, if
/// there is no longer one.
pub(crate) fn longest<'a>(accounts: &'a [Account], none: &'a AccountEntries) -> &'a AccountEntries
    requires { none.now.list ≡ [] }
    ensures { result.now.list ≡ longest_of accounts.now }
{
    let mut best = none;
    for account in accounts {
        best = longer(best, &account.entries);
    }
    best
}

/// Returns the first account whose list is not a prefix of `one`, and the index where it differs, or `None`.
fn odd_list(accounts: &[Account], one: &AccountEntries) -> Option<(usize, usize)>
    ensures found { IfSome result (λ odd. IsOdd accounts.now one.now.list odd.0 odd.1) }
    ensures none { IfNone result (AreWithin accounts.now one.now.list) }
{
    for (index, account) in accounts.iter().enumerate() {
        if let Some(place) = first_difference(&account.entries, one) {
            return Some((index, place));
        }
    }
    None
}

/// Returns the first index of the list of `one` whose entry was never logged by its origin, or `None`. `NoMemory` if
/// memory runs out.
fn stranger(
    alloc: Global,
    accounts: &[Account],
    one: &AccountEntries,
) -> Result<Option<usize>, NoMemory>
    ensures { WhereNamed one.now.list (λ places. IfOk result (IsStranger accounts.now one.now.list places)) }
{
    let mut origins = Origins::new(accounts);
    for index in 0..one.list_len() {
        let place = place_at(alloc, one, index)?;
        if origins.is_strange(accounts, place.stamp.origin, one.list_at(index)) {
            return Ok(Some(index));
        }
    }
    Ok(None)
}

/// Returns the input line of the account's first command reported as dropped that is among the executed entries of
/// `one`, or `None`. `NoMemory` if memory runs out.
fn first_named(
    alloc: Global,
    account: &Account,
    one: &AccountEntries,
) -> Result<Option<u64>, NoMemory>
    ensures { WhereNamed one.now.list (λ places. IsAscending places → IfOk result (NamesFirst places account.now.dropped.items)) }
{
    for name in account.dropped.as_slice() {
        if is_named(alloc, one, name)? {
            return Ok(Some(name.line));
        }
    }
    Ok(None)
}

/// Returns the first account that reported an executed entry of `one` as dropped, and the input line, or `None`.
/// `NoMemory` if memory runs out.
fn first_dropped(
    alloc: Global,
    accounts: &[Account],
    one: &AccountEntries,
) -> Result<Option<(usize, u64)>, NoMemory>
    ensures { WhereNamed one.now.list (λ places. IsAscending places → IfOk result (DropsFirst accounts.now places)) }
{
    for (index, account) in accounts.iter().enumerate() {
        if let Some(line) = first_named(alloc, account, one)? {
            return Ok(Some((index, line)));
        }
    }
    Ok(None)
}

/// Returns the verdict on sheets with these accounts. `NoMemory` if memory runs out.
pub fn judge(alloc: Global, accounts: &[Account]) -> Result<Verdict, NoMemory>
    ensures { (n : ℕ) (sheets : List Sheet) → AccountsStand n accounts.now sheets → IfOk result (IsVerdict n sheets) }
{
    one_spelling_each();
    one_list_rises();
    entries_stand_in_order();
    let none = AccountEntries::new(alloc);
    let one = longest(accounts, &none);
    if let Some((sheet, place)) = odd_list(accounts, one) {
        let (sheet, place) = (sheet as u64, place as u64);
        return Ok(Verdict::List { sheet, place });
    }
    if let Some(place) = stranger(alloc, accounts, one)? {
        let place = place as u64;
        return Ok(Verdict::Stranger { place });
    }
    if let Some((sheet, line)) = first_dropped(alloc, accounts, one)? {
        let sheet = sheet as u64;
        return Ok(Verdict::Dropped { sheet, line });
    }
    let count = one.list_len() as u64;
    Ok(Verdict::Agree { count })
}
