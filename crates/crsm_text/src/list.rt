//! Comma-separated numbers and members.

ghost use Rattle.std.specs.Prelude.{◌≡◌, ℕ, ◌<◌, ◌≤◌, ◌^◌, List, IfOk, MatchResult, length};
ghost use Rattle.std.specs.List.{AllByRecursion};
ghost use Rattle.crsm_base.specs.Members.{IsMembers};
ghost use Rattle.crsm_text.specs.Words.{commas};
ghost use Rattle.crsm_text.specs.Reads.{ReadsAs};

use crate::error::LineError;
use crate::fields::{read_number, split_field};
use crsm_base::{MAX_REPLICAS, Members, MembersError};
use std::alloc::Global;

/// Parses one or more comma-separated numbers. `Unreadable` if the word is no such list.
pub fn read_numbers(alloc: Global, word: &[u8]) -> Result<Vec<u64>, LineError>
    ensures found { IfOk result (λ made. AllByRecursion (λ n. n < 2 ^ 64) made.items × (1 ≤ length made.items) × (word.now ≡ commas made.items)) }
    ensures only { (ns : List ℕ) → AllByRecursion (λ n. n < 2 ^ 64) ns → 1 ≤ length ns → word.now ≡ commas ns
        → MatchResult result (λ made. made.items ≡ ns) (λ e. e ≡ LineError.NoMemory) }
{
    let mut numbers = Vec::new(alloc);
    let mut rest = word;
    while let Some((prefix, behind)) = split_field(rest, b',') {
        let Some(number) = read_number(prefix) else {
            return Err(LineError::Unreadable);
        };
        numbers.push(number)?;
        rest = behind;
    }
    let Some(number) = read_number(rest) else {
        return Err(LineError::Unreadable);
    };
    numbers.push(number)?;
    Ok(numbers)
}

/// Converts an error of `Members::from_slice`.
fn members_refusal(error: MembersError) -> LineError
    ensures { error ≡ MembersError.NoMemory → result ≡ LineError.NoMemory }
{
    match error {
        MembersError::NotAscending => LineError::Unreadable,
        MembersError::NoMemory => LineError::NoMemory,
    }
}

/// Converts numbers to replica numbers. `Unreadable` if one is out of range.
fn replicas_of(alloc: Global, numbers: &[u64]) -> Result<Vec<u32>, LineError>
    ensures found { IfOk result (λ made. made.items ≡ numbers.now) }
    ensures only { AllByRecursion (λ n. n < 15) numbers.now → MatchResult result (λ made. made.items ≡ numbers.now) (λ e. e ≡ LineError.NoMemory) }
{
    let mut replicas = Vec::new(alloc);
    for number in numbers {
        if *number >= u64::from(MAX_REPLICAS) {
            return Err(LineError::Unreadable);
        }
        replicas.push(*number as u32)?;
    }
    Ok(replicas)
}

/// Parses comma-separated members, strictly rising and below 15. `Unreadable` if the word is no such list.
pub fn read_members(alloc: Global, word: &[u8]) -> Result<Members, LineError>
    ensures found { IfOk result (λ members. IsMembers members × (word.now ≡ commas members)) }
    ensures only { (members : List ℕ) → IsMembers members → word.now ≡ commas members → ReadsAs result members }
{
    let numbers = read_numbers(alloc, word)?;
    let replicas = replicas_of(alloc, numbers.as_slice())?;
    match Members::from_slice(alloc, replicas.as_slice()) {
        Ok(members) => Ok(members),
        Err(error) => Err(members_refusal(error)),
    }
}
