//! Parsing of the datagrams of a `batch` line.

ghost use Rattle.std.specs.Prelude.{◌≡◌, ℕ, ◌↔◌, ◌++◌, ◌∷◌, List, IfOk, IsTrue, MatchResult, decimal};
ghost use Rattle.crsm_text.specs.Words.{commas};
ghost use Rattle.crsm_text.specs.Reads.{ReadsAs};
ghost use Rattle.crsm_schedule.specs.Grammar.{AreDistinct, FitsBatch, AreTogether};

use crate::numbers::Numbers;
use crsm_text::{LineError, number_field, read_numbers};
use std::alloc::Global;

/// Maximum number of datagrams in a batch.
const MAX_TOGETHER: usize = 32;

fn are_distinct(numbers: &[u64]) -> bool
    ensures { IsTrue result ↔ AreDistinct numbers.now }
{
    for (i, number) in numbers.iter().enumerate() {
        if numbers[i + 1..].contains(number) {
            return false;
        }
    }
    true
}

fn numbers_of(alloc: Global, word: &[u8]) -> Result<Numbers, LineError>
    ensures found { IfOk result (λ ns. AreTogether ns × (word.now ≡ commas ns)) }
    ensures only { (ns : List ℕ) → AreTogether ns → word.now ≡ commas ns → ReadsAs result ns }
{
    let numbers = read_numbers(alloc, word)?;
    if numbers.len() > MAX_TOGETHER || !are_distinct(numbers.as_slice()) {
        return Err(LineError::Unreadable);
    }
    Ok(Numbers::from_vec(numbers))
}

/// Parses a clock reading and the comma-separated numbers of 1 to 32 distinct datagrams. `Unreadable` if the text is no
/// such list.
pub(crate) fn batch_of(alloc: Global, text: &[u8]) -> Result<(u64, Numbers), LineError>
    ensures found { IfOk result (λ b. FitsBatch b.0 b.1 × (text.now ≡ decimal b.0 ++ 32 ∷ commas b.1)) }
    ensures only { (reading : ℕ) (ns : List ℕ) → FitsBatch reading ns → text.now ≡ decimal reading ++ 32 ∷ commas ns
        → MatchResult result (λ b. (b.0 ≡ reading) × (b.1 ≡ ns)) (λ e. e ≡ LineError.NoMemory) }
{
    let Some((reading, rest)) = number_field(text) else {
        return Err(LineError::Unreadable);
    };
    let numbers = numbers_of(alloc, rest)?;
    Ok((reading, numbers))
}
