//! Splitting a text at separators, and parsing decimal numbers.

ghost use Rattle.std.specs.Prelude.{◌≡◌, ℕ, ◌<◌, ◌^◌, ◌++◌, ◌∷◌, List, IfSome, decimal};
ghost use Rattle.std.specs.Option.{IsSomeAnd};
ghost use Rattle.crsm_text.specs.Words.{Lacks};

use itoa::Buffer;
use std::str::from_utf8;

/// 10^18: below it, ten times a number plus a digit is below 2^64.
const MOST_TENS: u64 = 1_000_000_000_000_000_000;

/// Splits `input` at the first separator, or returns `None` if there is none.
pub fn split_field(input: &[u8], separator: u8) -> Option<(&[u8], &[u8])>
    ensures found { IfSome result (λ s. input.now ≡ s.0.now ++ separator ∷ s.1.now) }
    ensures word { IfSome result (λ s. Lacks separator s.0.now) }
    ensures only { (word rest : List ℕ) → Lacks separator word → input.now ≡ word ++ separator ∷ rest → IsSomeAnd result (λ s. (s.0.now ≡ word) × (s.1.now ≡ rest)) }
{
    for (i, byte) in input.iter().enumerate() {
        if *byte == separator {
            return Some((&input[..i], &input[i + 1..]));
        }
    }
    None
}

/// Parses a decimal number without leading zeros, or returns `None` if `word` is none or it is 2^64 or above.
pub fn read_number(word: &[u8]) -> Option<u64>
    ensures found { IfSome result (λ n. word.now ≡ decimal n) }
    ensures only { (n : ℕ) → n < 2 ^ 64 → word.now ≡ decimal n → result ≡ Some n }
{
    match read_digits(word) {
        Some(number) => Some(number),
        None => read_any(word),
    }
}

// Digit by digit. Returns `None` also where one more digit might overflow; `read_any` then parses the rare long
// numbers.
fn read_digits(word: &[u8]) -> Option<u64>
    ensures { IfSome result (λ n. word.now ≡ decimal n) }
{
    let [first, others @ ..] = word else {
        return None;
    };
    if *first == b'0' && word.len() == 1 {
        return Some(0);
    }
    if *first < b'1' || *first > b'9' {
        return None;
    }
    let mut number = u64::from(*first - b'0');
    for byte in others {
        if *byte < b'0' || *byte > b'9' || number >= MOST_TENS {
            return None;
        }
        number = number * 10 + u64::from(*byte - b'0');
    }
    Some(number)
}

fn read_any(word: &[u8]) -> Option<u64>
    ensures found { IfSome result (λ n. word.now ≡ decimal n) }
    ensures only { (n : ℕ) → n < 2 ^ 64 → word.now ≡ decimal n → result ≡ Some n }
{
    let Ok(text) = from_utf8(word) else {
        return None;
    };
    let Ok(number) = text.parse::<u64>() else {
        return None;
    };
    let mut buffer = Buffer::new();
    if buffer.format(number).as_bytes() == word {
        Some(number)
    } else {
        None
    }
}

/// Parses a number that a space follows. Returns it and the bytes after the space, or `None`.
pub fn number_field(input: &[u8]) -> Option<(u64, &[u8])>
    ensures found { IfSome result (λ f. input.now ≡ decimal f.0 ++ 32 ∷ f.1.now) }
    ensures only { (n : ℕ) (rest : List ℕ) → n < 2 ^ 64 → input.now ≡ decimal n ++ 32 ∷ rest → IsSomeAnd result (λ f. (f.0 ≡ n) × (f.1.now ≡ rest)) }
{
    let (word, rest) = split_field(input, b' ')?;
    let number = read_number(word)?;
    Some((number, rest))
}

/// Parses two numbers, each followed by a space. Returns them and the bytes after the second space, or `None`.
pub fn two_fields(input: &[u8]) -> Option<(u64, u64, &[u8])>
    ensures found { IfSome result (λ f. input.now ≡ decimal f.0 ++ 32 ∷ (decimal f.1 ++ 32 ∷ f.2.now)) }
    ensures only { (m n : ℕ) (rest : List ℕ) → m < 2 ^ 64 → n < 2 ^ 64 → input.now ≡ decimal m ++ 32 ∷ (decimal n ++ 32 ∷ rest)
        → IsSomeAnd result (λ f. (f.0 ≡ m) × (f.1 ≡ n) × (f.2.now ≡ rest)) }
{
    let (first, rest) = number_field(input)?;
    let (second, rest) = number_field(rest)?;
    Some((first, second, rest))
}

/// Parses two numbers with a space between them, or returns `None`.
pub fn two_numbers(input: &[u8]) -> Option<(u64, u64)>
    ensures found { IfSome result (λ f. input.now ≡ decimal f.0 ++ 32 ∷ decimal f.1) }
    ensures only { (m n : ℕ) → m < 2 ^ 64 → n < 2 ^ 64 → input.now ≡ decimal m ++ 32 ∷ decimal n
        → IsSomeAnd result (λ f. (f.0 ≡ m) × (f.1 ≡ n)) }
{
    let (first, rest) = number_field(input)?;
    let second = read_number(rest)?;
    Some((first, second))
}
