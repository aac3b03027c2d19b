//! Parsing of a command's values, one after another.

ghost use Rattle.std.specs.Prelude.{◌≡◌, ◌≢◌, ◌<◌, ◌≤◌, ◌^◌, ◌↔◌, ◌∷◌, [], ℕ, List, IfNone, IfOk, IfSome, IsSome, IsTrue, Some, decimal};
ghost use Rattle.std.specs.Option.{IsSomeAnd};
ghost use Rattle.hex.specs.Hex.{IsBytes, encode_lower};
ghost use Rattle.crsm_base.specs.Spelling.{FitsKey};
ghost use Rattle.crsm_text.specs.Words.{spaced};
ghost use Rattle.crsm_text.specs.Reads.{ReadsAs};
ghost use Rattle.crsm_text_words.specs.Addresses.{address_text};
ghost use Rattle.crsm_text_words.specs.Orders.{IsAddress, IsClusterSize, action_text, texts};
ghost use Rattle.crsm_text_words.specs.declared.order.LockAction.{LockAction as Action};

use crate::address::read_address;
use crate::order::LockAction;
use crsm_base::{Bytes, Key, MAX_KEY_BYTES, MAX_REPLICAS, NoMemory};
use crsm_text::{LineError, hex_of, read_number};
use std::alloc::Global;

/// Returns whether a word is `text`.
pub(crate) fn is_word(word: &[u8], text: &str) -> bool
    ensures { IsTrue result ↔ (word.now ≡ text.now) }
{
    word == text.as_bytes()
}

/// Splits off the first value, or returns `None` if there is none.
pub(crate) fn take_word<'b, 'a>(values: &'b [&'a str]) -> Option<(&'a [u8], &'b [&'a str])>
    ensures found { IfSome result (λ w. texts values.now ≡ w.0.now ∷ texts w.1.now) }
    ensures only { (word : List ℕ) (rest : List (List ℕ)) → texts values.now ≡ word ∷ rest → IsSomeAnd result (λ w. (w.0.now ≡ word) × (texts w.1.now ≡ rest)) }
    ensures none { IfNone result (texts values.now ≡ []) }
{
    match values {
        [first, rest @ ..] => Some((first.as_bytes(), rest)),
        [] => None,
    }
}

/// Returns whether no value remains.
pub(crate) fn is_last(values: &[&str]) -> bool
    ensures { IsTrue result ↔ (texts values.now ≡ []) }
{
    values.is_empty()
}

/// Returns `Some` if no value remains.
pub(crate) fn take_end(values: &[&str]) -> Option<()>
    ensures found { IfSome result (λ _. texts values.now ≡ []) }
    ensures only { texts values.now ≡ [] → IsSome result }
{
    if is_last(values) { Some(()) } else { None }
}

/// Parses a number; returns it and the remaining values, or `None`.
pub(crate) fn take_number<'b, 'a>(values: &'b [&'a str]) -> Option<(u64, &'b [&'a str])>
    ensures found { IfSome result (λ f. texts values.now ≡ decimal f.0 ∷ texts f.1.now) }
    ensures only { (n : ℕ) (rest : List (List ℕ)) → n < 2 ^ 64 → texts values.now ≡ decimal n ∷ rest → IsSomeAnd result (λ f. (f.0 ≡ n) × (texts f.1.now ≡ rest)) }
{
    let (word, rest) = take_word(values)?;
    let number = read_number(word)?;
    Some((number, rest))
}

/// Parses the number of replicas that began a cluster, 1 to 15; returns it and the remaining values, or `None`.
pub(crate) fn take_size<'b, 'a>(values: &'b [&'a str]) -> Option<(u32, &'b [&'a str])>
    ensures found { IfSome result (λ f. IsClusterSize f.0 × (texts values.now ≡ decimal f.0 ∷ texts f.1.now)) }
    ensures only { (n : ℕ) (rest : List (List ℕ)) → IsClusterSize n → texts values.now ≡ decimal n ∷ rest → IsSomeAnd result (λ f. (f.0 ≡ n) × (texts f.1.now ≡ rest)) }
{
    let (number, rest) = take_number(values)?;
    if number == 0 || number > u64::from(MAX_REPLICAS) {
        return None;
    }
    Some((number as u32, rest))
}

/// Parses a replica's number, 0 to 14; returns it and the remaining values, or `None`.
pub(crate) fn take_replica<'b, 'a>(values: &'b [&'a str]) -> Option<(u32, &'b [&'a str])>
    ensures found { IfSome result (λ f. (f.0 < 15) × (texts values.now ≡ decimal f.0 ∷ texts f.1.now)) }
    ensures only { (n : ℕ) (rest : List (List ℕ)) → n < 15 → texts values.now ≡ decimal n ∷ rest → IsSomeAnd result (λ f. (f.0 ≡ n) × (texts f.1.now ≡ rest)) }
{
    let (number, rest) = take_number(values)?;
    if number >= u64::from(MAX_REPLICAS) {
        return None;
    }
    Some((number as u32, rest))
}

/// Parses an address as IPv4 x 65,536 + port; returns it and the remaining values, or `None`.
pub(crate) fn take_address<'b, 'a>(values: &'b [&'a str]) -> Option<(u64, &'b [&'a str])>
    ensures found { IfSome result (λ f. IsAddress f.0 × (texts values.now ≡ address_text f.0 ∷ texts f.1.now)) }
    ensures only { (a : ℕ) (rest : List (List ℕ)) → IsAddress a → texts values.now ≡ address_text a ∷ rest → IsSomeAnd result (λ f. (f.0 ≡ a) × (texts f.1.now ≡ rest)) }
{
    let (word, rest) = take_word(values)?;
    let address = read_address(word)?;
    Some((address, rest))
}

/// Parses a key of 1 to 64 bytes in hexadecimal. `Unreadable` if the word is none.
pub(crate) fn key_of(alloc: Global, word: &[u8]) -> Result<Key, LineError>
    ensures found { IfOk result (λ key. FitsKey key × IsBytes key × (word.now ≡ encode_lower key)) }
    ensures only { (key : List ℕ) → FitsKey key → IsBytes key → word.now ≡ encode_lower key → ReadsAs result key }
{
    let key = hex_of(alloc, word)?;
    if key.is_empty() || key.len() > MAX_KEY_BYTES as usize {
        return Err(LineError::Unreadable);
    }
    Ok(Key::from_slice(alloc, key.as_slice())?)
}

/// Parses the action of `lock`, or returns `None` if the word is none.
pub(crate) fn action_of(word: &[u8]) -> Option<LockAction>
    ensures found { IfSome result (λ action. word.now ≡ action_text action) }
    ensures only { (action : Action) → word.now ≡ action_text action → result ≡ Some action }
{
    if is_word(word, "take") {
        return Some(LockAction::Take);
    }
    if is_word(word, "give") {
        return Some(LockAction::Give);
    }
    if is_word(word, "break") {
        return Some(LockAction::Break);
    }
    None
}

/// Joins the values with single spaces. `NoMemory` if memory runs out.
pub(crate) fn joined(alloc: Global, values: &[&str]) -> Result<Bytes, NoMemory>
    ensures { IfOk result (λ text. text ≡ spaced (texts values.now)) }
{
    let mut text = Bytes::new(alloc);
    let Some((first, others)) = take_word(values) else {
        return Ok(text);
    };
    text.append(first)?;
    for value in others {
        text.push(b' ')?;
        text.append(value.as_bytes())?;
    }
    Ok(text)
}
