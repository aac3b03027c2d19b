//! Parsing of keys and values in hexadecimal.

ghost use Rattle.std.specs.Prelude.{◌≡◌, ℕ, ◌<◌, ◌++◌, List, Option, IfOk, MatchResult, length};
ghost use Rattle.std.specs.Char.{is_ascii_uppercase};
ghost use Rattle.std.specs.List.{list_any};
ghost use Rattle.hex.specs.Hex.{encode_lower, IsBytes};
ghost use Rattle.crsm_base.specs.Spelling.{FitsKey, FitsVal, FitsOption};
ghost use Rattle.crsm_text.specs.Values.{value_text, option_text};
ghost use Rattle.crsm_text.specs.Reads.{ReadsAs};

use crate::error::{LineError, refusal};
use crsm_base::{Key, MAX_KEY_BYTES, MAX_VAL_BYTES, Val};
use std::alloc::Global;

/// Decodes lower-case hexadecimal digits. `Unreadable` if the word has other bytes or an odd length.
pub fn hex_of(alloc: Global, word: &[u8]) -> Result<Vec<u8>, LineError>
    ensures found { IfOk result (λ bytes. IsBytes bytes.items × (word.now ≡ encode_lower bytes.items)) }
    ensures only { (bytes : List ℕ) → IsBytes bytes → word.now ≡ encode_lower bytes → MatchResult result (λ made. made.items ≡ bytes) (λ e. e ≡ LineError.NoMemory) }
{
    if has_capitals(word) {
        return Err(LineError::Unreadable);
    }
    match hex::decode(alloc, word) {
        Ok(bytes) => Ok(bytes),
        Err(error) => Err(refusal(error)),
    }
}

/// Returns whether the word has a capital letter, which hexadecimal digits can be too.
fn has_capitals(word: &[u8]) -> bool
    ensures { result ≡ list_any is_ascii_uppercase word.now }
{
    word.iter().any(|byte| byte.is_ascii_uppercase())
}

/// Parses a key of 1 to 64 bytes in hexadecimal. `Unreadable` if the word is none.
pub(crate) fn key_of(alloc: Global, word: &[u8]) -> Result<Key, LineError>
    ensures found { IfOk result (λ key. FitsKey key × IsBytes key × (word.now ≡ encode_lower key)) }
    ensures only { (key : List ℕ) → FitsKey key → IsBytes key → word.now ≡ encode_lower key → ReadsAs result key }
{
    let key = hex_of(alloc, word)?;
    if key.is_empty() || key.len() > MAX_KEY_BYTES as usize {
        return Err(LineError::Unreadable);
    }
    Ok(Key::from_slice(alloc, key.as_slice())?)
}

/// Parses a value of 1 to 512 bytes in hexadecimal. `Unreadable` if the word is none.
fn plain_val_of(alloc: Global, word: &[u8]) -> Result<Val, LineError>
    ensures found { IfOk result (λ val. FitsVal val × IsBytes val × (0 < length val) × (word.now ≡ encode_lower val)) }
    ensures only { (val : List ℕ) → FitsVal val → IsBytes val → 0 < length val → word.now ≡ encode_lower val → ReadsAs result val }
{
    let val = hex_of(alloc, word)?;
    if val.is_empty() || val.len() > MAX_VAL_BYTES as usize {
        return Err(LineError::Unreadable);
    }
    Ok(Val::from_slice(alloc, val.as_slice())?)
}

/// Parses a value of up to 512 bytes: `empty`, or hexadecimal digits. `Unreadable` if the word is none.
pub(crate) fn val_of(alloc: Global, word: &[u8]) -> Result<Val, LineError>
    ensures found { IfOk result (λ val. FitsVal val × IsBytes val × (word.now ≡ value_text val)) }
    ensures only { (val : List ℕ) → FitsVal val → IsBytes val → word.now ≡ value_text val → ReadsAs result val }
{
    if word == b"empty".as_slice() {
        return Ok(Val::new(alloc));
    }
    plain_val_of(alloc, word)
}

/// Parses an optional value: `none`, or a value. `Unreadable` if the word is neither.
pub(crate) fn option_of(alloc: Global, word: &[u8]) -> Result<Option<Val>, LineError>
    ensures found { IfOk result (λ val. FitsOption FitsVal val × FitsOption IsBytes val × (word.now ≡ option_text val)) }
    ensures only { (val : Option (List ℕ)) → FitsOption FitsVal val → FitsOption IsBytes val → word.now ≡ option_text val → ReadsAs result val }
{
    if word == b"none".as_slice() {
        return Ok(None);
    }
    Ok(Some(val_of(alloc, word)?))
}
