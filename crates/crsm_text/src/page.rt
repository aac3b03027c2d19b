//! Lines that are formatted one after another on a page, and appended together: bytes are slow to read right after they
//! were written one by one.

ghost use Rattle.std.specs.Prelude.{◌≡◌, ◌≤◌, ◌<◌, ◌+◌, ◌++◌, ◌∷◌, [], OnOk, decimal, length, take};
ghost use Rattle.crsm_text.specs.Words.{named};

use crate::line::write_text;
use crsm_base::{Bytes, NoMemory};
use itoa::write_digits;
use std::marker::Model;

/// Bytes of the longest decimal u64 and a space, and more so that a copy of all of them is quick.
const NUMBER_BYTES: usize = 24;

/// Bytes of a number, a word of 8 bytes, 8 numbers with a space before each, and an end of 16 bytes.
const LINE_BYTES: usize = 216;

/// Bytes of a page.
const PAGE_BYTES: usize = 1_024;

// Returns how many digits a number below 10,000 has.
#[inline(always)]
fn few_digits(value: u64) -> usize
    requires { value < 10_000 }
    ensures { result ≡ length (decimal value) }
{
    if value < 10 {
        1
    } else if value < 100 {
        2
    } else if value < 1_000 {
        3
    } else {
        4
    }
}

// Returns how many digits a number has.
#[inline(always)]
fn digits_of(value: u64) -> usize
    ensures { result ≡ length (decimal value) }
{
    let mut left = value;
    let mut behind = 0;
    while left >= 10_000 {
        left /= 10_000;
        behind += 4;
    }
    few_digits(left) + behind
}

// Writes the digits of a number from `at` on, and returns where they end.
fn put_number(value: u64, row: &mut [u8], at: usize) -> usize
    requires { at + 20 ≤ length row.old }
    ensures end { result ≡ at + length (decimal value) }
    ensures most { result ≤ at + 20 }
    ensures written { take result row.new ≡ take at row.old ++ decimal value }
{
    let end = at + digits_of(value);
    write_digits(value, row, end);
    end
}

// Does the same. Most numbers have one digit.
#[inline(always)]
fn put_digits(value: u64, row: &mut [u8], at: usize) -> usize
    requires { at + 20 ≤ length row.old }
    ensures end { result ≡ at + length (decimal value) }
    ensures most { result ≤ at + 20 }
    ensures written { take result row.new ≡ take at row.old ++ decimal value }
{
    if value < 10 {
        row[at] = b'0' + value as u8;
        return at + 1;
    }
    put_number(value, row, at)
}

// Writes a word from `at` on, and returns where it ends.
#[inline(always)]
fn put_word(word: &[u8], row: &mut [u8], at: usize) -> usize
    requires short { length word.now ≤ 16 }
    requires room { at + length word.now ≤ length row.old }
    ensures end { result ≡ at + length word.now }
    ensures written { take result row.new ≡ take at row.old ++ word.now }
{
    let end = at + word.len();
    write_text(word, row, end);
    end
}

// Writes a word from `at` on, each value with a space before it, and `end`. Returns where that ends.
#[inline(always)]
fn put_words(row: &mut [u8], at: usize, name: &[u8], values: &[u64], end: &[u8]) -> usize
    requires name { length name.now ≤ 8 }
    requires values { length values.now ≤ 8 }
    requires end { length end.now ≤ 16 }
    requires room { at + 192 ≤ length row.old }
    ensures most { result ≤ at + 192 }
    ensures written { take result row.new ≡ take at row.old ++ (named name.now values.now ++ end.now) }
{
    let mut next = put_word(name, row, at);
    for value in values {
        row[next] = b' ';
        next = put_digits(*value, row, next + 1);
    }
    put_word(end, row, next)
}

/// The number of a line. Its digits are formatted once for all lines that begin with it.
#[derive(Drop)]
pub struct LineNumber {
    number: u64,
    /// The digits and a space, and bytes that are not used.
    text: [u8; NUMBER_BYTES],
    len: usize,
}

impl Model for LineNumber {
    ghost use Rattle.std.specs.Prelude.{◌≡◌, ◌≤◌, ◌++◌, ◌∷◌, [], ℕ, decimal, take};

    ghost Value = { ℕ };

    ghost view = { λ n. n.number };

    ghost invariant = { λ n. (n.len ≤ 24) × (take n.len n.text ≡ decimal n.number ++ 32 ∷ []) };
}

impl LineNumber {
    /// Returns the number of a line.
    pub fn new(number: u64) -> LineNumber
        ensures { result ≡ number }
    {
        let mut text = [0; NUMBER_BYTES];
        let end = put_number(number, &mut text, 0);
        let len = put_word(b" ", &mut text, end);
        LineNumber { number, text, len }
    }
}

/// A page: the text of lines that wait to be appended to bytes.
#[derive(Drop)]
pub struct Page {
    bytes: [u8; PAGE_BYTES],
    len: usize,
}

impl Model for Page {
    ghost use Rattle.std.specs.Prelude.{◌≤◌, ℕ, List, take};

    ghost Value = { List ℕ };

    ghost view = { λ p. take p.len p.bytes };

    ghost invariant = { λ p. p.len ≤ 1024 };
}

impl Page {
    /// Returns the empty page.
    pub fn new() -> Page
        ensures { result ≡ [] }
    {
        Page {
            bytes: [0; PAGE_BYTES],
            len: 0,
        }
    }

    /// Empties the page.
    pub fn clear(&mut self)
        ensures { self.new ≡ [] }
    {
        self.len = 0;
    }

    /// Moves the text of the page to the end of other bytes. `NoMemory` if memory runs out.
    pub fn flush(&mut self, out: &mut Bytes) -> Result<(), NoMemory>
        ensures out { OnOk result (out.new ≡ out.old ++ self.old) }
        ensures empty { OnOk result (self.new ≡ []) }
    {
        out.append(&self.bytes[..self.len])?;
        self.len = 0;
        Ok(())
    }

    // Adds a line, for which there is room.
    #[inline(always)]
    fn put(&mut self, number: &LineNumber, name: &[u8], values: &[u64], end: &[u8])
        requires name { length name.now ≤ 8 }
        requires values { length values.now ≤ 8 }
        requires end { length end.now ≤ 16 }
        requires room { length self.old ≤ 808 }
        ensures { self.new ≡ self.old ++ (decimal number.now ++ 32 ∷ (named name.now values.now ++ end.now)) }
    {
        let begin = self.len;
        self.bytes[begin..begin + NUMBER_BYTES].copy_from_slice(&number.text);
        self.len = put_words(&mut self.bytes, begin + number.len, name, values, end);
    }

    /// Adds the number, a word, the values and `end`, with a space before the word and before each value. A full page is
    /// moved to the end of `out` before. `NoMemory` if memory runs out.
    // Compiled at each call, where the word and the count of the values are known.
    #[inline(always)]
    pub fn push(
        &mut self,
        out: &mut Bytes,
        number: &LineNumber,
        name: &[u8],
        values: &[u64],
        end: &[u8],
    ) -> Result<(), NoMemory>
        requires name { length name.now ≤ 8 }
        requires values { length values.now ≤ 8 }
        requires end { length end.now ≤ 16 }
        ensures { OnOk result (out.new ++ self.new ≡ (out.old ++ self.old) ++ (decimal number.now ++ 32 ∷ (named name.now values.now ++ end.now))) }
    {
        if self.len > PAGE_BYTES - LINE_BYTES {
            self.flush(out)?;
        }
        self.put(number, name, values, end);
        Ok(())
    }
}
