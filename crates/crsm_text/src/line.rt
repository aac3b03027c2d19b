//! Lines that begin with a number. Each is formatted on the stack, from its end, and appended by a single call.

ghost use Rattle.std.specs.Prelude.{◌≡◌, ◌≤◌, ◌<◌, ◌+◌, ◌++◌, ◌∷◌, [], ℕ, OnOk, decimal, drop, get_or, length, take};
ghost use Rattle.crsm_text.specs.Words.{named};

use crsm_base::{Bytes, NoMemory};
use itoa::{Buffer, write_digits};

/// Bytes of a number, a word of 8 bytes, 8 numbers with a space before each, and an end of 16 bytes.
const LINE_BYTES: usize = 216;

// Writes a number so that its digits end at `end`, and returns the index at which they start. Most numbers are small.
fn write_number(value: u64, row: &mut [u8], end: usize) -> usize
    requires { (length (decimal value) ≤ end) × (end ≤ length row.old) }
    ensures start { result + length (decimal value) ≡ end }
    ensures written { drop result row.new ≡ decimal value ++ drop end row.old }
    ensures before { take result row.new ≡ take result row.old }
{
    if value < 10 {
        row[end - 1] = b'0' + value as u8;
        return end - 1;
    }
    write_digits(value, row, end)
}

// Writes the first and the last bytes of the text, which meet or overlap. A copy of a fixed size needs no call.
#[inline(always)]
fn write_both<const SIZE: usize>(text: &[u8], row: &mut [u8], start: usize)
    requires least { SIZE ≤ length text.now }
    requires most { length text.now ≤ SIZE + SIZE }
    requires room { start + length text.now ≤ length row.old }
    ensures written { drop start row.new ≡ text.now ++ drop (start + length text.now) row.old }
    ensures before { take start row.new ≡ take start row.old }
{
    let behind = text.len() - SIZE;
    row[start..start + SIZE].copy_from_slice(&text[..SIZE]);
    row[start + behind..start + text.len()].copy_from_slice(&text[behind..]);
}

// Writes the text so that it ends at `end`, and returns the index at which it starts.
#[inline(always)]
pub(crate) fn write_text(text: &[u8], row: &mut [u8], end: usize) -> usize
    requires short { length text.now ≤ 16 }
    requires room { (length text.now ≤ end) × (end ≤ length row.old) }
    ensures start { result + length text.now ≡ end }
    ensures written { drop result row.new ≡ text.now ++ drop end row.old }
    ensures before { take result row.new ≡ take result row.old }
{
    let start = end - text.len();
    if text.len() >= 8 {
        write_both::<8>(text, row, start);
    } else if text.len() >= 4 {
        write_both::<4>(text, row, start);
    } else if text.len() >= 2 {
        write_both::<2>(text, row, start);
    } else if text.len() == 1 {
        row[start] = text[0];
    }
    start
}

// Fills the end of a row of spaces with a word, the values and `end`, and returns the index at which the word starts.
#[inline(always)]
fn write_words(row: &mut [u8; LINE_BYTES], name: &[u8], values: &[u64], end: &[u8]) -> usize
    requires spaces { (i : ℕ) → i < 216 → get_or row.old i 32 ≡ 32 }
    requires name { length name.now ≤ 8 }
    requires values { length values.now ≤ 8 }
    requires end { length end.now ≤ 16 }
    ensures least { 24 ≤ result }
    ensures most { result ≤ 216 }
    ensures written { drop result row.new ≡ named name.now values.now ++ end.now }
    ensures spaces { (i : ℕ) → i < result → get_or row.new i 32 ≡ 32 }
{
    let mut at = write_text(end, row, LINE_BYTES);
    let mut left = values.len();
    while left > 0 {
        left -= 1;
        at = write_number(values[left], row, at) - 1;
    }
    write_text(name, row, at)
}

/// Appends a number, a word, the values and `end`, with a space before the word and before each value. `NoMemory` if
/// memory runs out.
pub fn push_numbered(
    out: &mut Bytes,
    number: u64,
    name: &[u8],
    values: &[u64],
    end: &[u8],
) -> Result<(), NoMemory>
    requires name { length name.now ≤ 8 }
    requires values { length values.now ≤ 8 }
    requires end { length end.now ≤ 8 }
    ensures { OnOk result (out.new ≡ out.old ++ (decimal number ++ 32 ∷ (named name.now values.now ++ end.now))) }
{
    let mut row = [b' '; LINE_BYTES];
    let word = write_words(&mut row, name, values, end);
    let begin = write_number(number, &mut row, word - 1);
    out.append(&row[begin..])
}

/// Appends a line of a number, a word, the values and a last number of up to 128 bits, with a space before the word and
/// before each value. `NoMemory` if memory runs out.
pub fn push_numbered_wide(
    out: &mut Bytes,
    number: u64,
    name: &[u8],
    values: &[u64],
    last: u128,
) -> Result<(), NoMemory>
    requires name { length name.now ≤ 8 }
    requires values { length values.now ≤ 8 }
    ensures { OnOk result (out.new ≡ out.old ++ (decimal number ++ 32 ∷ (named name.now (values.now ++ last ∷ []) ++ 10 ∷ []))) }
{
    push_numbered(out, number, name, values, b" ")?;
    let mut buffer = Buffer::new();
    out.append(buffer.format(last).as_bytes())?;
    out.push(b'\n')
}
