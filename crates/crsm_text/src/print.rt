//! Appending text to bytes. Where a function fails, a prefix of the text may have been appended.

ghost use Rattle.std.specs.Prelude.{◌≡◌, ◌≤◌, ◌++◌, ◌∷◌, [], ◌<◌, ◌+◌, OnOk, decimal, drop, length, slice_index, take};
ghost use Rattle.hex.specs.Hex.{encode_lower, lower_digits};
ghost use Rattle.crsm_text.specs.Words.{named, numbers, commas};
ghost use Rattle.crsm_text.specs.Values.{value_text, option_text, answer_text};

use crsm_base::{Answer, Bytes, Members, NoMemory, Val};
use itoa::{Buffer, write_digits};

/// Bytes of a space and the longest decimal u64.
const SPACED_BYTES: usize = 21;

/// Maximum count of numbers in a row, which is formatted on the stack.
const ROW_NUMBERS: usize = 8;

/// Count of bytes that are formatted in hexadecimal at a time.
const PIECE_BYTES: usize = 64;

/// Appends a number in decimal digits. `NoMemory` if memory runs out.
pub fn push_number(out: &mut Bytes, value: u64) -> Result<(), NoMemory>
    ensures { OnOk result (out.new ≡ out.old ++ decimal value) }
{
    let mut buffer = Buffer::new();
    out.append(buffer.format(value).as_bytes())
}

// The row is filled from its end, so that its text is appended by a single call.
fn push_row(out: &mut Bytes, values: &[u64]) -> Result<(), NoMemory>
    requires { length values.now ≤ 8 }
    ensures { OnOk result (out.new ≡ out.old ++ numbers values.now) }
{
    let mut row = [b' '; ROW_NUMBERS * SPACED_BYTES];
    let mut at = ROW_NUMBERS * SPACED_BYTES;
    let mut left = values.len();
    while left > 0 {
        left -= 1;
        let value = values[left];
        at = write_digits(value, &mut row, at) - 1;
    }
    out.append(&row[at..])
}

/// Appends each number in decimal digits, with a space before it. `NoMemory` if memory runs out.
pub fn push_numbers(out: &mut Bytes, values: &[u64]) -> Result<(), NoMemory>
    ensures { OnOk result (out.new ≡ out.old ++ numbers values.now) }
{
    let mut rest = values;
    while rest.len() > ROW_NUMBERS {
        let (row, behind) = rest.split_at(ROW_NUMBERS);
        push_row(out, row)?;
        rest = behind;
    }
    push_row(out, rest)
}

/// Appends a word and then each number with a space before it. `NoMemory` if memory runs out.
pub fn push_named(out: &mut Bytes, name: &[u8], values: &[u64]) -> Result<(), NoMemory>
    ensures { OnOk result (out.new ≡ out.old ++ named name.now values.now) }
{
    out.append(name)?;
    push_numbers(out, values)?;
    Ok(())
}

fn digit(value: u8) -> u8
    requires { value < 16 }
    ensures { result ≡ slice_index lower_digits value }
{
    if value < 10 {
        b'0' + value
    } else {
        b'a' + (value - 10)
    }
}

// The digits of a piece are formatted on the stack and appended by a single call. The piece is padded with zeros, and
// its high and low digits are computed in separate loops, since the compiler vectorizes those.
fn push_piece(out: &mut Bytes, piece: &[u8]) -> Result<(), NoMemory>
    requires { length piece.now ≤ 64 }
    ensures { OnOk result (out.new ≡ out.old ++ encode_lower piece.now) }
{
    let mut filled = [0; PIECE_BYTES];
    filled[..piece.len()].copy_from_slice(piece);
    let row = digits_of(&filled);
    out.append(&row[..2 * piece.len()])
}

fn digits_of(bytes: &[u8; PIECE_BYTES]) -> [u8; 2 * PIECE_BYTES]
    ensures { result ≡ encode_lower bytes.now }
{
    let mut firsts = [0; PIECE_BYTES];
    let mut seconds = [0; PIECE_BYTES];
    for (i, byte) in bytes.iter().enumerate() {
        firsts[i] = digit(*byte / 16);
        seconds[i] = digit(*byte % 16);
    }
    let mut row = [0; 2 * PIECE_BYTES];
    for i in 0..PIECE_BYTES {
        row[2 * i] = firsts[i];
        row[2 * i + 1] = seconds[i];
    }
    row
}

/// Appends bytes in lower-case hexadecimal. `NoMemory` if memory runs out.
pub fn push_hex(out: &mut Bytes, bytes: &[u8]) -> Result<(), NoMemory>
    ensures { OnOk result (out.new ≡ out.old ++ encode_lower bytes.now) }
{
    let mut rest = bytes;
    while rest.len() > PIECE_BYTES {
        let (piece, behind) = rest.split_at(PIECE_BYTES);
        push_piece(out, piece)?;
        rest = behind;
    }
    push_piece(out, rest)
}

fn push_value(out: &mut Bytes, val: &Val) -> Result<(), NoMemory>
    ensures { OnOk result (out.new ≡ out.old ++ value_text val.now) }
{
    let bytes = val.as_slice();
    match bytes {
        [] => out.append(b"empty"),
        [_, ..] => push_hex(out, bytes),
    }
}

fn push_option(out: &mut Bytes, val: &Option<Val>) -> Result<(), NoMemory>
    ensures { OnOk result (out.new ≡ out.old ++ option_text val.now) }
{
    match val {
        None => out.append(b"none"),
        Some(val) => push_value(out, val),
    }
}

/// Appends an answer of the store. `NoMemory` if memory runs out.
pub fn push_answer(out: &mut Bytes, answer: &Answer) -> Result<(), NoMemory>
    ensures { OnOk result (out.new ≡ out.old ++ answer_text answer.now) }
{
    match answer {
        Answer::Found(val) => {
            out.append(b"found ")?;
            push_value(out, val)
        }
        Answer::Missing => out.append(b"missing"),
        Answer::Done => out.append(b"done"),
        Answer::Differs(val) => {
            out.append(b"differs ")?;
            push_option(out, val)
        }
        Answer::Stale(number) => push_named(out, b"stale", &[*number]),
        Answer::NoRoom => out.append(b"noroom"),
    }
}
/// Appends members, separated by commas. `NoMemory` if memory runs out.
pub fn push_members(out: &mut Bytes, members: &Members) -> Result<(), NoMemory>
    ensures { OnOk result (out.new ≡ out.old ++ commas members.now) }
{
    let [first, others @ ..] = members.as_slice() else {
        return Ok(());
    };
    push_number(out, u64::from(*first))?;
    for member in others {
        out.push(b',')?;
        push_number(out, u64::from(*member))?;
    }
    Ok(())
}
