//! Clients with their last commands, in the order of their first ones, and their encoding.

ghost use Rattle.std.specs.Prelude.{◌≡◌, [], ◌∷◌, ◌++◌, IfErr, IfOk, OnOk, OnErr, Some, true};
ghost use Rattle.std.specs.Option.{option_map};
ghost use Rattle.crsm_base.specs.Parser.{many_at};
ghost use Rattle.crsm_base.specs.Spelling.{FitsAnswer};
ghost use Rattle.crsm_state.specs.Faults.{IsClientsFault};
ghost use Rattle.crsm_state.specs.Rows.{FitsClientRows, client_row_at, client_row_bytes, client_rows_at, client_rows_bytes, clients_differ};

use crate::counts::counts_more;
use crate::error::HistoryError;
use crsm_base::{Answer, Bytes, MAX_CLIENTS, NoMemory};
use crsm_text_fields::{put_answer, put_u32, put_u64, take_answer, take_u32, take_u64};
use std::alloc::Global;
use std::collections::HashSet;
use std::marker::Model;

/// A client's last command: the client, the command's number, and the answer to it.
#[derive(Drop)]
pub struct ClientRow {
    pub client: u64,
    pub number: u64,
    pub answer: Answer,
}

impl Model for ClientRow {
    ghost use Rattle.crsm_base.specs.Store.{Client};

    ghost Value = { Client };

    ghost view = { λ r. record { client = r.client; number = r.number; answer = r.answer } };
}

// Minimum encoded length of a client's row: two numbers and an answer's tag.
const LEAST_ROW_BYTES: usize = 17;

/// A list of clients with their last commands.
pub struct ClientRows {
    items: Vec<ClientRow>,
}

// Written by hand, it is one call for the crates above, which would prove a derived one again.
impl Drop for ClientRows {
    fn drop(self) {
        let ClientRows { items: _ } = self;
    }
}

impl Model for ClientRows {
    ghost use Rattle.std.specs.Prelude.{List};
    ghost use Rattle.crsm_base.specs.Store.{Client};

    ghost Value = { List Client };

    ghost view = { λ l. l.items.items };
}

impl ClientRows {
    /// Returns an empty list that allocates from `alloc`.
    pub fn new(alloc: Global) -> ClientRows
        ensures { result ≡ [] }
    {
        ClientRows {
            items: Vec::new(alloc),
        }
    }

    /// Appends a client's row. `NoMemory` if memory runs out; the list is then unchanged.
    #[inline(always)]
    pub fn push(&mut self, row: ClientRow) -> Result<(), NoMemory>
        ensures ok { OnOk result (self.new ≡ self.old ++ row ∷ []) }
        ensures err { OnErr result (self.new ≡ self.old) }
    {
        self.items.push(row)?;
        Ok(())
    }

    /// Allocates memory for `additional` more rows. The rows do not change.
    pub fn reserve(&mut self, additional: usize) -> Result<(), NoMemory>
        ensures { self.new ≡ self.old }
    {
        self.items.reserve(additional)?;
        Ok(())
    }

    /// Returns the rows in order.
    pub fn as_slice(&self) -> &[ClientRow]
        ensures { result.now ≡ self.now }
    {
        self.items.as_slice()
    }
}

/// Appends the encoding of a client's last command: its number, and the answer to it. `NoMemory` if memory runs out; a
/// prefix may then have been appended.
#[tactic(auto, unfolding(crate::specs::Rows::client_row_bytes))]
pub fn put_client_row(
    client: u64,
    number: u64,
    answer: &Answer,
    out: &mut Bytes,
) -> Result<(), NoMemory>
    requires { FitsAnswer answer.now }
    ensures { OnOk result (out.new ≡ out.old ++ client_row_bytes (record { client = client; number = number; answer = answer.now })) }
{
    put_u64(client, out)?;
    put_u64(number, out)?;
    put_answer(answer, out)
}

/// Appends the encoding of a list of clients with their last commands. `NoMemory` if memory runs out; a prefix may then
/// have been appended.
#[tactic(auto, unfolding(crate::specs::Rows::client_rows_bytes, crate::specs::Rows::list_bytes))]
pub(crate) fn put_client_rows(rows: &ClientRows, out: &mut Bytes) -> Result<(), NoMemory>
    requires { FitsClientRows rows.now }
    ensures { OnOk result (out.new ≡ out.old ++ client_rows_bytes rows.now) }
{
    let items = rows.as_slice();
    put_u32(items.len() as u32, out)?;
    for row in items {
        put_client_row(row.client, row.number, &row.answer, out)?;
    }
    Ok(())
}

#[tactic(auto, unfolding(crate::specs::Rows::client_row_at))]
fn take_client_row(alloc: Global, bytes: &[u8]) -> Result<Option<(ClientRow, &[u8])>, NoMemory>
    ensures { IfOk result (λ r. option_map (λ x. (x.0, x.1.now)) r ≡ client_row_at bytes.now) }
{
    let Some((client, rest)) = take_u64(bytes) else {
        return Ok(None);
    };
    let Some((number, rest)) = take_u64(rest) else {
        return Ok(None);
    };
    let Ok(taken) = take_answer(alloc, rest) else {
        return Err(NoMemory);
    };
    let Some((answer, rest)) = taken else {
        return Ok(None);
    };
    let row = ClientRow {
        client,
        number,
        answer,
    };
    Ok(Some((row, rest)))
}

// Parses so many clients with their last commands.
fn take_many_rows(
    alloc: Global,
    count: u32,
    bytes: &[u8],
) -> Result<Option<(ClientRows, &[u8])>, NoMemory>
    ensures { IfOk result (λ r. option_map (λ x. (x.0, x.1.now)) r ≡ many_at client_row_at count bytes.now) }
{
    let mut rows = ClientRows::new(alloc);
    // The count comes from the input: no more is reserved than the remaining bytes can hold.
    let room = (count as usize).min(bytes.len() / LEAST_ROW_BYTES);
    let Ok(()) = rows.reserve(room) else {
        drop(rows);
        return Err(NoMemory);
    };
    let mut rest = bytes;
    for _ in 0..count {
        let Ok(taken) = take_client_row(alloc, rest) else {
            drop(rows);
            return Err(NoMemory);
        };
        let Some((row, after)) = taken else {
            drop(rows);
            return Ok(None);
        };
        let Ok(()) = rows.push(row) else {
            drop(rows);
            return Err(NoMemory);
        };
        rest = after;
    }
    Ok(Some((rows, rest)))
}

/// Parses a list of at most 65,536 clients with their last commands at the beginning of `bytes`. Returns it and the
/// remaining bytes, or `None` if they do not begin with one; `NoMemory` if memory runs out.
#[tactic(auto, unfolding(crate::specs::Rows::client_rows_at, crate::specs::Rows::list_at))]
fn take_client_rows(alloc: Global, bytes: &[u8]) -> Result<Option<(ClientRows, &[u8])>, NoMemory>
    ensures { IfOk result (λ r. option_map (λ x. (x.0, x.1.now)) r ≡ client_rows_at bytes.now) }
{
    let Some((count, rest)) = take_u32(bytes) else {
        return Ok(None);
    };
    if count > MAX_CLIENTS {
        return Ok(None);
    }
    take_many_rows(alloc, count, rest)
}

// Returns whether no client has two rows. `NoMemory` if memory runs out.
fn clients_differ(alloc: Global, rows: &[ClientRow]) -> Result<bool, NoMemory>
    ensures { IfOk result (λ differ. differ ≡ clients_differ rows.now) }
{
    let mut seen = HashSet::with_capacity(alloc, rows.len())?;
    for row in rows {
        if !seen.insert(row.client)? {
            return Ok(false);
        }
    }
    Ok(true)
}

/// Parses a list of at most 65,536 clients with their last commands, no client twice, at the beginning of `bytes`.
/// Returns it and the remaining bytes, or why they do not begin with one.
pub(crate) fn decode_clients(
    alloc: Global,
    bytes: &[u8],
) -> Result<(ClientRows, &[u8]), HistoryError>
    ensures read { IfOk result (λ r. Some (r.0, r.1.now) ≡ client_rows_at bytes.now) }
    ensures differ { IfOk result (λ r. clients_differ r.0 ≡ true) }
    ensures fault { IfErr result (IsClientsFault bytes.now) }
{
    let Ok(taken) = take_client_rows(alloc, bytes) else {
        return Err(HistoryError::NoMemory);
    };
    let Some((rows, rest)) = taken else {
        if counts_more(bytes, MAX_CLIENTS) {
            return Err(HistoryError::TooManyClients);
        }
        return Err(HistoryError::Clients);
    };
    let Ok(differ) = clients_differ(alloc, rows.as_slice()) else {
        drop(rows);
        return Err(HistoryError::NoMemory);
    };
    if !differ {
        drop(rows);
        return Err(HistoryError::ClientTwice);
    }
    Ok((rows, rest))
}
