//! The text of a verdict.

ghost use Rattle.std.specs.Prelude.{◌≡◌, ◌++◌, OnOk};
ghost use Rattle.crsm_audit.specs.Lists.{WhereNamed};
ghost use Rattle.crsm_audit.specs.Texts.{place_text, places_text, row, verdict_text};

use crate::entries::AccountEntries;
use crate::list::place_at;
use crate::{ExecutedEntry, Verdict};
use crsm_base::{Bytes, NoMemory};
use crsm_text::push_named;
use std::alloc::Global;

/// Appends a line of a word and numbers. `NoMemory` if memory runs out.
fn push_row(out: &mut Bytes, name: &[u8], values: &[u64]) -> Result<(), NoMemory>
    ensures { OnOk result (out.new ≡ out.old ++ row name.now values.now) }
{
    push_named(out, name, values)?;
    out.push(b'\n')
}

/// Appends the line of the entry with index `at`. `NoMemory` if memory runs out.
fn push_place(out: &mut Bytes, at: u64, place: &ExecutedEntry) -> Result<(), NoMemory>
    ensures { OnOk result (out.new ≡ out.old ++ place_text at place.now) }
{
    let time = place.stamp.time;
    let origin = u64::from(place.stamp.origin);
    let values = [at, place.epoch, time, origin, place.client, place.number];
    push_row(out, b"place", &values)
}

/// Appends the lines of the executed entries, from index 0 on. `NoMemory` if memory runs out.
fn push_places(alloc: Global, out: &mut Bytes, one: &AccountEntries) -> Result<(), NoMemory>
    ensures { WhereNamed one.now.list (λ places. OnOk result (out.new ≡ out.old ++ places_text 0 places)) }
{
    for index in 0..one.list_len() {
        let place = place_at(alloc, one, index)?;
        push_place(out, index as u64, &place)?;
    }
    Ok(())
}

/// Appends the text of a verdict on accounts of which `one` has the longest list. `NoMemory` if memory runs out.
#[tactic(auto, unfolding(crate::specs::Texts::verdict_text))]
pub(crate) fn push_verdict(
    alloc: Global,
    out: &mut Bytes,
    one: &AccountEntries,
    verdict: &Verdict,
) -> Result<(), NoMemory>
    ensures { WhereNamed one.now.list (λ places. OnOk result (out.new ≡ out.old ++ verdict_text places verdict.now)) }
{
    match verdict {
        Verdict::List { sheet, place } => push_row(out, b"list", &[*sheet, *place]),
        Verdict::Stranger { place } => push_row(out, b"stranger", &[*place]),
        Verdict::Dropped { sheet, line } => push_row(out, b"dropped", &[*sheet, *line]),
        Verdict::Agree { count } => {
            push_places(alloc, out, one)?;
            push_row(out, b"agree", &[*count])
        }
    }
}
