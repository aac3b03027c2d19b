//! Parsing of schedule lines, each without its line feed.

ghost use Rattle.std.specs.Prelude.{◌≡◌, ℕ, ◌<◌, ◌^◌, ◌++◌, ◌∷◌, IfSome, IfOk, codes, decimal};
ghost use Rattle.crsm_text.specs.Reads.{ReadsAs};
ghost use Rattle.crsm_schedule.specs.declared.event.Single.{Single as SingleOnPaper};
ghost use Rattle.crsm_schedule.specs.declared.event.Event.{Event};
ghost use Rattle.crsm_schedule.specs.Grammar.{IsSize, FitsSingle, FitsEvent, first_text, single_text, event_text};

use crate::batch::batch_of;
use crate::event::{Event, Single};
use crate::single::read_single;
use crsm_base::MAX_REPLICAS;
use crsm_text::{LineError, number_field, read_number, two_fields, two_numbers};
use std::alloc::Global;

/// Parses the first line, `replicas N`. Returns N, from 1 to 15, or `None` if the line is no such line.
pub fn read_first(line: &[u8]) -> Option<u32>
    ensures found { IfSome result (λ n. IsSize n × (line.now ≡ first_text n)) }
    ensures only { (n : ℕ) → IsSize n → line.now ≡ first_text n → result ≡ Some n }
{
    let rest = line.strip_prefix(b"replicas ")?;
    let number = read_number(rest)?;
    if number == 0 || number > u64::from(MAX_REPLICAS) {
        return None;
    }
    Some(number as u32)
}

fn lose_of(text: &[u8]) -> Result<Event, LineError>
    ensures found { IfOk result (λ e. FitsEvent e × (codes "lose " ++ text.now ≡ event_text e)) }
    ensures only { (e : Event) → FitsEvent e → codes "lose " ++ text.now ≡ event_text e → ReadsAs result e }
{
    let Some(number) = read_number(text) else {
        return Err(LineError::Unreadable);
    };
    Ok(Event::Lose { number })
}

fn crash_of(text: &[u8]) -> Result<Event, LineError>
    ensures found { IfOk result (λ e. FitsEvent e × (codes "crash " ++ text.now ≡ event_text e)) }
    ensures only { (e : Event) → FitsEvent e → codes "crash " ++ text.now ≡ event_text e → ReadsAs result e }
{
    let Some(replica) = read_number(text) else {
        return Err(LineError::Unreadable);
    };
    Ok(Event::Crash { replica })
}

fn start_of(text: &[u8]) -> Result<Event, LineError>
    ensures found { IfOk result (λ e. FitsEvent e × (codes "start " ++ text.now ≡ event_text e)) }
    ensures only { (e : Event) → FitsEvent e → codes "start " ++ text.now ≡ event_text e → ReadsAs result e }
{
    let Some(replica) = read_number(text) else {
        return Err(LineError::Unreadable);
    };
    Ok(Event::Start { replica })
}

fn settle_of(text: &[u8]) -> Result<Event, LineError>
    ensures found { IfOk result (λ e. FitsEvent e × (codes "settle " ++ text.now ≡ event_text e)) }
    ensures only { (e : Event) → FitsEvent e → codes "settle " ++ text.now ≡ event_text e → ReadsAs result e }
{
    let Some(reading) = read_number(text) else {
        return Err(LineError::Unreadable);
    };
    Ok(Event::Settle { reading })
}

fn go_of(text: &[u8]) -> Result<Event, LineError>
    ensures found { IfOk result (λ e. FitsEvent e × (codes "go " ++ text.now ≡ event_text e)) }
    ensures only { (e : Event) → FitsEvent e → codes "go " ++ text.now ≡ event_text e → ReadsAs result e }
{
    let Some((number, reading)) = two_numbers(text) else {
        return Err(LineError::Unreadable);
    };
    Ok(Event::One {
        single: Single::Go { number, reading },
    })
}

fn cut_lost_of(alloc: Global, text: &[u8]) -> Result<Event, LineError>
    ensures found { IfOk result (λ e. FitsEvent e × (codes "cut lost " ++ text.now ≡ event_text e)) }
    ensures only { (e : Event) → FitsEvent e → codes "cut lost " ++ text.now ≡ event_text e → ReadsAs result e }
{
    if let Some(rest) = text.strip_prefix(b"batch ") {
        let (reading, numbers) = batch_of(alloc, rest)?;
        return Ok(Event::CutLostBatch { reading, numbers });
    }
    let single = read_single(alloc, text)?;
    Ok(Event::CutLost { single })
}

fn cut_at_of(alloc: Global, text: &[u8]) -> Result<Event, LineError>
    ensures found { IfOk result (λ e. FitsEvent e × (codes "cut at " ++ text.now ≡ event_text e)) }
    ensures only { (e : Event) → FitsEvent e → codes "cut at " ++ text.now ≡ event_text e → ReadsAs result e }
{
    let Some((calls, fill, rest)) = two_fields(text) else {
        return Err(LineError::Unreadable);
    };
    if calls > 4 || fill > 255 {
        return Err(LineError::Unreadable);
    }
    let single = read_single(alloc, rest)?;
    Ok(Event::CutAt {
        calls,
        fill: fill as u8,
        single,
    })
}

/// Parses a `cut K` line after its first word.
fn cut_kept_of(alloc: Global, text: &[u8]) -> Result<Event, LineError>
    ensures found { IfOk result (λ e. FitsEvent e × (codes "cut " ++ text.now ≡ event_text e)) }
    ensures only { (sends : ℕ) (s : SingleOnPaper) → sends < 2 ^ 64 → FitsSingle s → text.now ≡ decimal sends ++ 32 ∷ single_text s → ReadsAs result (Event.CutKept sends s) }
{
    let Some((sends, rest)) = number_field(text) else {
        return Err(LineError::Unreadable);
    };
    let single = read_single(alloc, rest)?;
    Ok(Event::CutKept { sends, single })
}

#[inline(never)]
fn cut_of(alloc: Global, text: &[u8]) -> Result<Event, LineError>
    ensures found { IfOk result (λ e. FitsEvent e × (codes "cut " ++ text.now ≡ event_text e)) }
    ensures only { (e : Event) → FitsEvent e → codes "cut " ++ text.now ≡ event_text e → ReadsAs result e }
{
    if let Some(rest) = text.strip_prefix(b"lost ") {
        return cut_lost_of(alloc, rest);
    }
    if let Some(rest) = text.strip_prefix(b"at ") {
        return cut_at_of(alloc, rest);
    }
    cut_kept_of(alloc, text)
}

#[inline(never)]
fn group_of(alloc: Global, text: &[u8]) -> Result<Event, LineError>
    ensures found { IfOk result (λ e. FitsEvent e × (codes "batch " ++ text.now ≡ event_text e)) }
    ensures only { (e : Event) → FitsEvent e → codes "batch " ++ text.now ≡ event_text e → ReadsAs result e }
{
    let (reading, numbers) = batch_of(alloc, text)?;
    Ok(Event::Batch { reading, numbers })
}

/// Parses an event of one step that is not stopped.
#[inline(never)]
fn one_of(alloc: Global, text: &[u8]) -> Result<Event, LineError>
    ensures found { IfOk result (λ e. FitsEvent e × (text.now ≡ event_text e)) }
    ensures only { (s : SingleOnPaper) → FitsSingle s → text.now ≡ single_text s → ReadsAs result (Event.One s) }
{
    let single = read_single(alloc, text)?;
    Ok(Event::One { single })
}

/// Parses an event. `Unreadable` if the line is no event's text; `NoMemory` if memory runs out. The most frequent events
/// are tested for first. Those that own memory are parsed in functions of their own, since an event is large.
pub fn read_event(alloc: Global, line: &[u8]) -> Result<Event, LineError>
    ensures found { IfOk result (λ e. FitsEvent e × (line.now ≡ event_text e)) }
    ensures only { (e : Event) → FitsEvent e → line.now ≡ event_text e → ReadsAs result e }
{
    if let Some(rest) = line.strip_prefix(b"go ") {
        return go_of(rest);
    }
    if let Some(rest) = line.strip_prefix(b"settle ") {
        return settle_of(rest);
    }
    if let Some(rest) = line.strip_prefix(b"lose ") {
        return lose_of(rest);
    }
    if let Some(rest) = line.strip_prefix(b"crash ") {
        return crash_of(rest);
    }
    if let Some(rest) = line.strip_prefix(b"start ") {
        return start_of(rest);
    }
    if let Some(rest) = line.strip_prefix(b"cut ") {
        return cut_of(alloc, rest);
    }
    if let Some(rest) = line.strip_prefix(b"batch ") {
        return group_of(alloc, rest);
    }
    one_of(alloc, line)
}
