//! The words of a run.

use crate::words::number_of;
use crsm_test_cases::Fault;

/// What a word of a run asks.
#[derive(Clone, Copy)]
pub enum Word {
    /// This many requests come to the port.
    Requests(u64),
    /// Bytes come that are no datagram.
    Junk,
    /// This many receives, each of which is a step.
    Take(u64),
    Tick,
    /// A receive whose step is kept and sent at once, with those that pend.
    Turn,
    /// The disk stops after `calls` further calls, and what was not synced is this byte then.
    Stop { calls: u64, fill: u8 },
    Flush,
}

/// Reads a word of a run.
pub fn word_of(text: &str) -> Result<Word, Fault> {
    match text.split_once(':') {
        Some((name, count)) => counted_word(name, number_of(count)?),
        None => plain_word(text),
    }
}

fn counted_word(name: &str, count: u64) -> Result<Word, Fault> {
    match name {
        "requests" => Ok(Word::Requests(count)),
        "take" => Ok(Word::Take(count)),
        "stop" => Ok(stop(count, 0)),
        "open" => Ok(stop(count, 1)),
        _ => Err(Fault::Unreadable),
    }
}

fn stop(calls: u64, fill: u8) -> Word {
    Word::Stop { calls, fill }
}

fn plain_word(text: &str) -> Result<Word, Fault> {
    match text {
        "junk" => Ok(Word::Junk),
        "tick" => Ok(Word::Tick),
        "turn" => Ok(Word::Turn),
        "flush" => Ok(Word::Flush),
        _ => Err(Fault::Unreadable),
    }
}
