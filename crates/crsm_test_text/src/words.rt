//! The table `words`: a row is a command line, its words with a tab between each two. It answers what they ask for, or
//! the first line of the usage.

ghost use Rattle.crsm_text_words.specs.Plans.{HasOwnPeer};

use crate::fault::Fault;
use crate::fields::{append_line, text_of};
use crsm_base::Bytes;
use crsm_text_words::{Order, Task, WordsError, read_words, usage_text};
use std::alloc::{AllocError, Global};

/// Returns the words of a line. An empty line has none.
fn words_of(alloc: Global, line: &str) -> Result<Vec<String>, Fault> {
    let mut words = Vec::new(alloc);
    if line.is_empty() {
        return Ok(words);
    }
    for word in line.split('\t') {
        words.push(String::from_str(alloc, word)?)?;
    }
    Ok(words)
}

fn first_line(text: &str) -> &str {
    text.lines().next().unwrap_or("")
}

/// Returns what an order says, with the devices that it wants.
fn shown(alloc: Global, order: &Order) -> Result<String, AllocError>
    requires { HasOwnPeer order.now.task }
{
    let task = &order.task;
    let plan = task.plan();
    match task {
        Task::Show(text) => format!(in alloc; "shows: {}", first_line(text_of(text.as_slice()))),
        _ => format!(in alloc; "cluster {}: {task:?}, {plan:?}", order.cluster),
    }
}

/// Returns the first line of what is told of words that are refused.
fn refused(alloc: Global, words: &[String]) -> Result<String, Fault> {
    let usage = usage_text(alloc, words)?;
    Ok(format!(in alloc; "usage: {}", first_line(usage.as_str()))?)
}

/// Returns what these words ask for.
fn meaning(alloc: Global, words: &[String]) -> Result<String, Fault> {
    match read_words(alloc, words) {
        Ok(order) => {
            let text = shown(alloc, &order);
            drop(order);
            Ok(text?)
        }
        Err(WordsError::Usage) => refused(alloc, words),
        Err(WordsError::NoMemory) => Err(Fault::NoMemory),
    }
}

/// Appends what a command line asks for.
pub fn tell(alloc: Global, row: &str, out: &mut Bytes) -> Result<(), Fault> {
    let words = words_of(alloc, row)?;
    let text = meaning(alloc, words.as_slice())?;
    append_line(out, text.as_str())
}
