//! Parsing of the words of a command line.

ghost use Rattle.std.specs.Prelude.{◌≡◌, ◌<◌, ◌^◌, ◌↔◌, ◌∷◌, [], ℕ, IfErr, IfNone, IfOk, IfSome, IsTrue, Some, codes, decimal, map, string_bytes};
ghost use Rattle.std.specs.List.{All};
ghost use Rattle.clap.specs.Words.{kind_of, subcommand_rows_of};
ghost use Rattle.crsm_text_words.specs.Answers.{AnswersError, OrderBy, Reads, TaskBy};
ghost use Rattle.crsm_text_words.specs.Orders.{Asks, AsksFor, NamesCluster, task_words, cluster_words, texts};
ghost use Rattle.crsm_text_words.specs.Plans.{HasOwnPeer};
ghost use Rattle.crsm_text_words.specs.Split.{IsPlain, parts};
ghost use Rattle.crsm_text_words.specs.declared.order.Order.{Order as AskedOrder};
ghost use Rattle.crsm_text_words.specs.declared.order.Task.{Task as Asked};

use crate::command::split;
use crate::order::{Order, Task};
use crate::tasks::read_task;
use clap::error::ErrorKind;
use clap::{ArgMatches, Error};
use crsm_base::{Bytes, NoMemory};
use crsm_text::{LineError, read_number};
use std::alloc::Global;

/// The reason why words were refused.
#[derive(Clone, Copy, Debug, PartialEq, Eq)]
pub enum WordsError {
    /// They are not those of a command, or a value is outside its limits.
    Usage,
    /// Memory ran out.
    NoMemory,
}

impl From<LineError> for WordsError {
    ghost use Rattle.std.specs.Prelude.{◌≡◌};
    ghost use Rattle.crsm_text_words.specs.Answers.{refusal_of};

    ghost from_gives = { λ e r. r ≡ refusal_of e };

    fn from(e: LineError) -> WordsError {
        match e {
            LineError::Unreadable => WordsError::Usage,
            LineError::NoMemory => WordsError::NoMemory,
        }
    }
}

impl From<NoMemory> for WordsError {
    ghost use Rattle.std.specs.Prelude.{◌≡◌};
    ghost use Rattle.crsm_text_words.specs.declared.read.WordsError.TheVariants.{NoMemory as no_memory};

    ghost from_gives = { λ _ r. r ≡ no_memory };

    fn from(_e: NoMemory) -> WordsError {
        WordsError::NoMemory
    }
}

/// Formats an error of `clap`.
fn text_of(alloc: Global, error: &Error) -> Result<Bytes, NoMemory> {
    let Ok(text) = format!(in alloc; "{error}") else {
        return Err(NoMemory);
    };
    let mut bytes = Bytes::new(alloc);
    bytes.append(text.as_bytes())?;
    Ok(bytes)
}

/// Converts an error of `clap`: help or the version is shown if it was asked for; otherwise `Usage`.
fn answer(alloc: Global, error: &Error) -> Result<Task, WordsError>
    ensures { AnswersError (kind_of error.now) result }
{
    match error.kind() {
        ErrorKind::OutOfMemory => Err(WordsError::NoMemory),
        ErrorKind::DisplayHelp | ErrorKind::DisplayVersion => {
            let text = text_of(alloc, error)?;
            Ok(Task::Show(text))
        }
        _ => Err(WordsError::Usage),
    }
}

/// Parses a command's name and values as a task. `Usage` if they are none.
fn named_task(alloc: Global, name: &str, values: &[&str]) -> Result<Task, WordsError>
    ensures found { IfOk result (λ task. Asks task (name.now ∷ texts values.now)) }
    ensures only { (task : Asked) → Asks task (name.now ∷ texts values.now) → Reads result task }
{
    match read_task(alloc, name.as_bytes(), values) {
        Ok(task) => Ok(task),
        Err(LineError::Unreadable) => Err(WordsError::Usage),
        Err(LineError::NoMemory) => Err(WordsError::NoMemory),
    }
}

/// Parses the name and values that `clap` found as a task. `Usage` if they are none.
fn matched_task(alloc: Global, matches: &ArgMatches<'_>) -> Result<Task, WordsError>
    ensures found { IfOk result (λ task. Asks task (parts (subcommand_rows_of matches.now))) }
    ensures only { (task : Asked) → Asks task (parts (subcommand_rows_of matches.now)) → Reads result task }
{
    let Some((name, found)) = matches.subcommand() else {
        return Err(WordsError::Usage);
    };
    match found.get_raw("values") {
        Some(values) => named_task(alloc, name, values),
        None => named_task(alloc, name, &[]),
    }
}

/// Parses words that name no cluster as a task. `Usage` if they are none.
fn task_of(alloc: Global, words: &[String]) -> Result<Task, WordsError>
    ensures any { TaskBy (map string_bytes words.now) result }
    ensures found { All IsPlain (map string_bytes words.now) → IfOk result (λ task. Asks task (map string_bytes words.now)) }
    ensures only { All IsPlain (map string_bytes words.now) → (task : Asked) → Asks task (map string_bytes words.now) → Reads result task }
{
    match split(alloc, words) {
        Ok(matches) => matched_task(alloc, &matches),
        Err(error) => {
            let task = answer(alloc, &error);
            drop(error);
            task
        }
    }
}

/// Returns whether the task may name a cluster: those that send to replicas over the network do, and help.
fn names_cluster(task: &Task) -> bool
    ensures { IsTrue result ↔ NamesCluster task.now }
{
    matches!(
        task,
        Task::Node(_) | Task::Client { .. } | Task::Operate { .. } | Task::Show(_)
    )
}

/// Returns the order of a task in a cluster. `Usage` if the task may not name one.
fn order_of(cluster: u64, task: Task) -> Result<Order, WordsError>
    ensures ok { IfOk result (λ order. NamesCluster task × (order ≡ record { cluster = cluster; task = task })) }
    ensures err { IfErr result (λ r. (r ≡ WordsError.Usage) × ¬ (NamesCluster task)) }
{
    if names_cluster(&task) {
        Ok(Order { cluster, task })
    } else {
        drop(task);
        Err(WordsError::Usage)
    }
}

/// Returns whether the command with this name may be asked for in a cluster.
pub(crate) fn may_be_in_cluster(command: &str) -> bool {
    matches!(command, "node" | "client" | "operate")
}

/// Parses the number of a cluster, at least 1, or returns `None`.
pub(crate) fn cluster_number(word: &str) -> Option<u64>
    ensures found { IfSome result (λ n. (0 < n) × (n < 2 ^ 64) × (word.now ≡ decimal n)) }
    ensures only { (n : ℕ) → 0 < n → n < 2 ^ 64 → word.now ≡ decimal n → result ≡ Some n }
{
    let number = read_number(word.as_bytes())?;
    if number == 0 {
        return None;
    }
    Some(number)
}

/// Parses the words after `cluster C`. `Usage` if they ask for no task, or for one that names no cluster.
fn order_in(alloc: Global, number: &str, rest: &[String]) -> Result<Order, WordsError>
    ensures found { All IsPlain (map string_bytes rest.now) → IfOk result (λ order. AsksFor order (codes "cluster" ∷ number.now ∷ map string_bytes rest.now)) }
    ensures only { All IsPlain (map string_bytes rest.now) → (order : AskedOrder) → AsksFor order (codes "cluster" ∷ number.now ∷ map string_bytes rest.now) → Reads result order }
    ensures any { OrderBy (codes "cluster" ∷ number.now ∷ map string_bytes rest.now) result }
{
    let Some(cluster) = cluster_number(number) else {
        return Err(WordsError::Usage);
    };
    let task = task_of(alloc, rest)?;
    order_of(cluster, task)
}

/// Splits words that begin with `cluster` into the word after it and the rest, or returns `None`.
pub(crate) fn cluster_words<'a>(words: &'a [String]) -> Option<(&'a str, &'a [String])>
    ensures found { IfSome result (λ w. map string_bytes words.now ≡ codes "cluster" ∷ w.0.now ∷ map string_bytes w.1.now) }
    ensures none { IfNone result ((cluster_words (map string_bytes words.now) ≡ []) × (task_words (map string_bytes words.now) ≡ map string_bytes words.now)) }
{
    if words.len() < 2 {
        return None;
    }
    if words[0].as_str() == "cluster" {
        return Some((words[1].as_str(), &words[2..]));
    }
    None
}

/// Parses the words of a command line, without the program's name. `Usage` if they ask for no task; `NoMemory` if
/// memory runs out.
pub fn read_words(alloc: Global, words: &[String]) -> Result<Order, WordsError>
    // Words that do not begin with a hyphen: the order returned is what they ask for, and if they ask for one it is
    // returned, unless memory runs out. So they are refused only if they ask for nothing.
    ensures found { All IsPlain (map string_bytes words.now) → IfOk result (λ order. AsksFor order (map string_bytes words.now)) }
    ensures only { All IsPlain (map string_bytes words.now) → (order : AskedOrder) → AsksFor order (map string_bytes words.now) → Reads result order }

    // Any words, by the command that `clap` finds in them and the faults that it reports.
    ensures any { OrderBy (map string_bytes words.now) result }

    // A node's own address is among those of its peers.
    ensures peer { IfOk result (λ order. HasOwnPeer order.task) }
{
    if let Some((number, rest)) = cluster_words(words) {
        return order_in(alloc, number, rest);
    }
    let task = task_of(alloc, words)?;
    Ok(Order { cluster: 0, task })
}
