//! The error text for a refused command line.

use crate::command::split;
use crate::help::help_of;
use crate::read::{cluster_number, cluster_words, may_be_in_cluster};
use crate::refusal::refusal_of;
use clap::ArgMatches;
use crsm_base::NoMemory;
use std::alloc::{AllocError, Global};

const HELP: &str = "help is given by 'crsm --help' and by 'crsm COMMAND --help'";

const OPERATION: &str = "an operation stands behind 'client' and the words before it";

/// Returns the text of an error: its cause, the usage of the command, which is empty where it is of none, and where help
/// is.
fn error_text(alloc: Global, command: &str, cause: &str) -> Result<String, AllocError> {
    let usage = help_of(command).usage;
    let (space, name) = if command.is_empty() {
        ("", "")
    } else {
        (" ", command)
    };
    format!(in alloc;
        "error: {cause}

Usage: {usage}

For more information, try 'crsm{space}{name} --help'.
"
    )
}

/// Returns the text for a line whose word behind `cluster` is missing, or is no number of a cluster.
fn cluster_text(alloc: Global, number: &str) -> Result<String, AllocError> {
    if number.is_empty() || number.starts_with('-') {
        return error_text(alloc, "", "C, the number of the cluster, is missing");
    }
    let cause = format!(in alloc;
        "invalid value '{number}' for C: a number from 1 to 18446744073709551615"
    )?;
    error_text(alloc, "", cause.as_str())
}

/// Returns the text for values that `clap` accepts but that ask for no task.
fn values_text(alloc: Global, command: &str, values: &[&str]) -> Result<String, AllocError> {
    match refusal_of(alloc, command, values) {
        Some(refusal) => {
            let cause = format!(in alloc; "{refusal}")?;
            error_text(alloc, command, cause.as_str())
        }
        None => error_text(alloc, command, "a value is outside its limits"),
    }
}

/// Returns the text for a command and values that `clap` found and that ask for no task.
fn found_text(
    alloc: Global,
    matches: &ArgMatches<'_>,
    names_cluster: bool,
) -> Result<String, AllocError> {
    let Some((command, found)) = matches.subcommand() else {
        return error_text(alloc, "", "a command is missing");
    };
    if names_cluster && !may_be_in_cluster(command) {
        let cause = format!(in alloc; "'{command}' takes no cluster: node, client and operate do")?;
        return error_text(alloc, command, cause.as_str());
    }
    match found.get_raw("values") {
        Some(values) => values_text(alloc, command, values),
        None => values_text(alloc, command, &[]),
    }
}

/// Returns the text for words that ask for no task, which may stand behind the number of a cluster.
fn text_of(alloc: Global, words: &[String], names_cluster: bool) -> Result<String, AllocError> {
    match split(alloc, words) {
        Ok(matches) => {
            let text = found_text(alloc, &matches, names_cluster);
            drop(matches);
            text
        }
        Err(error) => {
            let text = format!(in alloc; "{error}");
            drop(error);
            text
        }
    }
}

/// Returns the text for a command line that `read_words` refuses as `Usage`. `NoMemory` if memory runs out.
pub fn usage_text(alloc: Global, words: &[String]) -> Result<String, NoMemory> {
    let text = match words {
        [only] if only.as_str() == "cluster" => cluster_text(alloc, ""),
        [name, ..] if name.as_str() == "help" => error_text(alloc, "", HELP),
        [name, ..] if is_operation(name.as_str()) => error_text(alloc, "client", OPERATION),
        _ => match cluster_words(words) {
            Some((number, _)) if cluster_number(number).is_none() => cluster_text(alloc, number),
            Some((_, rest)) => text_of(alloc, rest, true),
            None => text_of(alloc, words, false),
        },
    };
    match text {
        Ok(text) => Ok(text),
        Err(_) => Err(NoMemory),
    }
}

/// Returns whether a word is the name of an operation.
fn is_operation(word: &str) -> bool {
    matches!(word, "get" | "put" | "del" | "cas")
}
