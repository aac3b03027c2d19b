//! The value of a command that is not what it has to be, and what it has to be.

use crate::address::read_addresses;
use crate::values::{action_of, key_of, take_address, take_number, take_replica, take_size};
use crsm_base::{MAX_REPLICAS, MAX_VAL_BYTES};
use crsm_text::{LineError, hex_of, read_members};
use std::alloc::Global;
use std::fmt::{self, Display, Formatter, Write};

/// What an operation has to be.
const OPERATION: &str = "get KEY, put KEY VALUE, del KEY or cas KEY OLD NEW";

/// What a value has to be.
#[derive(Clone, Copy, PartialEq, Eq)]
enum Wanted {
    Replica,
    ClusterSize,
    NodeTurns,
    Peers,
    Address,
    ClientTurns,
    Number,
    LockNumber,
    Members,
    Key,
    Value,
    OptionalValue,
    Action,
    Steps,
    DumpPart,
    Times,
}

impl Wanted {
    /// Returns what the value has to be, in words.
    fn text(self) -> &'static str {
        match self {
            Wanted::Replica => "a node's number, 0 to 14",
            Wanted::ClusterSize => "with how many nodes the cluster began, 1 to 15",
            Wanted::NodeTurns => "a number of turns, 0 to 1000000000000",
            Wanted::Peers => "addresses as IPv4:PORT with commas between, each once",
            Wanted::Address => "an address as IPv4:PORT",
            Wanted::ClientTurns => "a number of turns, 1 to 1000000",
            Wanted::Number => "a number below 2^64, without leading zeros",
            Wanted::LockNumber => "a number below 2^64 - 1, without leading zeros",
            Wanted::Members => "numbers of nodes, 0 to 14, rising, with commas between",
            Wanted::Key => "1 to 64 bytes in hexadecimal, in lower case",
            Wanted::Value => "1 to 512 bytes in hexadecimal, in lower case, or 'empty'",
            Wanted::OptionalValue => {
                "1 to 512 bytes in hexadecimal, in lower case, or 'empty', or 'none' for no value"
            }
            Wanted::Action => "take, give or break",
            Wanted::Steps => "a number of events, 0 to 100000",
            Wanted::DumpPart => "state or keys",
            Wanted::Times => "times, or no word",
        }
    }

    /// Returns whether a word is such a value. A word for which there is no memory counts as one.
    fn is(self, alloc: Global, word: &str) -> bool {
        let bytes = word.as_bytes();
        match self {
            Wanted::Replica => take_replica(&[word]).is_some(),
            Wanted::ClusterSize => take_size(&[word]).is_some(),
            Wanted::NodeTurns => is_number(word, 0, 1_000_000_000_000),
            Wanted::Peers => may_be(read_addresses(alloc, bytes)),
            Wanted::Address => take_address(&[word]).is_some(),
            Wanted::ClientTurns => is_number(word, 1, 1_000_000),
            Wanted::Number => is_number(word, 0, u64::MAX),
            Wanted::LockNumber => is_number(word, 0, u64::MAX - 1),
            Wanted::Members => may_be(read_members(alloc, bytes)),
            Wanted::Key => may_be(key_of(alloc, bytes)),
            Wanted::Value => is_value(alloc, word),
            Wanted::OptionalValue => word == "none" || is_value(alloc, word),
            Wanted::Action => action_of(bytes).is_some(),
            Wanted::Steps => is_number(word, 0, 100_000),
            Wanted::DumpPart => word == "state" || word == "keys",
            Wanted::Times => word == "times",
        }
    }
}

/// Returns whether a word is a number within these limits.
fn is_number(word: &str, least: u64, most: u64) -> bool {
    match take_number(&[word]) {
        Some((number, _)) => least <= number && number <= most,
        None => false,
    }
}

/// Returns whether a word is a value of the store.
fn is_value(alloc: Global, word: &str) -> bool {
    if word == "empty" {
        return true;
    }
    match hex_of(alloc, word.as_bytes()) {
        Ok(bytes) => !bytes.is_empty() && bytes.len() <= MAX_VAL_BYTES as usize,
        Err(LineError::Unreadable) => false,
        Err(LineError::NoMemory) => true,
    }
}

/// Returns whether a value was read, or there was no memory for it.
fn may_be<T: Drop>(read: Result<T, LineError>) -> bool {
    match read {
        Ok(value) => {
            drop(value);
            true
        }
        Err(error) => error == LineError::NoMemory,
    }
}

/// The values of a command in order: the name of each in the usage, and what it has to be.
type Values = &'static [(&'static str, Wanted)];

static ME_N: [(&str, Wanted); 2] = [("ME", Wanted::Replica), ("N", Wanted::ClusterSize)];

static NODE: [(&str, Wanted); 4] = [
    ("ME", Wanted::Replica),
    ("N", Wanted::ClusterSize),
    ("TURNS", Wanted::NodeTurns),
    ("PEERS", Wanted::Peers),
];

static CLIENT: [(&str, Wanted); 4] = [
    ("TO", Wanted::Address),
    ("TURNS", Wanted::ClientTurns),
    ("CLIENT", Wanted::Number),
    ("NUMBER", Wanted::Number),
];

static GET: [(&str, Wanted); 1] = [("KEY", Wanted::Key)];

static PUT: [(&str, Wanted); 2] = [("KEY", Wanted::Key), ("VALUE", Wanted::Value)];

static CAS: [(&str, Wanted); 3] = [
    ("KEY", Wanted::Key),
    ("OLD", Wanted::OptionalValue),
    ("NEW", Wanted::OptionalValue),
];

static OPERATE: [(&str, Wanted); 2] = [("TO", Wanted::Address), ("MEMBERS", Wanted::Members)];

static LOCK: [(&str, Wanted); 6] = [
    ("TO", Wanted::Address),
    ("TURNS", Wanted::ClientTurns),
    ("CLIENT", Wanted::Number),
    ("NUMBER", Wanted::LockNumber),
    ("KEY", Wanted::Key),
    ("ACTION", Wanted::Action),
];

static DUMP: [(&str, Wanted); 3] = [
    ("ME", Wanted::Replica),
    ("N", Wanted::ClusterSize),
    ("PART", Wanted::DumpPart),
];

static SOAK: [(&str, Wanted); 3] = [
    ("NUMBER", Wanted::Number),
    ("N", Wanted::ClusterSize),
    ("STEPS", Wanted::Steps),
];

static AUDIT: [(&str, Wanted); 1] = [("N", Wanted::ClusterSize)];

static DELAY: [(&str, Wanted); 1] = [("times", Wanted::Times)];

/// Returns the values of a command, for `client` those before its operation.
fn values_of(command: &str) -> Values {
    match command {
        "replay-node" => &ME_N,
        "node" => &NODE,
        "client" => &CLIENT,
        "operate" => &OPERATE,
        "lock" => &LOCK,
        "dump" => &DUMP,
        "soak" => &SOAK,
        "audit" => &AUDIT,
        "delay" => &DELAY,
        _ => &[],
    }
}

/// Why the values of a command ask for nothing.
#[derive(Clone, Copy)]
pub(crate) enum Refusal<'a> {
    /// A value is not what it has to be.
    Value {
        label: &'static str,
        word: &'a str,
        wanted: &'static str,
    },
    /// The addresses of `node` do not fit its other values.
    Peers(&'static str),
}

impl Display for Refusal<'_> {
    fn fmt<W: Write>(&self, f: &mut Formatter<W>) -> fmt::Result {
        match self {
            Refusal::Value {
                label,
                word,
                wanted,
            } => write!(f, "invalid value '{word}' for {label}: {wanted}"),
            Refusal::Peers(why) => write!(f, "invalid value for PEERS: {why}"),
        }
    }
}

/// Returns the first word that is not the value that it has to be.
fn first_bad<'a>(alloc: Global, values: Values, words: &[&'a str]) -> Option<Refusal<'a>> {
    for ((label, wanted), word) in values.iter().zip(words) {
        if !wanted.is(alloc, word) {
            return Some(Refusal::Value {
                label,
                word,
                wanted: wanted.text(),
            });
        }
    }
    None
}

/// Returns what is wrong with the words of an operation.
fn bad_operation<'a>(alloc: Global, words: &[&'a str]) -> Option<Refusal<'a>> {
    let (name, rest) = words.split_first()?;
    let values: Values = match *name {
        "get" | "del" => &GET,
        "put" => &PUT,
        "cas" => &CAS,
        _ => &[],
    };
    if values.is_empty() || rest.len() != values.len() {
        return Some(Refusal::Value {
            label: "OP",
            word: name,
            wanted: OPERATION,
        });
    }
    first_bad(alloc, values, rest)
}

/// Returns why the addresses of `node` do not fit its other values, of which each is what it has to be.
fn bad_peers<'a>(alloc: Global, words: &[&'a str]) -> Option<Refusal<'a>> {
    let [me, n, _, peers] = words else {
        return None;
    };
    let (me, _) = take_replica(&[*me])?;
    let (n, _) = take_size(&[*n])?;
    let count = read_addresses(alloc, peers.as_bytes())
        .ok()?
        .as_slice()
        .len();
    if count < n as usize {
        Some(Refusal::Peers("they are fewer than N"))
    } else if count <= me as usize {
        Some(Refusal::Peers("the address of node ME is missing"))
    } else if count > MAX_REPLICAS as usize {
        Some(Refusal::Peers("they are more than 15"))
    } else {
        None
    }
}

/// Returns why the words behind a command's name ask for nothing, if they do.
pub(crate) fn refusal_of<'a>(
    alloc: Global,
    command: &str,
    words: &[&'a str],
) -> Option<Refusal<'a>> {
    let values = values_of(command);
    if let Some(bad) = first_bad(alloc, values, words) {
        return Some(bad);
    }
    match command {
        "client" => bad_operation(alloc, words.get(values.len()..)?),
        "node" => bad_peers(alloc, words),
        _ => None,
    }
}
