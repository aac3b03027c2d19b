//! The state of an audit.

ghost use Rattle.std.specs.Prelude.{◌≤◌, length};

use crate::Account;
use crate::line::Progress;
use crsm_replica_rerun::Rerun;
use std::alloc::Global;

/// The first bad body of a log, numbered from 0, and the reason.
#[derive(Clone, Copy, Debug, PartialEq, Eq)]
pub(crate) struct BadLog {
    pub(crate) entry: u64,
    pub(crate) why: u32,
}

/// The sheets up to the current one: its replay, and the account of each.
#[derive(Drop)]
pub(crate) struct Sheets {
    pub(crate) rerun: Rerun,
    pub(crate) accounts: Vec<Account>,
    ghost some: { 1 ≤ length accounts.items },
}

/// The stage of an audit.
#[derive(Drop)]
pub(crate) enum Stage {
    /// No sheet has begun.
    Before,
    /// No log was bad so far.
    Replaying { sheets: Sheets },
    /// A log was bad, so later lines are only parsed.
    Refusing { bad: BadLog, progress: Progress },
}

/// The state of an audit.
#[derive(Drop)]
pub(crate) struct Audit {
    pub(crate) alloc: Global,
    pub(crate) n: u32,
    pub(crate) stage: Stage,
    ghost some: { 1 ≤ n },
    ghost few: { n ≤ 15 },
}
