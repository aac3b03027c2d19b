//! A replica that is a cluster of its own, over devices in memory, driven by the words of a line.

use crate::boot::boot;
use crate::devices::Devices;
use crate::tale_words::{Word, word_of};
use crate::traces::{push_answered, push_kept, push_refusal};
use crate::words::{numbers_of, parted};
use crsm_disk::MemDisk;
use crsm_shell::{BootError, Shell, TurnError, TurnResult, WantedInput};
use crsm_test_cases::Fault;
use std::alloc::{AllocError, Global};

/// Writes what comes of a replica that boots on an empty disk and does what the words say. The first two words are the
/// calls of its disk and of its port that fail.
pub fn tale_of(alloc: Global, script: &str) -> Result<String, Fault> {
    let mut out = String::new(alloc);
    push_tale(alloc, script, &mut out)?;
    Ok(out)
}

fn push_tale(alloc: Global, script: &str, out: &mut String) -> Result<(), Fault> {
    let (disk_fails, rest) = parted(script)?;
    let (port_fails, words) = parted(rest)?;
    let mut devices = Devices::new(alloc, port_fails)?;
    push_life(alloc, disk_fails, &mut devices, words, out)
}

/// An empty disk that fails at these calls.
fn empty_disk(alloc: Global, fails: &str) -> Result<MemDisk, Fault> {
    let fails = numbers_of(alloc, fails)?;
    Ok(MemDisk::new(alloc, &fails, None, 0)?)
}

/// Appends what comes of a boot on an empty disk, and of the words behind it.
fn push_life(
    alloc: Global,
    disk_fails: &str,
    devices: &mut Devices,
    words: &str,
    out: &mut String,
) -> Result<(), Fault> {
    match boot(alloc, empty_disk(alloc, disk_fails)?) {
        Ok(booted) => push_run(alloc, booted.shell, devices, words, out),
        Err((why, disk)) => {
            let pushed = push_failure(alloc, why, &disk, out);
            drop(disk);
            pushed
        }
    }
}

fn push_failure(
    alloc: Global,
    why: BootError,
    disk: &MemDisk,
    out: &mut String,
) -> Result<(), Fault> {
    push_refusal(why, out)?;
    out.push_str(", ")?;
    push_kept(alloc, disk, out)
}

/// Appends what comes of the words, and what they leave on the devices.
fn push_run(
    alloc: Global,
    mut shell: Shell<MemDisk>,
    devices: &mut Devices,
    words: &str,
    out: &mut String,
) -> Result<(), Fault> {
    let pushed = push_words(&mut shell, devices, words, out);
    let disk = shell.into_disk();
    let left = match pushed {
        Ok(()) => push_left(alloc, &disk, devices, out),
        Err(why) => Err(why),
    };
    drop(disk);
    left
}

fn push_left(
    alloc: Global,
    disk: &MemDisk,
    devices: &Devices,
    out: &mut String,
) -> Result<(), Fault> {
    push_kept(alloc, disk, out)?;
    out.push_str(", ")?;
    push_answered(&devices.port, out)
}

/// Appends what comes of the words, in order, and how the replica stands behind them.
fn push_words(
    shell: &mut Shell<MemDisk>,
    devices: &mut Devices,
    words: &str,
    out: &mut String,
) -> Result<(), Fault> {
    for word in words.split(' ') {
        push_word(shell, devices, word_of(word)?, out)?;
    }
    let end = if shell.failed() { "failed" } else { "up" };
    write!(out, "{end}, {} executed, ", shell.state().executed_len())?;
    Ok(())
}

fn push_word(
    shell: &mut Shell<MemDisk>,
    devices: &mut Devices,
    word: Word,
    out: &mut String,
) -> Result<(), Fault> {
    match word {
        Word::Requests(count) => devices.come(count)?,
        Word::Junk => devices.port.put(9, &[0xff])?,
        Word::Stop { calls, fill } => shell.arm(Some(calls), fill),
        Word::Take(count) => push_receives(shell, devices, count, out)?,
        Word::Tick => push_step("tick", take(shell, devices, WantedInput::Tick)?, out)?,
        Word::Turn => push_step("turn", turn(shell, devices)?, out)?,
        Word::Flush => push_flush(shell.flush(&mut *devices.port), out)?,
    }
    Ok(())
}

/// Appends what comes of `count` receives, up to the first that fails.
fn push_receives(
    shell: &mut Shell<MemDisk>,
    devices: &mut Devices,
    count: u64,
    out: &mut String,
) -> Result<(), Fault> {
    let mut bytes = 0u64;
    for taken in 0..count {
        match take(shell, devices, WantedInput::Receive)? {
            Ok(size) => bytes = bytes.saturating_add(size),
            Err(why) => {
                write!(out, "{why} after {taken} steps; ")?;
                return Ok(());
            }
        }
    }
    write!(out, "{count} steps of {bytes} bytes; ")?;
    Ok(())
}

/// Appends how many bytes the records of a step of this name take, or why there was none.
fn push_step(name: &str, step: Result<u64, TurnError>, out: &mut String) -> Result<(), AllocError> {
    match step {
        Ok(size) => write!(out, "a {name} of {size} bytes; "),
        Err(why) => write!(out, "{why}; "),
    }
}

fn push_flush(flush: Result<(), TurnError>, out: &mut String) -> Result<(), AllocError> {
    match flush {
        Ok(()) => out.push_str("flushed; "),
        Err(why) => write!(out, "{why}; "),
    }
}

/// How many bytes the records of a step take.
fn size_of(step: Result<TurnResult, TurnError>) -> Result<u64, TurnError> {
    match step {
        Ok(turned) => Ok(turned.size),
        Err(why) => Err(why),
    }
}

/// Takes a step, and gives how many bytes its records take.
fn take(
    shell: &mut Shell<MemDisk>,
    devices: &mut Devices,
    what: WantedInput,
) -> Result<Result<u64, TurnError>, Fault> {
    if shell.pending() >= 32 {
        return Err(Fault::TooMany);
    }
    let step = shell.take(what, &mut devices.clock, &mut *devices.port);
    Ok(size_of(step))
}

/// Takes a step that is kept and sent at once, and gives how many bytes its records take.
fn turn(
    shell: &mut Shell<MemDisk>,
    devices: &mut Devices,
) -> Result<Result<u64, TurnError>, Fault> {
    if shell.pending() >= 32 {
        return Err(Fault::TooMany);
    }
    let step = shell.turn(WantedInput::Receive, &mut devices.clock, &mut *devices.port);
    Ok(size_of(step))
}
