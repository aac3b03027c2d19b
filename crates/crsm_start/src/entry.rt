//! The entry point: the words of the process, its devices and its exit status.

use crate::devices::{NoDevice, status_over_nothing, status_over_socket};
use crate::replica::run_replica_of;
use crate::streams::stand_ins;
use crsm_app::{Status, plan};
use crsm_text_words::{DevicePlan, usage_text};
use std::env::{self, Env};
use std::fs::{File, Files};
use std::io::{Eprint, ErrorKind, Input, Print};
use std::net::Net;
use std::process::ExitCode;
use std::time::Clock;

/// Returns the words after the program's name. `Usage` if one is not valid text.
fn words_of<R: AllocGlobal + Env>(rt: &R) -> Result<Vec<String>, Status> {
    let mut words = Vec::new(rt.alloc());
    let args = match env::args(rt) {
        Ok(args) => args,
        Err(error) if error.kind() == ErrorKind::OutOfMemory => return Err(Status::NoMemory),
        Err(_) => return Err(Status::Usage),
    };
    for word in args.skip(1) {
        if words.push(word).is_err() {
            return Err(Status::NoMemory);
        }
    }
    Ok(words)
}

/// Writes the reason of a failure to standard error: an error in the words, or the status on one line. If standard
/// error fails too, nothing is written.
fn tell<R: AllocGlobal + Eprint>(rt: &R, words: &[String], status: Status) {
    if status == Status::Ok {
        return;
    }
    if status != Status::Usage {
        let _ = rt.eprintln(status);
    } else if let Ok(text) = usage_text(rt.alloc(), words) {
        let _ = rt.eprint(text);
    }
}

/// Reports the result, or the device that could not be made, and returns the status.
fn told<R: AllocGlobal + Eprint>(
    rt: &R,
    words: &[String],
    done: Result<Status, NoDevice>,
) -> Status {
    match done {
        Ok(status) => {
            tell(rt, words, status);
            status
        }
        Err(error) => {
            let status = error.status();
            let _ = rt.eprintln(error);
            status
        }
    }
}

/// Executes the words over the devices that they need, reports a failure, and returns the status.
fn status_of<R: AllocGlobal + Clock + Eprint + Files<File = File> + Input + Net + Print>(
    rt: &R,
    words: &[String],
) -> Status {
    match plan(rt.alloc(), words) {
        Ok(DevicePlan::Plain) => told(rt, words, Ok(status_over_nothing(rt, words))),
        Ok(DevicePlan::Socket) => told(rt, words, status_over_socket(rt, words)),
        Ok(DevicePlan::Node { me, bind }) => run_replica_of(rt, words, me, bind),
        Err(status) => told(rt, words, Ok(status)),
    }
}

/// Executes the words of the process over the devices that they need, reports a failure, and returns the status.
fn done<R: AllocGlobal + Clock + Env + Eprint + Files<File = File> + Input + Net + Print>(
    rt: &R,
) -> Status {
    match words_of(rt) {
        Ok(words) => status_of(rt, words.as_slice()),
        Err(status) => {
            let _ = rt.eprintln(status);
            status
        }
    }
}

/// Executes the words of the process over the devices that they need, and returns the exit status of the program. A
/// status other than 0 comes with a message on standard error. The streams that the process was started without stay
/// closed.
pub fn start<R: AllocGlobal + Clock + Env + Eprint + Files<File = File> + Input + Net + Print>(
    rt: &R,
) -> ExitCode {
    let status = match stand_ins(rt) {
        Ok(kept) => {
            let status = done(rt);
            drop(kept);
            status
        }
        Err(error) => told(rt, &[], Err(NoDevice::StandIn(error))),
    };
    ExitCode::from(status.number())
}
