//! Tests of what no clause says: disks, logs and ports over the system's own files and sockets, its clock, a store that
//! is as large as it may be, and readers and writers of the standard library that fail.
//!
//! What disks, logs and ports over memory do is proved, and shown by the tables of `crsm_test_node`.
#![tactic(auto)]

#[cfg(test)]
mod clock;
#[cfg(test)]
mod disk;
#[cfg(test)]
mod io;
#[cfg(test)]
mod kv;
#[cfg(test)]
mod log;
#[cfg(test)]
mod port;
