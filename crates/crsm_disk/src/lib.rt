//! Disks over memory and over files, with contracts of what a crash at any moment may leave of the bytes written.
#![tactic(auto)]

mod content;
mod disk;
mod file;
mod memory;
mod past;

pub use disk::Disk;
pub use file::{FileDisk, OpenError};
pub use memory::MemDisk;
