//! Values of slots and commands that are kept once, and have several owners.

ghost use Rattle.std.specs.Prelude.{◌≡◌, Some, IfOk};
ghost use Rattle.std.specs.Option.{option_copied};
ghost use Rattle.crsm_base.specs.Spelling.{command_bytes, option_bytes};

use crsm_base::{Bytes, Command, NoMemory};
use std::alloc::Global;
use std::marker::Model;
use std::rc::Rc;

/// The value of a slot, and its encoding.
#[derive(Drop)]
struct Encoded {
    value: Option<Command>,
    bytes: Bytes,
}

/// The value of a slot, which is a command, or nothing if the slot is a noop. It is kept and encoded once for all its
/// owners: records, messages and replicas. A contract sees the value.
pub struct SharedValue {
    encoded: Rc<Encoded>,
}

// Written by hand, it is one call for the crates above, which would prove a derived one again.
impl Drop for SharedValue {
    fn drop(self) {
        let SharedValue { encoded: _ } = self;
    }
}

impl Model for SharedValue {
    ghost use Rattle.std.specs.Prelude.{◌≡◌, Option};
    ghost use Rattle.crsm_base.specs.declared.Command.{Command};
    ghost use Rattle.crsm_base.specs.Spelling.{command_bytes, option_bytes};

    ghost Value = { Option Command };

    ghost view = { λ v. v.encoded.value.value };

    ghost invariant = { λ v. v.encoded.value.bytes ≡ option_bytes command_bytes v.encoded.value.value };
}

impl SharedValue {
    /// Returns a value of one owner, whose encoding the bytes are. `NoMemory` if memory runs out.
    pub fn new(alloc: Global, value: Option<Command>, bytes: Bytes) -> Result<SharedValue, NoMemory>
        requires { bytes ≡ option_bytes command_bytes value }
        ensures { IfOk result (λ shared. shared ≡ value) }
    {
        match Rc::new(alloc, Encoded { value, bytes }) {
            Ok(encoded) => Ok(SharedValue { encoded }),
            Err(_) => Err(NoMemory),
        }
    }

    /// Returns the command, or `None` if the slot is a noop.
    pub fn get(&self) -> Option<&Command>
        ensures { option_copied result ≡ self.now }
    {
        self.encoded.value.as_ref()
    }

    /// Returns the encoding of the value.
    pub fn as_bytes(&self) -> &[u8]
        ensures { result.now ≡ option_bytes command_bytes self.now }
    {
        self.encoded.bytes.as_slice()
    }

    /// Returns the same value for one more owner. `NoMemory` if there are too many.
    pub fn share(&self) -> Result<SharedValue, NoMemory>
        ensures { IfOk result (λ copy. copy ≡ self.now) }
    {
        let encoded = self.encoded.clone()?;
        Ok(SharedValue { encoded })
    }
}

/// A command that is the value of a slot, or may become it. A contract sees the command.
pub struct SharedCommand {
    value: SharedValue,
}

// Written by hand, it is one call for the crates above, which would prove a derived one again.
impl Drop for SharedCommand {
    fn drop(self) {
        let SharedCommand { value: _ } = self;
    }
}

impl Model for SharedCommand {
    ghost use Rattle.std.specs.Prelude.{◌≡◌, Some};
    ghost use Rattle.crsm_base.specs.declared.Command.{Command};
    ghost use Rattle.crsm_mpspec.specs.Shared.{command_in};

    ghost Value = { Command };

    ghost view = { λ c. command_in c.value };

    ghost invariant = { λ c. c.value ≡ Some (command_in c.value) };
}

impl SharedCommand {
    /// Returns a command of one owner, of whose value the bytes are the encoding. `NoMemory` if memory runs out.
    pub fn new(alloc: Global, command: Command, bytes: Bytes) -> Result<SharedCommand, NoMemory>
        requires { bytes ≡ option_bytes command_bytes (Some command) }
        ensures { IfOk result (λ shared. shared ≡ command) }
    {
        let value = SharedValue::new(alloc, Some(command), bytes)?;
        Ok(SharedCommand { value })
    }

    /// Returns the command.
    pub fn get(&self) -> &Command
        ensures { result.now ≡ self.now }
    {
        match self.value.get() {
            Some(command) => command,
            None => unreachable!(),
        }
    }

    /// Returns the command as a value, for one more owner. `NoMemory` if there are too many.
    pub fn to_value(&self) -> Result<SharedValue, NoMemory>
        ensures { IfOk result (λ value. value ≡ Some self.now) }
    {
        self.value.share()
    }

    /// Returns the same command for one more owner. `NoMemory` if there are too many.
    pub fn share(&self) -> Result<SharedCommand, NoMemory>
        ensures { IfOk result (λ copy. copy ≡ self.now) }
    {
        let value = self.value.share()?;
        Ok(SharedCommand { value })
    }
}
