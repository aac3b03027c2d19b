//! Readers and writers of keys, values, operations and commands.

ghost use Rattle.std.specs.Prelude.{◌≡◌, ◌++◌, IfOk, IfSome, IfNone, OnOk, OnErr};
ghost use Rattle.crsm_base.specs.Spelling.{FitsCommand, FitsKey, FitsOp, FitsOption, FitsVal, Spelt, SpeltCommand, SpeltKey, SpeltOp, SpeltVal, command_bytes, key_bytes, op_bytes, option_bytes, val_bytes};
ghost use Rattle.crsm_codec.specs.Readers.{IsPrefix, HasNoPrefix, ReadsAgain};

use crsm_base::{Bytes, Command, Key, NoMemory, Op, Val};
use std::alloc::Global;

/// Parses a key of 1 to 64 bytes at the beginning of `bytes`. Returns it with the length of its encoding in bytes, or
/// `None` if `bytes` begins with no such encoding; `NoMemory` if memory runs out.
pub fn read_key(alloc: Global, bytes: &[u8]) -> Result<Option<(Key, usize)>, NoMemory>
    ensures found { IfOk result (λ r. IfSome r (IsPrefix SpeltKey bytes.now)) }
    ensures none { IfOk result (λ r. IfNone r (HasNoPrefix SpeltKey bytes.now)) }
    ensures again { ReadsAgain key_bytes FitsKey bytes.now result }
{
    match crsm_text_fields::take_key(alloc, bytes) {
        Ok(Some((key, rest))) => Ok(Some((key, bytes.len() - rest.len()))),
        Ok(None) => Ok(None),
        Err(NoMemory) => Err(NoMemory),
    }
}

/// Appends the encoding of a key of 1 to 64 bytes. `NoMemory` if memory runs out; `out` is then unchanged.
pub fn write_key(alloc: Global, key: &Key, out: &mut Bytes) -> Result<(), NoMemory>
    requires { FitsKey key.now }
    ensures ok { OnOk result (out.new ≡ out.old ++ key_bytes key.now) }
    ensures err { OnErr result (out.new ≡ out.old) }
{
    let mut spelling = Bytes::new(alloc);
    let Ok(()) = crsm_text_fields::put_key(key, &mut spelling) else {
        drop(spelling);
        return Err(NoMemory);
    };
    out.append(spelling.as_slice())
}

/// Parses a value of at most 512 bytes at the beginning of `bytes`. Returns it with the length of its encoding in
/// bytes, or `None` if `bytes` begins with no such encoding; `NoMemory` if memory runs out.
pub fn read_val(alloc: Global, bytes: &[u8]) -> Result<Option<(Val, usize)>, NoMemory>
    ensures found { IfOk result (λ r. IfSome r (IsPrefix SpeltVal bytes.now)) }
    ensures none { IfOk result (λ r. IfNone r (HasNoPrefix SpeltVal bytes.now)) }
    ensures again { ReadsAgain val_bytes FitsVal bytes.now result }
{
    match crsm_text_fields::take_val(alloc, bytes) {
        Ok(Some((val, rest))) => Ok(Some((val, bytes.len() - rest.len()))),
        Ok(None) => Ok(None),
        Err(NoMemory) => Err(NoMemory),
    }
}

/// Appends the encoding of a value of at most 512 bytes. `NoMemory` if memory runs out; `out` is then unchanged.
pub fn write_val(alloc: Global, val: &Val, out: &mut Bytes) -> Result<(), NoMemory>
    requires { FitsVal val.now }
    ensures ok { OnOk result (out.new ≡ out.old ++ val_bytes val.now) }
    ensures err { OnErr result (out.new ≡ out.old) }
{
    let mut spelling = Bytes::new(alloc);
    let Ok(()) = crsm_text_fields::put_val(val, &mut spelling) else {
        drop(spelling);
        return Err(NoMemory);
    };
    out.append(spelling.as_slice())
}

/// Parses an optional value at the beginning of `bytes`. Returns it with the length of its encoding in bytes, or
/// `None` if `bytes` begins with no such encoding; `NoMemory` if memory runs out.
pub fn read_option_val(
    alloc: Global,
    bytes: &[u8],
) -> Result<Option<(Option<Val>, usize)>, NoMemory>
    ensures found { IfOk result (λ r. IfSome r (IsPrefix (Spelt (option_bytes val_bytes) (FitsOption FitsVal)) bytes.now)) }
    ensures none { IfOk result (λ r. IfNone r (HasNoPrefix (Spelt (option_bytes val_bytes) (FitsOption FitsVal)) bytes.now)) }
    ensures again { ReadsAgain (option_bytes val_bytes) (FitsOption FitsVal) bytes.now result }
{
    match crsm_text_fields::take_option_val(alloc, bytes) {
        Ok(Some((val, rest))) => Ok(Some((val, bytes.len() - rest.len()))),
        Ok(None) => Ok(None),
        Err(NoMemory) => Err(NoMemory),
    }
}

/// Appends the encoding of an optional value. `NoMemory` if memory runs out; `out` is then unchanged.
pub fn write_option_val(alloc: Global, val: &Option<Val>, out: &mut Bytes) -> Result<(), NoMemory>
    requires { FitsOption FitsVal val.now }
    ensures ok { OnOk result (out.new ≡ out.old ++ option_bytes val_bytes val.now) }
    ensures err { OnErr result (out.new ≡ out.old) }
{
    let mut spelling = Bytes::new(alloc);
    let Ok(()) = crsm_text_fields::put_option_val(val, &mut spelling) else {
        drop(spelling);
        return Err(NoMemory);
    };
    out.append(spelling.as_slice())
}

/// Parses an operation at the beginning of `bytes`. Returns it with the length of its encoding in bytes, or `None` if
/// `bytes` begins with no such encoding; `NoMemory` if memory runs out.
pub fn read_op(alloc: Global, bytes: &[u8]) -> Result<Option<(Op, usize)>, NoMemory>
    ensures found { IfOk result (λ r. IfSome r (IsPrefix SpeltOp bytes.now)) }
    ensures none { IfOk result (λ r. IfNone r (HasNoPrefix SpeltOp bytes.now)) }
    ensures again { ReadsAgain op_bytes FitsOp bytes.now result }
{
    match crsm_text_fields::take_op(alloc, bytes) {
        Ok(Some((op, rest))) => Ok(Some((op, bytes.len() - rest.len()))),
        Ok(None) => Ok(None),
        Err(NoMemory) => Err(NoMemory),
    }
}

/// Appends the encoding of an operation. `NoMemory` if memory runs out; `out` is then unchanged.
pub fn write_op(alloc: Global, op: &Op, out: &mut Bytes) -> Result<(), NoMemory>
    requires { FitsOp op.now }
    ensures ok { OnOk result (out.new ≡ out.old ++ op_bytes op.now) }
    ensures err { OnErr result (out.new ≡ out.old) }
{
    let mut spelling = Bytes::new(alloc);
    let Ok(()) = crsm_text_fields::put_op(op, &mut spelling) else {
        drop(spelling);
        return Err(NoMemory);
    };
    out.append(spelling.as_slice())
}

/// Parses a command at the beginning of `bytes`. Returns it with the length of its encoding in bytes, or `None` if
/// `bytes` begins with no such encoding; `NoMemory` if memory runs out.
pub fn read_command(alloc: Global, bytes: &[u8]) -> Result<Option<(Command, usize)>, NoMemory>
    ensures found { IfOk result (λ r. IfSome r (IsPrefix SpeltCommand bytes.now)) }
    ensures none { IfOk result (λ r. IfNone r (HasNoPrefix SpeltCommand bytes.now)) }
    ensures again { ReadsAgain command_bytes FitsCommand bytes.now result }
{
    match crsm_text_fields::take_command(alloc, bytes) {
        Ok(Some((command, rest))) => Ok(Some((command, bytes.len() - rest.len()))),
        Ok(None) => Ok(None),
        Err(NoMemory) => Err(NoMemory),
    }
}

/// Appends the encoding of a command. `NoMemory` if memory runs out; `out` is then unchanged.
pub fn write_command(alloc: Global, command: &Command, out: &mut Bytes) -> Result<(), NoMemory>
    requires { FitsCommand command.now }
    ensures ok { OnOk result (out.new ≡ out.old ++ command_bytes command.now) }
    ensures err { OnErr result (out.new ≡ out.old) }
{
    let mut spelling = Bytes::new(alloc);
    let Ok(()) = crsm_text_fields::put_command(command, &mut spelling) else {
        drop(spelling);
        return Err(NoMemory);
    };
    out.append(spelling.as_slice())
}
