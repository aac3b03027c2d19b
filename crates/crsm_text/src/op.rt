//! Parsing of operations.

ghost use Rattle.std.specs.Prelude.{◌≡◌, ◌++◌, IfOk, codes};
ghost use Rattle.crsm_base.specs.declared.Op.{Op};
ghost use Rattle.crsm_base.specs.Spelling.{FitsOp};
ghost use Rattle.crsm_text.specs.Values.{op_text, HasBytes};
ghost use Rattle.crsm_text.specs.Reads.{ReadsAs};

use crate::error::LineError;
use crate::fields::split_field;
use crate::value::{key_of, option_of, val_of};
use crsm_base::Op;
use std::alloc::Global;

fn get_of(alloc: Global, text: &[u8]) -> Result<Op, LineError>
    ensures found { IfOk result (λ op. FitsOp op × HasBytes op × (codes "get " ++ text.now ≡ op_text op)) }
    ensures only { (op : Op) → FitsOp op → HasBytes op → codes "get " ++ text.now ≡ op_text op → ReadsAs result op }
{
    Ok(Op::Get(key_of(alloc, text)?))
}

fn put_of(alloc: Global, text: &[u8]) -> Result<Op, LineError>
    ensures found { IfOk result (λ op. FitsOp op × HasBytes op × (codes "put " ++ text.now ≡ op_text op)) }
    ensures only { (op : Op) → FitsOp op → HasBytes op → codes "put " ++ text.now ≡ op_text op → ReadsAs result op }
{
    let Some((key, val)) = split_field(text, b' ') else {
        return Err(LineError::Unreadable);
    };
    let key = key_of(alloc, key)?;
    let val = val_of(alloc, val)?;
    Ok(Op::Put(key, val))
}

fn delete_of(alloc: Global, text: &[u8]) -> Result<Op, LineError>
    ensures found { IfOk result (λ op. FitsOp op × HasBytes op × (codes "del " ++ text.now ≡ op_text op)) }
    ensures only { (op : Op) → FitsOp op → HasBytes op → codes "del " ++ text.now ≡ op_text op → ReadsAs result op }
{
    Ok(Op::Delete(key_of(alloc, text)?))
}

fn cas_of(alloc: Global, text: &[u8]) -> Result<Op, LineError>
    ensures found { IfOk result (λ op. FitsOp op × HasBytes op × (codes "cas " ++ text.now ≡ op_text op)) }
    ensures only { (op : Op) → FitsOp op → HasBytes op → codes "cas " ++ text.now ≡ op_text op → ReadsAs result op }
{
    let Some((key, rest)) = split_field(text, b' ') else {
        return Err(LineError::Unreadable);
    };
    let Some((expected, new)) = split_field(rest, b' ') else {
        return Err(LineError::Unreadable);
    };
    let key = key_of(alloc, key)?;
    let expected = option_of(alloc, expected)?;
    let new = option_of(alloc, new)?;
    Ok(Op::Cas(key, expected, new))
}

/// Parses an operation: `get`, `put`, `del` or `cas` with its key and values. `Unreadable` if the text is none.
pub fn read_op(alloc: Global, text: &[u8]) -> Result<Op, LineError>
    ensures found { IfOk result (λ op. FitsOp op × HasBytes op × (text.now ≡ op_text op)) }
    ensures only { (op : Op) → FitsOp op → HasBytes op → text.now ≡ op_text op → ReadsAs result op }
{
    if let Some(rest) = text.strip_prefix(b"get ") {
        return get_of(alloc, rest);
    }
    if let Some(rest) = text.strip_prefix(b"put ") {
        return put_of(alloc, rest);
    }
    if let Some(rest) = text.strip_prefix(b"del ") {
        return delete_of(alloc, rest);
    }
    if let Some(rest) = text.strip_prefix(b"cas ") {
        return cas_of(alloc, rest);
    }
    Err(LineError::Unreadable)
}
