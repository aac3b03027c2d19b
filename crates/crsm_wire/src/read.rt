//! Readers and writers of control messages and datagrams as whole inputs.

ghost use Rattle.std.specs.Prelude.{◌≡◌, ◌++◌, IfOk, IsErrOf, OnOk, OnErr};
ghost use Rattle.crsm_base.specs.declared.Control.{Control};
ghost use Rattle.crsm_base.specs.declared.Datagram.{Datagram};
ghost use Rattle.crsm_base.specs.Messages.{control_bytes, FitsControl, SpeltControl, datagram_bytes, FitsDatagram, SpeltDatagram};
ghost use Rattle.crsm_base.specs.MessageReading.{control_of, datagram_of};

use crate::fault::WireError;
use crate::{datagram, put, take};
use crsm_base::{Bytes, Control, Datagram, NoMemory};
use std::alloc::Global;

/// Parses a control message from all of the bytes. `NotOne` if they are no control message's encoding; `NoMemory` if
/// memory runs out.
pub fn read_control(alloc: Global, bytes: &[u8]) -> Result<Control, WireError>
    ensures found { IfOk result (λ control. SpeltControl control bytes.now) }
    ensures value { IfOk result (λ control. control_of bytes.now ≡ Some control) }
    ensures not_one { IsErrOf result WireError.NotOne → (control : Control) → SpeltControl control bytes.now → ⊥ }
    ensures none { IsErrOf result WireError.NotOne → control_of bytes.now ≡ None }
    ensures again { (control : Control) → FitsControl control → bytes.now ≡ control_bytes control → IfOk result (λ r. r ≡ control) }
{
    let Ok(taken) = take::take_control(alloc, bytes) else {
        return Err(WireError::NoMemory);
    };
    let Some((control, rest)) = taken else {
        return Err(WireError::NotOne);
    };
    if !rest.is_empty() {
        drop(control);
        return Err(WireError::NotOne);
    }
    Ok(control)
}

/// Appends the encoding of a control message. `NoMemory` if memory runs out; `out` is then unchanged.
pub fn write_control(alloc: Global, control: &Control, out: &mut Bytes) -> Result<(), NoMemory>
    requires { FitsControl control.now }
    ensures ok { OnOk result (out.new ≡ out.old ++ control_bytes control.now) }
    ensures err { OnErr result (out.new ≡ out.old) }
{
    let mut spelling = Bytes::new(alloc);
    let Ok(()) = put::put_control(control, &mut spelling) else {
        drop(spelling);
        return Err(NoMemory);
    };
    out.append(spelling.as_slice())
}

/// Parses a datagram from all of the bytes. `NotOne` if they are no datagram's encoding; `NoMemory` if memory runs out.
pub fn read_datagram(alloc: Global, bytes: &[u8]) -> Result<Datagram, WireError>
    ensures found { IfOk result (λ datagram. SpeltDatagram datagram bytes.now) }
    ensures value { IfOk result (λ datagram. datagram_of bytes.now ≡ Some datagram) }
    ensures not_one { IsErrOf result WireError.NotOne → (datagram : Datagram) → SpeltDatagram datagram bytes.now → ⊥ }
    ensures none { IsErrOf result WireError.NotOne → datagram_of bytes.now ≡ None }
    ensures again { (datagram : Datagram) → FitsDatagram datagram → bytes.now ≡ datagram_bytes datagram → IfOk result (λ r. r ≡ datagram) }
{
    datagram::read_whole(alloc, bytes)
}

/// Appends the encoding of a datagram. `NoMemory` if memory runs out; `out` is then unchanged.
pub fn write_datagram(alloc: Global, datagram: &Datagram, out: &mut Bytes) -> Result<(), NoMemory>
    requires { FitsDatagram datagram.now }
    ensures ok { OnOk result (out.new ≡ out.old ++ datagram_bytes datagram.now) }
    ensures err { OnErr result (out.new ≡ out.old) }
{
    let mut spelling = Bytes::new(alloc);
    let Ok(()) = put::put_datagram(datagram, &mut spelling) else {
        drop(spelling);
        return Err(NoMemory);
    };
    out.append(spelling.as_slice())
}
