//! A port over a socket.

use crsm_base::Failed;
use crsm_port::{Port, Recv, UdpPort};
use std::alloc::Global;
use std::net::Net;
use std::process::Abort;
use std::test::Fail;

/// The local host, where the system chooses the port.
const LOCAL: u64 = 0x7f00_0001 << 16;

/// A socket that the system gave a port.
fn bound(alloc: Global, net: &impl Net) -> Result<Box<UdpPort>, Fail> {
    let port = UdpPort::bind(alloc, net, LOCAL)?;
    Ok(Box::new(alloc, port)?)
}

fn address_of(port: &UdpPort) -> Result<u64, Fail> {
    Ok(port.address().ok_or("an address")?)
}

/// What the first receive gives that finds something, of a hundred.
fn receive(port: &mut UdpPort, buf: &mut [u8]) -> Result<Recv, Failed> {
    for _ in 0..100 {
        match port.recv(buf) {
            Ok(Recv::Nothing) => {}
            got => return got,
        }
    }
    Ok(Recv::Nothing)
}

/// Has one socket send as much as a datagram may have, and the other receive it.
fn carry(rt: &impl Abort, one: &mut UdpPort, other: &mut UdpPort) -> Result<(), Fail> {
    let bytes = [7u8; 8192];
    let mut buf = [0u8; 8192];
    let from = address_of(one)?;
    let to = address_of(other)?;
    assert_eq!(rt; one.send(to, &bytes), Ok(()));
    assert_eq!(rt; one.send(u64::MAX, &bytes), Err(Failed));
    let got = receive(other, &mut buf);
    assert_eq!(rt; got, Ok(Recv::Datagram { from, len: 8192 }));
    assert!(rt; buf == bytes);
    one.poll_soon();
    assert_eq!(rt; one.recv(&mut buf), Ok(Recv::Nothing));
    Ok(())
}

#[test]
fn carries_a_large_datagram(rt: HostRuntime) -> Result<(), Fail> {
    let mut one = bound(rt.alloc(), &rt)?;
    let mut other = bound(rt.alloc(), &rt)?;
    carry(&rt, &mut one, &mut other)
}
