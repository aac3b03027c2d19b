//! A UDP socket as a port. Contracts say nothing of the datagrams that it sends and receives.
ghost use Rattle.std.specs.Prelude.{◌≡◌, ◌≤◌, ◌^◌, ◌<◌, IfOk, OnErr, length};
ghost use Rattle.crsm_port_faults.specs.Counts.{Rose};
ghost use Rattle.crsm_port.specs.Unknown.{unknown};

use crate::address::{from_number, number};
use crate::{Port, Recv};
use crsm_base::{Failed, NoMemory};
use crsm_port_faults::raise;
use mio::net::UdpSocket;
use mio::{Events, Interest, Poll, Token};
use std::alloc::Global;
use std::io::{self, ErrorKind};
use std::net::{Net, SocketAddr};
use std::time::Duration;

// Maximum times in milliseconds that a receive waits for a datagram.
const WAIT_MILLIS: u64 = 1;

const LONG_WAIT_MILLIS: u64 = 10;

// Whether the next receive waits for a datagram.
#[derive(Clone, Copy, PartialEq)]
enum Wait {
    Never,
    Short,
    Long,
}

impl Wait {
    fn time(self) -> Duration {
        match self {
            Wait::Never => Duration::from_millis(0),
            Wait::Short => Duration::from_millis(WAIT_MILLIS),
            Wait::Long => Duration::from_millis(LONG_WAIT_MILLIS),
        }
    }
}

// A socket, and the poll that waits for datagrams on it.
#[derive(Drop)]
struct Inlet {
    socket: UdpSocket,
    poll: Poll,
    events: Events,
    wait: Wait,
}

impl Inlet {
    fn bind(alloc: Global, net: &impl Net, address: SocketAddr) -> io::Result<Inlet> {
        let mut socket = UdpSocket::bind(net, address)?;
        let poll = Poll::new(net)?;
        poll.registry()
            .register(&mut socket, Token(0), Interest::READABLE)?;
        Ok(Inlet {
            socket,
            poll,
            events: Events::with_capacity(alloc, 1)?,
            wait: Wait::Short,
        })
    }

    // A poll reports changes only: so the socket is read first, and the poll waits only if nothing had arrived.
    fn receive(&mut self, buf: &mut [u8]) -> io::Result<(usize, SocketAddr)>
        ensures { IfOk result (λ r. r.0 ≤ length buf.new) }
    {
        let wait = self.wait;
        self.wait = Wait::Short;
        match self.socket.recv_from(buf) {
            Err(e) if wait != Wait::Never && e.kind() == ErrorKind::WouldBlock => {
                self.poll.poll(&mut self.events, Some(wait.time()))?;
                self.socket.recv_from(buf)
            }
            answer => answer,
        }
    }
}

/// A UDP socket as a port. It counts its faults, losses and empty receives, and specifies nothing else.
#[derive(Drop)]
pub struct UdpPort {
    inlet: Inlet,
    faults: u64,
    losses: u64,
    empties: u64,
}

impl UdpPort {
    /// Binds a socket to an address (IPv4 x 65,536 + port; with port 0 the system picks a free one), or returns the
    /// system's error. A receive waits up to a millisecond for a datagram, up to 10 after `wait_long`, and not at all
    /// after `poll_soon`.
    pub fn bind(alloc: Global, net: &impl Net, address: u64) -> io::Result<UdpPort>
        requires { address < 2 ^ 48 }
    {
        Ok(UdpPort {
            inlet: Inlet::bind(alloc, net, SocketAddr::V4(from_number(address)))?,
            faults: 0,
            losses: 0,
            empties: 0,
        })
    }

    /// Returns the address to which the socket is bound, or `None` if it is not an IPv4 address.
    pub fn address(&self) -> Option<u64> {
        match self.inlet.socket.local_addr() {
            Ok(SocketAddr::V4(address)) => Some(number(address)),
            _ => None,
        }
    }
}

// Returns `Nothing` if the wait timed out or was interrupted, and otherwise counts a fault. A report that an earlier
// datagram reached nobody is no fault of a receive.
fn missed(faults: &mut u64, empties: &mut u64, kind: ErrorKind) -> Result<Recv, Failed>
    ensures later { faults.old ≤ faults.new }
    ensures err { OnErr result ((empties.new ≡ empties.old) × Rose faults.old faults.new) }
    ensures ok { IfOk result (λ got. (got ≡ Recv.Nothing) × (faults.new ≡ faults.old) × (empties.old ≤ empties.new) × Rose empties.old empties.new) }
{
    match kind {
        ErrorKind::WouldBlock
        | ErrorKind::TimedOut
        | ErrorKind::Interrupted
        | ErrorKind::ConnectionRefused => {
            raise(empties);
            Ok(Recv::Nothing)
        }
        _ => {
            raise(faults);
            Err(Failed)
        }
    }
}

impl Port for UdpPort {
    ghost meaning = { λ p. unknown p.faults p.losses p.empties };

    fn recv(&mut self, buf: &mut [u8]) -> Result<Recv, Failed> {
        match self.inlet.receive(buf) {
            Ok((len, SocketAddr::V4(from))) => Ok(Recv::Datagram {
                from: number(from),
                len,
            }),
            Ok((_, SocketAddr::V6(_))) => {
                raise(&mut self.faults);
                Err(Failed)
            }
            Err(e) => missed(&mut self.faults, &mut self.empties, e.kind()),
        }
    }

    fn send(&mut self, to: u64, bytes: &[u8]) -> Result<(), Failed> {
        let sent = match to < 1 << 48 {
            true => self
                .inlet
                .socket
                .send_to(bytes, SocketAddr::V4(from_number(to))),
            false => Err(io::Error::from(ErrorKind::InvalidInput)),
        };
        match sent {
            Ok(n) if n == bytes.len() => Ok(()),
            _ => {
                raise(&mut self.losses);
                Err(Failed)
            }
        }
    }

    fn reserve(&mut self, _sends: u64, _bytes: u64) -> Result<(), NoMemory> {
        Ok(())
    }

    fn poll_soon(&mut self) {
        self.inlet.wait = Wait::Never;
    }

    fn wait_long(&mut self) {
        self.inlet.wait = Wait::Long;
    }
}
