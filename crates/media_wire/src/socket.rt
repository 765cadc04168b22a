//! What sockets are asked for, and those of the system.

ghost use Rattle.media_wire.specs.Calls.{Call, binds, reads, sends, unwaits, widens};
ghost use Rattle.std.specs.Prelude.{◌≤◌, IfOk, length};
ghost use Rattle.std.specs.declared.net.socket_addr.SocketAddrV4.{SocketAddrV4 as At};

use libc::net as c;
use std::io;
use std::net::{Net, SocketAddr, SocketAddrV4, UdpSocket};
use std::os::fd::AsRawFd;

/// A socket for datagrams that is bound to an address. What is said over any sockets can know it by their calls alone.
pub trait Socket {
    /// This call was made, and so it was answered.
    ghost did: { Call Self → Type 0 };

    /// It is bound to that address.
    ghost stands: { Self → At → Type 0 };

    /// One that is bound to that address.
    fn bound_to<N: Net>(net: &N, at: SocketAddrV4) -> io::Result<Self>
        ensures did { did (binds at result) }
        ensures stands { IfOk result (λ socket. stands socket at) };

    /// It keeps more of what comes, as far as the system lets it.
    fn widen(&self)
        ensures { did (widens self.now) };

    /// No call of it waits from now on.
    fn never_wait(&self) -> io::Result<()>
        ensures { did (unwaits self.now result) };

    /// By what it may be waited for that a datagram comes.
    fn descriptor(&self) -> i32;

    /// Sends a datagram. How many of its bytes were sent.
    fn hand(&mut self, bytes: &[u8], to: SocketAddrV4) -> io::Result<usize>
        ensures did { did (sends self.old bytes.now to result self.new) }
        ensures stands { (at : At) → stands self.old at → stands self.new at };

    /// Reads the next datagram into the buffer. Its length, and where it came from.
    fn fetch(&mut self, buffer: &mut [u8]) -> io::Result<(usize, SocketAddr)>
        ensures within { IfOk result (λ datagram. datagram.0 ≤ length buffer.new) }
        ensures did { did (reads self.old buffer.new result self.new) }
        ensures stands { (at : At) → stands self.old at → stands self.new at };
}

// How many bytes of datagrams that were not read yet a socket keeps, where the system lets it.
const KEPT: i32 = 4_194_304;

// Each call is the system's of that name. What it does no contract says.
impl Socket for UdpSocket {
    ghost did = { λ call. Unit {0} };

    ghost stands = { λ socket at. Unit {0} };

    fn bound_to<N: Net>(net: &N, at: SocketAddrV4) -> io::Result<UdpSocket> {
        UdpSocket::bind(net, at)
    }

    fn widen(&self) {
        let mut value = [0u8; 16];
        value[..4].copy_from_slice(&KEPT.to_ne_bytes());
        let _ = unsafe { c::setsockopt(self.as_raw_fd(), c::SOL_SOCKET, c::SO_RCVBUF, &value, 4) };
    }

    fn never_wait(&self) -> io::Result<()> {
        self.set_nonblocking(true)
    }

    fn descriptor(&self) -> i32 {
        self.as_raw_fd()
    }

    fn hand(&mut self, bytes: &[u8], to: SocketAddrV4) -> io::Result<usize> {
        self.send_to(bytes, to)
    }

    fn fetch(&mut self, buffer: &mut [u8]) -> io::Result<(usize, SocketAddr)> {
        self.recv_from(buffer)
    }
}
