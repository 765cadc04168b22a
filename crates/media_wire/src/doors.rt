//! The sockets that are open, each with the address that it is bound to.

ghost use Rattle.media_wire.specs.Calls.{IsFormOf, sender_of};
ghost use Rattle.media_wire.specs.Doors.{Enters, IsOldest, LosesOldest, MakesRoom, Opens, Reads, Sends, UsesIts, is_at};
ghost use Rattle.media_wire.specs.Sockets.{is_used_after};
ghost use Rattle.std.specs.List.{position};
ghost use Rattle.std.specs.Net.Addr.{ipv4_octets};
ghost use Rattle.std.specs.Net.Socket.{v4_ip, v4_port};
ghost use Rattle.std.specs.Prelude.{◌≡◌, ◌<◌, ◌≤◌, ◌++◌, ◌∷◌, [], IfOk, IfSome, IsErr, filter, length, vec_capacity, vec_len};

use crate::socket::Socket;
use crate::wire::WireFault;
use channel_uri::Address;
use std::io::ErrorKind;
use std::marker::Model;
use std::net::{Ipv4Addr, Net, SocketAddr, SocketAddrV4};

/// A socket, the address that it is bound to, and at which call it was used last.
#[derive(Drop)]
pub struct Door<S: Socket> {
    local: Address,
    used: u64,
    socket: S,
}

impl<S: Socket> Model for Door<S> {
    ghost use Rattle.media_wire.specs.Doors.{Bound, IsBoundAt};

    ghost Value = { Bound S };

    ghost view = { λ door. record { local = door.local; used = door.used; socket = door.socket } };

    ghost invariant = { λ door. IsBoundAt S.did S.stands door.socket door.local };
}

fn form(address: &Address) -> SocketAddrV4
    ensures { IsFormOf result address.now }
{
    SocketAddrV4::new(Ipv4Addr::from_octets(address.octets), address.port)
}

// None where it is of another version of the Internet Protocol.
fn address(from: &SocketAddr) -> Option<Address>
    ensures { result ≡ sender_of from.now }
{
    match from {
        SocketAddr::V4(from) => Some(Address {
            octets: from.ip().octets(),
            port: from.port(),
        }),
        SocketAddr::V6(_) => None,
    }
}

// A socket at an address, whose calls never wait.
fn opened<N: Net, S: Socket + Drop>(net: &N, local: &Address, call: u64) -> Option<Door<S>>
    ensures { Opens S.did S.stands local.now call result }
{
    match S::bound_to(net, form(local)) {
        Ok(socket) => {
            socket.widen();
            match socket.never_wait() {
                Ok(()) => Some(Door {
                    local: *local,
                    used: call,
                    socket,
                }),
                Err(_) => None,
            }
        }
        Err(_) => None,
    }
}

impl<S: Socket> Door<S> {
    fn descriptor(&self) -> i32 {
        self.socket.descriptor()
    }

    // Sends a datagram, whole.
    fn send(&mut self, call: u64, to: &Address, bytes: &[u8]) -> Result<(), WireFault>
        ensures { Sends S.did S.stands call to.now bytes.now self.old self.new result }
    {
        self.used = call;
        match self.socket.hand(bytes, form(to)) {
            Ok(count) => {
                if count == bytes.len() {
                    Ok(())
                } else {
                    Err(WireFault)
                }
            }
            Err(_) => Err(WireFault),
        }
    }

    // What was read, as `Wire::recv` answers it.
    fn recv(&mut self, call: u64, buffer: &mut [u8]) -> Result<Option<(usize, Address)>, WireFault>
        ensures within { IfOk result (λ read. IfSome read (λ datagram. datagram.0 ≤ length buffer.new)) }
        ensures reads { Reads S.did S.stands call buffer.new self.old self.new result }
    {
        self.used = call;
        match self.socket.fetch(buffer) {
            Ok((count, from)) => match address(&from) {
                Some(from) => Ok(Some((count, from))),
                None => Err(WireFault),
            },
            Err(fault) => {
                if fault.kind() == ErrorKind::WouldBlock {
                    Ok(None)
                } else {
                    Err(WireFault)
                }
            }
        }
    }
}

fn place_of<S: Socket>(doors: &[Door<S>], local: &Address) -> Option<usize>
    ensures within { IfSome result (λ place. place < length doors.now) }
    ensures place { result ≡ position (is_at local.now) doors.now }
{
    doors.iter().position(|door| door.local.is(local))
}

// By what it may be waited for that a datagram comes there.
pub(crate) fn descriptor_of<S: Socket>(doors: &[Door<S>], local: &Address) -> Option<i32> {
    let place = place_of(doors, local)?;
    Some(doors[place].descriptor())
}

// Which was not used for the longest, the first of several.
#[tactic(auto, using(crate::proofs::Oldest::starts_oldest, crate::proofs::Oldest::keeps_oldest, crate::proofs::Oldest::moves_oldest))]
fn oldest_of<S: Socket>(doors: &[Door<S>]) -> usize
    requires { 0 < length doors.now }
    ensures within { result < length doors.now }
    ensures oldest { IsOldest doors.now result }
{
    let mut oldest = 0;
    for place in 0..doors.len() {
        let (door, best) = (&doors[place], &doors[oldest]);
        if door.used < best.used {
            oldest = place;
        }
    }
    oldest
}

// The socket that was not used for the longest is closed.
fn close_oldest<S: Socket + Drop>(doors: &mut Vec<Door<S>>)
    requires { 0 < vec_len doors.old }
    ensures closed { LosesOldest doors.old.items doors.new.items }
    ensures fewer { vec_len doors.new < vec_len doors.old }
    ensures room { vec_capacity doors.new ≡ vec_capacity doors.old }
{
    let oldest = oldest_of(doors);
    let _ = doors.remove(oldest);
}

// There is room for one more.
fn make_room<S: Socket + Drop>(doors: &mut Vec<Door<S>>, places: usize)
    requires places { 0 < places }
    requires few { vec_len doors.old ≤ places }
    ensures closed { MakesRoom places doors.old.items doors.new.items }
    ensures fewer { vec_len doors.new < places }
    ensures room { vec_capacity doors.new ≡ vec_capacity doors.old }
{
    if doors.len() >= places {
        close_oldest(doors);
    }
}

// Those that were used after this call stay.
pub(crate) fn close_unused<S: Socket + Drop>(doors: &mut Vec<Door<S>>, call: u64)
    ensures stay { doors.new.items ≡ filter (is_used_after call) doors.old.items }
    ensures few { vec_len doors.new ≤ vec_len doors.old }
    ensures room { vec_capacity doors.new ≡ vec_capacity doors.old }
{
    doors.retain(|door| door.used > call);
}

// Where the socket of an address stands, which is opened if there is none. None where it can't be opened. It takes no memory.
fn entered<N: Net, S: Socket + Drop>(
    net: &N,
    doors: &mut Vec<Door<S>>,
    places: usize,
    call: u64,
    local: &Address,
) -> Option<usize>
    requires places { 0 < places }
    requires few { vec_len doors.old ≤ places }
    requires room { places ≤ vec_capacity doors.old }
    ensures within { IfSome result (λ place. place < vec_len doors.new) }
    ensures enters { Enters S.did S.stands places call local.now doors.old.items doors.new.items result }
    ensures few { vec_len doors.new ≤ places }
    ensures room { vec_capacity doors.new ≡ vec_capacity doors.old }
{
    if let Some(place) = place_of(doors, local) {
        return Some(place);
    }
    let door = opened(net, local, call)?;
    make_room(doors, places);
    let place = doors.as_slice().len();
    doors.push_reserved(door);
    Some(place)
}

// Sends from an address.
pub(crate) fn send_from<N: Net, S: Socket + Drop>(
    net: &N,
    doors: &mut Vec<Door<S>>,
    places: usize,
    call: u64,
    local: &Address,
    to: &Address,
    bytes: &[u8],
) -> Result<(), WireFault>
    requires places { 0 < places }
    requires few { vec_len doors.old ≤ places }
    requires room { places ≤ vec_capacity doors.old }
    ensures used { UsesIts S.did S.stands (λ door next. Sends S.did S.stands call to.now bytes.now door next result) (IsErr result)
        places call local.now doors.old.items doors.new.items }
    ensures few { vec_len doors.new ≤ places }
    ensures room { vec_capacity doors.new ≡ vec_capacity doors.old }
{
    match entered(net, doors, places, call, local) {
        Some(place) => doors[place].send(call, to, bytes),
        None => Err(WireFault),
    }
}

// Reads at an address.
pub(crate) fn recv_at<N: Net, S: Socket + Drop>(
    net: &N,
    doors: &mut Vec<Door<S>>,
    places: usize,
    call: u64,
    local: &Address,
    buffer: &mut [u8],
) -> Result<Option<(usize, Address)>, WireFault>
    requires places { 0 < places }
    requires few { vec_len doors.old ≤ places }
    requires room { places ≤ vec_capacity doors.old }
    ensures within { IfOk result (λ read. IfSome read (λ datagram. datagram.0 ≤ length buffer.new)) }
    ensures used { UsesIts S.did S.stands (λ door next. Reads S.did S.stands call buffer.new door next result) (IsErr result)
        places call local.now doors.old.items doors.new.items }
    ensures few { vec_len doors.new ≤ places }
    ensures room { vec_capacity doors.new ≡ vec_capacity doors.old }
{
    match entered(net, doors, places, call, local) {
        Some(place) => doors[place].recv(call, buffer),
        None => Err(WireFault),
    }
}
