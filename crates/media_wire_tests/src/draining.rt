ghost use Rattle.media_wire.specs.Events.{Event};
ghost use Rattle.std.specs.Prelude.{◌≤◌, ◌++◌, List, length};
ghost use Rattle.media_wire_tests.specs.Draining.{Drains};

use channel_uri::Address;
use media_wire::Wire;

/// Reads at an address until none is there or a read fails, at most so many datagrams. How many were read.
pub fn drain<W: Wire>(wire: &mut W, local: &Address, most: u64, buffer: &mut [u8]) -> u64
    requires { 65507 ≤ length buffer.old }
    ensures { (events : List Event) → W.went wire.old events
        → (more : List Event) × W.went wire.new (events ++ more) × Drains local.now most result more }
{
    for count in 0..most {
        match wire.recv(local, buffer) {
            Ok(Some(_)) => {}
            Ok(None) => return count,
            Err(_) => return count,
        }
    }
    most
}
