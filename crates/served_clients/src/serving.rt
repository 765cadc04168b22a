//! A connection whose client is a client of the driver.

ghost use Rattle.served_clients.specs.Acts.{IsAct, sitting};
ghost use Rattle.service_streams.specs.Acting.{Acts};
ghost use Rattle.std.specs.Prelude.{◌≡◌};

use crate::keeper::Keeper;
use crate::served::Served;
use driver_service::{Connection, Pauses};
use media_driver::{Clock, DriverNaming};
use service_streams::{Ended, Greeting, LongRecords, talk};
use std::alloc::Global;
use std::io::{Read, Write};
use std::sync::Wait;

/// Greets, and answers the records of a stream until it ends. Whatever comes, each record does what one client of the driver, always
/// the same, may do, and nothing else; and what it hands on as commands was admitted by what its principal's clients share.
pub fn serve<N, C, R, K, Q, P, T>(
    rt: &Q,
    alloc: Global,
    stream: &mut T,
    pauses: &mut P,
    connection: &mut Connection<Served<N, C, R, K>>,
    greeting: Greeting,
) -> Ended
where
    N: DriverNaming,
    C: Clock,
    R: Wait + Drop,
    K: Keeper + Drop,
    Q: std::time::Clock + Wait,
    P: Pauses + LongRecords,
    T: Read + Write,
    ensures acts { Acts (IsAct N.home K.admits K.hears) (sitting connection.old.seat.client connection.old.seat.kept.items, connection.old.seat.habits.keeper) (sitting connection.new.seat.client connection.new.seat.kept.items, connection.new.seat.habits.keeper) }
    ensures one { connection.new.seat.client.number ≡ connection.old.seat.client.number }
{
    talk(rt, alloc, stream, pauses, connection, greeting)
}
