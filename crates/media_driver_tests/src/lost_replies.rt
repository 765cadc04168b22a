// Replies that find their client's ring full.
use crate::asking::{Outcome, TRIES, next_mail};
use crate::clients::{attached, both};
use media_driver::{Client, Clock, Driver, DriverNaming, PushFault};
use std::alloc::Global;
use std::sync::Wait;
use std::thread::{self, Threads};

/// Takes the mail of a client until none is left.
fn takes_all<N: DriverNaming, C: Clock>(client: &mut Client<N, C>) -> Outcome {
    for _ in 0..1_000 {
        if client.next_mail().is_none() {
            return Ok(());
        }
    }
    Err("there is no end of mail")
}

/// Asks that the counter 0, which does not exist, go: again while the client's share of the queue is used up.
fn asks_once<N: DriverNaming, C: Clock, R: Wait>(rt: &R, client: &mut Client<N, C>) -> Outcome {
    for _ in 0..TRIES {
        match client.remove_counter(rt, 0) {
            Ok(_) => return Ok(()),
            Err(PushFault::QueueFull) => thread::yield_now(),
            Err(PushFault::NoMemory) => return Err("no memory"),
        }
    }
    Err("a command does not reach the driver")
}

/// Asks it that often.
fn asks<N: DriverNaming, C: Clock, R: Wait>(
    rt: &R,
    client: &mut Client<N, C>,
    times: u32,
) -> Outcome {
    for _ in 0..times {
        asks_once(rt, client)?;
    }
    Ok(())
}

/// How many mails are there, of which each says that none was lost.
fn kept<N: DriverNaming, C: Clock>(client: &mut Client<N, C>) -> Result<u32, &'static str> {
    for count in 0..1_000 {
        match client.next_mail() {
            Some(mail) if mail.lost() == 0 => {}
            Some(_) => return Err("a mail says that others were lost"),
            None => return Ok(count),
        }
    }
    Err("there is no end of mail")
}

/// How many mails were lost before the answer to the next command.
fn lost_before<N: DriverNaming, C: Clock, R: Wait>(
    rt: &R,
    client: &mut Client<N, C>,
) -> Result<u64, &'static str> {
    asks(rt, client, 1)?;
    let mail = next_mail(client)?;
    Ok(mail.lost())
}

/// 300 replies go to a ring of 256 that nobody reads: the conductor has answered them once the other client has its mail.
fn fills<N: DriverNaming, C: Clock, R: Wait>(
    rt: &R,
    one: &mut Client<N, C>,
    other: &mut Client<N, C>,
) -> Outcome {
    takes_all(one)?;
    takes_all(other)?;
    asks(rt, one, 300)?;
    asks(rt, other, 1)?;
    drop(next_mail(other)?);
    Ok(())
}

/// 256 of them came, and the mails of the next two commands say that 44 were lost.
fn counts_them<N: DriverNaming, C: Clock, R: Wait>(rt: &R, client: &mut Client<N, C>) -> Outcome {
    if kept(client)? != 256 {
        return Err("not 256 mails are there");
    }
    for _ in 0..2 {
        if lost_before(rt, client)? != 44 {
            return Err("not 44 mails were lost");
        }
    }
    Ok(())
}

/// 300 replies go to a ring of 256. The clients come back.
pub(crate) fn replies_are_lost<
    N: DriverNaming + Send + Sync + 'static,
    R: Threads + Wait + Copy + Drop + Send + Sync + 'static,
    C: Clock + Copy + Drop + Send + 'static,
>(rt: R, alloc: Global, driver: &mut Driver<N, R, C>) -> Result<Vec<Client<N, C>>, &'static str> {
    let mut one = attached(driver, 1)?;
    let mut other = attached(driver, 1)?;
    fills(&rt, &mut one, &mut other)?;
    counts_them(&rt, &mut one)?;
    both(alloc, one, other)
}
