// Each call once, where all is allowed and there is memory.
use crate::asking::{Outcome, counted, next_reply, published, source_of, subscribed};
use crate::clients::{alone, attached};
use crate::opening::at;
use crate::positions::{only_of_its_own, over_memory};
use driver_core::{Listed, Reply, Shown};
use media_driver::{AttachFault, Client, Clock, Driver, DriverNaming, Elicitation, PushFault};
use policy_text::Names;
use std::alloc::Global;
use std::sync::Wait;
use std::thread::Threads;

const IPC: &str = "aeron:ipc";

/// All is allowed.
const POLICY: &str = "version = 1\ndefault = \"allow\"\n";

/// How many notices a client gets at most before an answer.
const NOTICES: u32 = 10;

/// Whether a command was pushed, and a reply says that it is done, perhaps after notices.
fn done<N: DriverNaming, C: Clock>(
    client: &mut Client<N, C>,
    pushed: Result<u64, PushFault>,
) -> Outcome {
    let Ok(asked) = pushed else {
        return Err("a command does not reach the driver");
    };
    for _ in 0..NOTICES {
        match next_reply(client)? {
            Reply::OperationSuccess { correlation } if correlation == asked => return Ok(()),
            Reply::AvailableImage { .. }
            | Reply::UnavailableImage { .. }
            | Reply::UnavailableCounter { .. } => {}
            _ => return Err("a command is refused"),
        }
    }
    Err("a command is not done")
}

/// A message goes from the client to itself.
fn one_message<N: DriverNaming, C: Clock, R: Wait>(rt: &R, client: &mut Client<N, C>) -> Outcome {
    let subscription = subscribed(rt, client, IPC, 10)?;
    let registration = published(rt, client, IPC, 10)?;
    let source = source_of(client, subscription)?;
    if client.offer(rt, registration, b"a") != Ok(64) {
        return Err("the offer is refused");
    }
    over_memory(rt, client, registration, subscription, source, 0)?;
    only_of_its_own(rt, client, registration, subscription, source)?;
    let Ok(fragments) = client.poll(rt, subscription, source, 1) else {
        return Err("the poll is refused");
    };
    if fragments.len() != 1 {
        return Err("the message did not come");
    }
    over_memory(rt, client, registration, subscription, source, 64)?;
    let pushed = client.remove_subscription(rt, subscription);
    done(client, pushed)?;
    let pushed = client.remove_publication(rt, registration);
    done(client, pushed)
}

/// A publication of the client's own, whose destination comes and goes.
fn destinations<N: DriverNaming, C: Clock, R: Wait>(rt: &R, client: &mut Client<N, C>) -> Outcome {
    let channel = "aeron:udp?control-mode=manual";
    let Ok(asked) = client.add_exclusive_publication(rt, channel, 12) else {
        return Err("the publication is not asked for");
    };
    let registration = match next_reply(client)? {
        Reply::ExclusivePublicationReady {
            correlation,
            registration,
            ..
        } if correlation == asked => registration,
        _ => return Err("the exclusive publication is not ready"),
    };
    let destination = "aeron:udp?endpoint=127.0.0.1:40124";
    let pushed = client.add_destination(rt, registration, destination);
    done(client, pushed)?;
    let pushed = client.remove_destination(rt, registration, destination);
    done(client, pushed)
}

/// Whether the client is shown this counter, with this value.
fn is_shown<N: DriverNaming, C: Clock>(
    client: &mut Client<N, C>,
    number: u64,
    value: i64,
) -> Outcome {
    if client.counter_value(number) != Ok(Shown::Value(value)) {
        return Err("the counter's value is not shown");
    }
    let Ok(Listed::Counters(rows)) = client.list() else {
        return Err("no counters are listed");
    };
    for row in rows.as_slice() {
        if row.number == number && row.value == value && row.label.as_str() == "ab" {
            return Ok(());
        }
    }
    Err("the counter is not listed")
}

/// A counter comes, is set and goes.
fn counter<N: DriverNaming, C: Clock, R: Wait>(rt: &R, client: &mut Client<N, C>) -> Outcome {
    let number = counted(rt, client, 100)?;
    is_shown(client, number, 0)?;
    let pushed = client.set_counter(rt, number, -5);
    done(client, pushed)?;
    is_shown(client, number, -5)?;
    let pushed = client.remove_counter(rt, number);
    done(client, pushed)
}

/// A policy is put in force, the client knows of it, and says that it is there still.
fn reloaded<
    N: DriverNaming + Send + Sync + 'static,
    R: Threads + Wait + Copy + Drop + Send + Sync + 'static,
    C: Clock + Copy + Drop + Send + 'static,
>(rt: R, alloc: Global, driver: &mut Driver<N, R, C>, client: &mut Client<N, C>) -> Outcome {
    let Ok(receipt) = driver.reload(&Names::new(alloc), POLICY) else {
        return Err("the policy is not put in force");
    };
    client.learn(&receipt);
    if client.keepalive(&rt).is_err() {
        return Err("the keepalive does not reach the driver");
    }
    Ok(())
}

/// The receiver is handed an elicitation, and is not asked for it again.
fn elicited<N: DriverNaming, R: Threads + Wait, C: Clock>(driver: &mut Driver<N, R, C>) -> Outcome {
    let elicitation = Elicitation {
        endpoint: at(40_123),
        control: at(40_300),
        session_id: 7,
        stream_id: 10,
    };
    for _ in 0..2 {
        if driver.elicit(elicitation).is_err() {
            return Err("the elicitation is refused");
        }
    }
    Ok(())
}

/// A client goes, and another one ends the driver, which takes none any more.
fn at_the_end<
    N: DriverNaming + Send + Sync + 'static,
    R: Threads + Wait + Copy + Drop + Send + Sync + 'static,
    C: Clock + Copy + Drop + Send + 'static,
>(rt: R, driver: &mut Driver<N, R, C>, client: &mut Client<N, C>) -> Outcome {
    let mut last = attached(driver, 2)?;
    let pushed = client.close(&rt);
    done(client, pushed)?;
    let pushed = last.terminate(&rt);
    let ended = done(&mut last, pushed);
    driver.take_back(last);
    ended?;
    match driver.client(1) {
        Err(AttachFault::Stopped) => Ok(()),
        _ => Err("a driver that was ended takes a client"),
    }
}

/// The calls of one client, and those of the driver.
fn calls_of<
    N: DriverNaming + Send + Sync + 'static,
    R: Threads + Wait + Copy + Drop + Send + Sync + 'static,
    C: Clock + Copy + Drop + Send + 'static,
>(rt: R, alloc: Global, driver: &mut Driver<N, R, C>, client: &mut Client<N, C>) -> Outcome {
    one_message(&rt, client)?;
    destinations(&rt, client)?;
    counter(&rt, client)?;
    reloaded(rt, alloc, driver, client)?;
    elicited(driver)?;
    at_the_end(rt, driver, client)
}

/// Makes each call. The client comes back.
pub(crate) fn each_call<
    N: DriverNaming + Send + Sync + 'static,
    R: Threads + Wait + Copy + Drop + Send + Sync + 'static,
    C: Clock + Copy + Drop + Send + 'static,
>(rt: R, alloc: Global, driver: &mut Driver<N, R, C>) -> Result<Vec<Client<N, C>>, &'static str> {
    let mut client = attached(driver, 1)?;
    calls_of(rt, alloc, driver, &mut client)?;
    alone(alloc, client)
}
