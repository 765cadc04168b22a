//! Clients come, and are taken back.

ghost use Rattle.audit_ring.specs.Audit.{kept_of};
ghost use Rattle.media_driver.specs.Attaching.{AttachFails, Attaches};
ghost use Rattle.media_driver.specs.declared.faults.AttachFault.TheVariants.{Full as IsFull};
ghost use mathlib.Core.List.{IsPrefix};
ghost use Rattle.std.specs.Prelude.{◌≡◌, ◌+◌, ◌-◌, ◌≤◌, ◌<◌, [], false, IfErr, IfOk, IsErrOf};

use crate::asking::ask;
use crate::client::Client;
use crate::driver::Driver;
use crate::faults::AttachFault;
use crate::hints::Hints;
use crate::pacing::Pace;
use crate::seat::Seat;
use crate::seats::FreeSeat;
use audit_ring::AuditOf;
use driver_core::{Event, Response};
use media_agents::{Clock, Dated, DriverNaming, Question, Slots};
use published_registry::Receipt;
use std::alloc::AllocError;
use std::sync::{Arc, Wait};
use std::thread::Threads;

/// What a client shares with its driver, and the memory for its audit.
#[derive(Drop)]
struct Handles<N: DriverNaming> {
    slots: Arc<Slots<N>>,
    hints: Arc<Hints>,
    /// Where nothing was decided yet.
    audit: AuditOf<Dated>,
}

impl<N: DriverNaming, R: Threads + Wait, C: Clock + Copy> Driver<N, R, C> {
    fn handles(&self) -> Result<Handles<N>, AllocError>
        ensures { IfOk result (λ handles. handles.audit ≡ kept_of []) }
    {
        Ok(Handles {
            slots: Arc::try_clone(&self.kept.common.slots)?,
            hints: self.kept.seats.hints()?,
            audit: AuditOf::new(self.alloc)?,
        })
    }

    /// A client that attached gets a seat, and has seen its receipt.
    fn admit(&mut self, handles: Handles<N>, number: u64, receipt: &Receipt) -> Client<N, C>
        requires room { self.old.out < 64 }
        requires ours { receipt.now.book ≡ N.book }
        requires audit { handles.audit ≡ kept_of [] }
        ensures client { (result.number ≡ number) × (result.correlation ≡ 0) × (result.counted ≡ 0) × (result.ended ≡ false) }
        ensures audited { result.audited ≡ kept_of [] }
        ensures learned { IsPrefix receipt.now.entries result.known.entries }
        ensures out { self.new ≡ record self.old { out = self.old.out + 1 } }
    {
        let FreeSeat { place, seat } = self.kept.seats.take();
        let counted = self.kept.ledger.counted.split(0);
        let part = self.kept.ledger.clients.split_off(1, 0);
        self.out += 1;
        let Handles {
            slots,
            hints,
            audit,
        } = handles;
        let Seat {
            pass,
            queue,
            mails,
            cache,
        } = seat;
        let mut client = Client {
            number,
            place,
            correlation: 0,
            moment: 0,
            pass: Some(pass),
            queue,
            mails,
            cache,
            counted,
            part,
            ended: None,
            audit,
            slots,
            clock: self.clock,
            alloc: self.alloc,
            offered: None,
            polled: None,
            said: None,
            pace: Pace::new(),
            hints,
        };
        client.learn(receipt);
        client
    }

    /// A client attaches that acts for this principal. Its number is the one under which the entry of its attach has it, and it
    /// has seen the registry after that entry. Nothing was decided for it yet. It waits until the queue takes the event, and the
    /// conductor answers it.
    ///
    /// # Errors
    /// `Full` where 64 clients are out, and then nothing is asked; the others as the conductor answers.
    pub fn client(&mut self, principal: u32) -> Result<Client<N, C>, AttachFault>
        ensures attached { IfOk result (λ client. (client.correlation ≡ 0) × (client.counted ≡ 0) × (client.ended ≡ false)) }
        ensures audited { IfOk result (λ client. client.audited ≡ kept_of []) }
        ensures done { IfOk result (λ client. Attaches principal client.number client.known self.old self.new) }
        ensures full { 64 ≤ self.old.out → IsErrOf result IsFull }
        ensures err { IfErr result (λ fault. AttachFails principal fault self.old self.new) }
    {
        if self.out >= 64 {
            return Err(AttachFault::Full);
        }
        let Ok(handles) = self.handles() else {
            return Err(AttachFault::NoMemory);
        };
        let ring = self.kept.seats.next();
        let now = self.clock.now();
        let answered = ask(
            &self.rt,
            &self.kept.common.desk,
            &mut self.kept.queue,
            ring,
            Question::Attach { now, principal },
            Event::Attach { now, principal },
        );
        match answered.response() {
            Some(Response::Attached(number)) => {
                Ok(self.admit(handles, number, answered.receipt()))
            }
            Some(Response::Stopped) => Err(AttachFault::Stopped),
            Some(_) => Err(AttachFault::Full),
            None => Err(AttachFault::NoMemory),
        }
    }

    /// Takes a client back: its seat is free again, and what it counted stays counted. The client is attached until it closes
    /// or is not heard of for too long.
    pub fn take_back(&mut self, client: Client<N, C>)
        ensures { self.new ≡ record self.old { out = self.old.out - 1; counted = self.old.counted + client.counted } }
    {
        let Client {
            place,
            pass,
            queue,
            mails,
            cache,
            counted,
            part,
            ..
        } = client;
        self.kept.ledger.take_back(counted, part);
        self.out -= 1;
        let Some(pass) = pass else { unreachable!() };
        let seat = Seat {
            pass,
            queue,
            mails,
            cache,
        };
        self.kept.seats.give(place, seat);
    }
}
