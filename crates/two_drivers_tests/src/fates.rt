//! A thousand steps of two worlds: what is sent is lost, comes twice, late and in another order, and is asked for again; what is
//! polled is what was offered, without a gap.

use crate::deeds::{Deed, Doing, PUBLISH, STATUS, SUBSCRIBE, step_of};
use crate::opening::fresh_worlds;
use byte_strings::Items;
use driver_world::{Answer, Fragment, FragmentCopies};
use std::alloc::{AllocError, Global};
use two_drivers::PairStep;

/// How many messages are offered in a block.
const BLOCK: u16 = 8;

/// How many blocks there are.
const BLOCKS: u16 = 34;

/// What becomes of the datagrams of a block: which of them come, in this order, and which never do and are asked for.
type Fates = (&'static [u64], &'static [u16]);

/// Lost, twice, swapped, late.
static FATES: [Fates; 4] = [
    (&[0, 1, 1, 3, 2, 6, 5, 5], &[4, 7]),
    (&[7, 6, 5, 4, 3, 2, 1, 0], &[]),
    (&[2, 2, 7, 7, 3], &[0, 1, 4, 5, 6]),
    (&[0, 2, 4, 6, 1, 3, 5, 5, 5, 0], &[7]),
];

/// Steps, and how many datagrams the first sends by them.
#[derive(Drop)]
struct Plan {
    alloc: Global,
    steps: Vec<PairStep>,
    sent: u64,
}

impl Plan {
    fn new(alloc: Global) -> Plan {
        Plan {
            alloc,
            steps: Vec::new(alloc),
            sent: 0,
        }
    }

    fn push(&mut self, now: u64, doing: Doing) -> Result<(), AllocError> {
        let step = step_of(self.alloc, now, doing)?;
        self.steps.push(step)?;
        Ok(())
    }

    /// A step by which the first sends one datagram.
    fn push_sending(&mut self, now: u64, deed: Deed) -> Result<(), AllocError> {
        self.push(now, Doing::A(deed))?;
        self.sent = self.sent.wrapping_add(1);
        Ok(())
    }

    /// Both have a client, the first a publication, and the second a subscription.
    fn attach(&mut self) -> Result<(), AllocError> {
        self.push(0, Doing::A(Deed::Attach))?;
        self.push(0, Doing::A(PUBLISH))?;
        self.push(0, Doing::B(Deed::Attach))?;
        self.push(0, Doing::B(SUBSCRIBE))
    }

    /// The subscription has an image, and the publication may send.
    fn open(&mut self) -> Result<(), AllocError> {
        self.attach()?;
        self.push_sending(0, Deed::Send)?;
        self.push(0, Doing::A(STATUS))?;
        self.push(0, Doing::Deliver(0))
    }

    /// Messages of these numbers are offered, and each is sent alone.
    fn offer(&mut self, now: u64, first: u16) -> Result<(), AllocError> {
        for number in 0..BLOCK {
            let number = first.wrapping_add(number);
            self.push(now, Doing::A(Deed::Number(number)))?;
            self.push_sending(now, Deed::Send)?;
        }
        Ok(())
    }

    /// These come, of the datagrams from that number on.
    fn deliver(&mut self, now: u64, from: u64, which: &[u64]) -> Result<(), AllocError> {
        for &number in which {
            self.push(now, Doing::Deliver(from.wrapping_add(number)))?;
        }
        Ok(())
    }

    /// These are asked for, and come.
    fn repair(&mut self, now: u64, first: u16, lost: &[u16]) -> Result<(), AllocError> {
        for &number in lost {
            let again = self.sent;
            self.push_sending(now, Deed::Nak(first.wrapping_add(number)))?;
            self.push(now, Doing::Deliver(again))?;
        }
        Ok(())
    }

    /// A block of messages: those that come are polled, and then those that had to be asked for. The SETUP comes late too.
    fn block(&mut self, now: u64, first: u16, fates: &Fates) -> Result<(), AllocError> {
        let from = self.sent;
        self.offer(now, first)?;
        self.deliver(now, from, fates.0)?;
        self.push(now, Doing::B(Deed::Poll))?;
        self.push(now, Doing::Deliver(0))?;
        self.repair(now, first, fates.1)?;
        self.push(now, Doing::B(Deed::Poll))
    }

    /// All blocks, each 70 ms after the one before.
    fn fill(&mut self) -> Result<(), AllocError> {
        self.open()?;
        for number in 0..BLOCKS {
            let fates = FATES[usize::from(number % 4)];
            let now = u64::from(number) * 70_000_000;
            self.block(now, number.wrapping_mul(BLOCK), &fates)?;
        }
        Ok(())
    }
}

fn steps_of(alloc: Global) -> Result<Vec<PairStep>, AllocError> {
    let mut plan = Plan::new(alloc);
    let filled = plan.fill();
    let Plan { steps, .. } = plan;
    match filled {
        Ok(()) => Ok(steps),
        Err(refused) => {
            drop(steps);
            Err(refused)
        }
    }
}

/// Whether this is the frame of that number: a whole message, in 64 bytes.
fn is_frame(fragment: &Fragment<'_>, number: u16) -> bool {
    (fragment.payload == number.to_le_bytes().as_slice())
        & (fragment.flags.bits == 0xc0)
        & (fragment.position == u64::from(number) * 64 + 64)
}

/// The number after these, if they are the numbers from that one on, in their order.
fn go_on(copies: &FragmentCopies, from: u16) -> Option<u16> {
    let mut next = from;
    for fragment in copies.iter() {
        if !is_frame(&fragment, next) {
            return None;
        }
        next = next.wrapping_add(1);
    }
    Some(next)
}

/// How many numbers are polled, if they are those from 0 on in their order, and each step is one.
fn polled(answers: &[Answer]) -> Option<u16> {
    let mut next = 0u16;
    for answer in answers {
        match answer {
            Answer::Polled(copies) => next = go_on(copies, next)?,
            Answer::BadStep => return None,
            _ => {}
        }
    }
    Some(next)
}

fn answers_to(alloc: Global, steps: &[PairStep]) -> Result<Items<Answer>, AllocError> {
    fresh_worlds(alloc)?.run(alloc, steps)
}

/// How many steps there are, and how many numbers are polled.
fn run(alloc: Global) -> Result<(usize, Option<u16>), AllocError> {
    let steps = steps_of(alloc)?;
    let count = steps.len();
    let answers = answers_to(alloc, steps.as_slice());
    drop(steps);
    let answers = answers?;
    let polled = polled(answers.as_slice());
    drop(answers);
    Ok((count, polled))
}

#[test]
fn polls_go_on_whatever_is_lost(rt: HostRuntime) {
    assert_eq!(rt; run(rt.alloc()), Ok((1049, Some(272))));
}
