//! What is kept beside a log of those at the other end: to repair what was lost, and to know where they are.

ghost use Rattle.log_steps.specs.Recovery.{recovering};
ghost use Rattle.learnt_addresses.specs.LearntAddresses.{forgotten, learning, learnt, standing};
ghost use Rattle.std.specs.Prelude.{◌≡◌};

use driver_core::{Address, Settings};
use learnt_addresses::{Learning, LearntAddresses};
use log_traffic::Receiver;
use retransmit_gate::Gate;
use std::marker::Model;

/// What was sent again of a publication's log, the addresses that it has learnt, and what was reported to the publisher of an
/// image. Each log has all of it, so that it need not be said which kind it is of.
#[derive(Drop)]
pub(crate) struct Recovery {
    pub(crate) gate: Gate,
    pub(crate) receiver: Receiver,
    pub(crate) learnt: LearntAddresses,
}

impl Model for Recovery {
    ghost use Rattle.log_steps.specs.Recovery.{Recovering};

    ghost Value = { Recovering };

    ghost view = { λ recovery. record { gate = recovery.gate; receiver = recovery.receiver; learnt = recovery.learnt } };
}

impl Recovery {
    /// A status message came from that address at the moment `now`: the address is learnt, or heard of again.
    pub(crate) fn learn(&mut self, now: u64, address: &Address) -> Learning
        ensures answer { result ≡ learning self.old.learnt address.now }
        ensures after { self.new ≡ record self.old { learnt = learnt now address.now self.old.learnt } }
    {
        self.learnt.learn_destination(now, address)
    }

    /// The address is a destination no more.
    pub(crate) fn forget(&mut self, address: &Address)
        ensures { self.new ≡ record self.old { learnt = forgotten address.now self.old.learnt } }
    {
        self.learnt.forget_destination(address);
    }

    /// The learnt addresses of which nothing was heard for longer than the timeout are forgotten.
    #[inline(always)]
    pub(crate) fn expire(&mut self, now: u64, timeout: u64)
        ensures { self.new ≡ record self.old { learnt = standing now timeout self.old.learnt } }
    {
        if !self.learnt.destinations().is_empty() {
            self.learnt.expire_destinations(now, timeout);
        }
    }

    /// Beside a log that opens. It takes no memory.
    pub(crate) fn new(settings: Settings) -> Recovery
        ensures { result ≡ recovering settings }
    {
        Recovery {
            gate: Gate::new(settings.resend_linger),
            receiver: Receiver::new(
                settings.status_interval,
                settings.nak_delay,
                settings.nak_repeat,
            ),
            learnt: LearntAddresses::new(),
        }
    }
}
