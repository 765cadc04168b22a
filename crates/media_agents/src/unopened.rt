//! A log that opens in a slot, or comes back.

ghost use Rattle.log_slots.specs.Slots.{IsMadeFor};
ghost use Rattle.log_traffic.specs.Held.{made_held, messages_held, place_held};
ghost use Rattle.media_agents.specs.Asking.{IsHold, Opens};
ghost use Rattle.std.specs.Prelude.{◌≡◌, ◌≤◌, length};

use crate::slots::{LogAt, Slots};
use log_slots::{Held, Naming};
use log_steps::OpenLog;
use std::marker::Model;

/// A log that did not open, and comes back: its slot did not take it, or there is no such slot.
#[derive(Drop)]
pub struct Unopened {
    log: OpenLog,
}

impl Model for Unopened {
    ghost use Rattle.log_steps.specs.Held.{HeldLog};

    ghost Value = { HeldLog };

    ghost view = { λ unopened. unopened.log };
}

impl Unopened {
    /// There is no such slot for a publication.
    pub(crate) fn no_publication<N: Naming>(slots: &Slots<N>, at: LogAt, log: OpenLog) -> Unopened
        requires { length slots.now.publications.items ≤ at.slot }
        ensures { result ≡ log }
    {
        prove!(slots.publications.len() <= at.slot as usize);
        Unopened { log }
    }

    /// There is no such slot for an image.
    pub(crate) fn no_image<N: Naming>(slots: &Slots<N>, at: LogAt, log: OpenLog) -> Unopened
        requires { length slots.now.images.items ≤ at.slot }
        ensures { result ≡ log }
    {
        prove!(slots.images.len() <= at.slot as usize);
        Unopened { log }
    }

    /// The log.
    pub(crate) fn log(self) -> OpenLog
        ensures { result ≡ self }
    {
        let Unopened { log } = self;
        log
    }
}

/// The log opens here.
pub(crate) fn open_in<N: Naming, H: Held<N>>(
    slot: &mut H,
    log: OpenLog,
    session: i32,
    stream: i32,
) -> Result<(), Unopened>
    requires home { (place_held log.log).home ≡ N.home }
    requires made { IsMadeFor session stream (made_held log.log) }
    requires fresh { messages_held log.log ≡ 0 }
    ensures { Opens (IsHold N.home) session stream log result }
{
    slot.holds();
    let opened = slot.open(log, session, stream);
    slot.holds();
    match opened {
        Ok(()) => Ok(()),
        Err(log) => Err(Unopened { log }),
    }
}
