//! What a client has of the driver, and gives back.

use decision_cache::Cache;
use media_agents::{CommandSender, DriverNaming, Mail};
use published_registry::Pass;
use rtrb::Consumer;
use std::alloc::Global;
use std::marker::Model;

/// What a client has of the driver for as long as it is out.
#[derive(Drop)]
pub(crate) struct Seat<N: DriverNaming> {
    pub(crate) pass: Pass,
    pub(crate) queue: CommandSender,
    pub(crate) mails: Consumer<Mail<N>, Global>,
    /// Verdicts that the policy gave lately.
    pub(crate) cache: Cache,
}

impl<N: DriverNaming> Model for Seat<N> {
    ghost use Rattle.driver_core.specs.Cached.{AreCached};
    ghost use Rattle.media_driver.specs.Clients.{Seated};
    ghost use Rattle.published_registry.specs.Histories.{registry_of};
    ghost use Rattle.std.specs.Prelude.{◌≡◌};

    ghost Value = { Seated };

    ghost view = { λ seat. record { known = seat.pass; commands = seat.queue } };

    ghost invariant = { λ seat. (seat.pass.book ≡ N.book) × AreCached (registry_of seat.pass) seat.cache };
}
