//! How a client behaves, as far as its connection heeds it.

ghost use Rattle.reading_progress.specs.Pairs.{pair_at};
ghost use Rattle.reading_progress.specs.Watches.{after_all, is_left_behind, new_watch};
ghost use Rattle.served_clients.specs.Denying.{IsTold};
ghost use Rattle.served_clients.specs.Given.{is_subscribing};
ghost use Rattle.served_clients.specs.Watching.{IsNoted, after_handing, after_looking, gone_after, is_there};
ghost use Rattle.std.specs.Prelude.{◌≡◌};

use crate::given::Given;
use crate::keeper::Keeper;
use driver_core::Reply;
use driver_service::{Reason, Refusal};
use media_driver::{ClientReply, DriverNaming, ImagePositions, Mail, PositionFault};
use policy_core::Decision;
use reading_progress::{Pair, Watch};
use std::alloc::Global;

/// How a client behaves. Moments are those of its keeper.
#[derive(Drop)]
pub(crate) struct Habits<K: Keeper + Drop> {
    keeper: K,
    /// How long the driver lets it be silent, in nanoseconds.
    liveness: u64,
    /// When it says to the driver again that it is there.
    due: u64,
    /// How it goes on with what it has to read.
    watch: Watch,
    gone: Option<Reason>,
    /// Whether it ever asked that the driver end.
    terminates: bool,
}

impl<K: Keeper + Drop> Habits<K> {
    pub(crate) fn new(alloc: Global, keeper: K, liveness: u64, unread: Option<u64>) -> Habits<K>
        ensures keeper { result.keeper ≡ keeper }
        ensures watch { result.watch ≡ new_watch unread }
    {
        Habits {
            keeper,
            liveness,
            due: 0,
            watch: Watch::new(alloc, unread),
            gone: None,
            terminates: false,
        }
    }

    /// What it shares, and whether it ever asked that the driver end.
    pub(crate) fn into_parts(self) -> (K, bool)
        ensures { result.0 ≡ self.keeper }
    {
        let Habits {
            keeper,
            liveness: _,
            due: _,
            watch: _,
            gone: _,
            terminates,
        } = self;
        (keeper, terminates)
    }

    pub(crate) fn gone(&self) -> Option<Reason>
        ensures { result ≡ self.now.gone }
    {
        self.gone
    }

    /// Now, in nanoseconds.
    pub(crate) fn now(&self) -> u64 {
        self.keeper.now()
    }

    /// A request is answered next, once others had their part.
    pub(crate) fn give_way(&mut self)
        ensures watch { self.new.watch ≡ self.old.watch }
        ensures gone { self.new.gone ≡ self.old.gone }
    {
        self.keeper.give_way();
    }

    /// The client is heard of. Whether it is to say so to the driver.
    pub(crate) fn is_due(&self) -> bool {
        self.keeper.now() >= self.due
    }

    /// It said so, or could not.
    pub(crate) fn stayed(&mut self, told: bool)
        ensures { self.new.watch ≡ self.old.watch }
    {
        if told {
            self.due = self.keeper.now().saturating_add(self.liveness / 4);
        }
    }

    /// Whether it is to be looked now how far it has come with what it reads.
    pub(crate) fn is_watched(&self) -> bool {
        self.watch.is_due(self.keeper.now())
    }

    /// What it reads, in that place.
    pub(crate) fn pair(&self, place: usize) -> Option<Pair>
        ensures { result ≡ pair_at place self.now.watch.pairs }
    {
        self.watch.pair(place)
    }

    /// It was looked at that moment how far it has come with that. Whether it reads it still.
    pub(crate) fn seen(
        &mut self,
        now: u64,
        pair: Pair,
        gave: &Result<ImagePositions, PositionFault>,
    ) -> bool
        ensures watch { self.new.watch ≡ after_looking now pair gave.now self.old.watch }
        ensures there { result ≡ is_there gave.now }
        ensures keeper { self.new.keeper ≡ self.old.keeper }
    {
        match gave {
            Ok(shown) => {
                self.watch.seen(
                    pair.subscription,
                    pair.source,
                    now,
                    shown.position,
                    shown.received,
                );
                true
            }
            Err(PositionFault::Closed) => {
                self.watch.ended(pair.subscription, pair.source);
                false
            }
            Err(PositionFault::NoLook) => true,
        }
    }

    /// It was looked at that moment at all that it reads; and as many of its replies are kept as there is room for, or not. Where it
    /// has something to read and does not go on for too long, it is gone.
    pub(crate) fn settle(&mut self, now: u64, is_full: bool)
        ensures watch { self.new.watch ≡ after_all now is_full self.old.watch }
        ensures gone { self.new.gone ≡ gone_after (is_left_behind now self.new.watch) self.old.gone }
        ensures keeper { self.new.keeper ≡ self.old.keeper }
    {
        if self.watch.settle(now, is_full) {
            self.gone = Some(Reason::Unread);
        }
    }

    /// Whether that may go to the driver as a command.
    ///
    /// # Errors
    /// Why not.
    pub(crate) fn admit(&mut self, client: u64, given: &Given) -> Result<(), Reason>
        ensures { K.admits self.old.keeper client given.now result self.new.keeper }
    {
        self.keeper.admit(client, given)
    }

    /// It did not go.
    pub(crate) fn withdrawn(&mut self, client: u64, given: &Given) {
        self.keeper.withdraw(client, given);
    }

    /// It went.
    pub(crate) fn handed(&mut self, given: &Given)
        ensures keeper { self.new.keeper ≡ self.old.keeper }
        ensures watch { self.new.watch ≡ after_handing (is_subscribing given.now) self.old.watch }
    {
        if given.terminates() {
            self.terminates = true;
        }
        if given.subscribes() {
            self.watch.subscribes();
        }
    }

    /// The driver was ended.
    pub(crate) fn stopped(&mut self) {
        self.gone = Some(Reason::Stopped);
    }

    /// By that something was denied to the client, or nothing was.
    pub(crate) fn denied(&mut self, denial: Option<Decision>)
        ensures told { IsTold K.hears self.old.keeper denial self.new.keeper }
        ensures watch { self.new.watch ≡ self.old.watch }
        ensures gone { self.new.gone ≡ self.old.gone }
    {
        if let Some(decision) = denial {
            self.keeper.denied(&decision);
        }
    }

    /// A message went into a log, or none did.
    pub(crate) fn stir(&mut self, any: bool)
        ensures { self.new.watch ≡ self.old.watch }
    {
        if any {
            self.keeper.stir();
        }
    }

    /// A log was polled: whatever was asked for and came of it, that is no word of how far the client has come.
    pub(crate) fn polled(&mut self, told: &Result<u32, Refusal>)
        ensures { self.new.watch ≡ self.old.watch }
    {
        if let Ok(count) = told {
            self.stir(*count > 0);
        }
    }

    /// What a reply says of the client itself.
    fn note(&mut self, reply: &ClientReply)
        ensures { IsNoted reply.now self.old.watch self.new.watch self.new.gone }
    {
        match reply {
            ClientReply::Of(Reply::ClientTimeout { .. }) => self.gone = Some(Reason::WrongClient),
            ClientReply::Of(
                Reply::AvailableImage {
                    source,
                    subscription,
                    ..
                },
            ) => {
                if self.watch.reads(*subscription, *source).is_err() {
                    self.gone = Some(Reason::NoMemory);
                }
            }
            _ => {}
        }
    }

    /// The next reply was taken, or there was none.
    pub(crate) fn noted<N: DriverNaming>(&mut self, mail: &Option<Mail<N>>) {
        if let Some(mail) = mail {
            let reply = mail.reply();
            self.watch.replied(mail.lost());
            self.keeper.note(mail.client(), &reply);
            self.note(&reply);
        }
    }
}
