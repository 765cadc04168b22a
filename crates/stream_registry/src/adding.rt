ghost use Rattle.stream_registry.specs.Adding.{added, adding_of, has_room_for_log, has_room_for_registration, has_room_for_subscription, joining_of, log_of, made, making_of, registered, session_of, subscribed};
ghost use Rattle.stream_registry.specs.Lingering.{is_used};
ghost use Rattle.std.specs.Prelude.{◌≡◌, Ok, true};

use crate::fault::StreamFault;
use crate::joining::{contradicts, joined_at};
use crate::row::{LogRow, Origin, Registration};
use crate::sessions::{after, free_session, is_stated_again};
use crate::slots::free_slot;
use crate::streams::Streams;
use crate::wanted::{Adding, Wanted};
use crate::wish::Wish;
use channel_uri::Channel;
use rows::Form;

/// How many publications there are at most.
const LOGS: usize = 256;

/// How many registrations with publications there are at most.
const REGISTRATIONS: usize = 1024;

/// How many subscriptions there are at most.
const SUBSCRIPTIONS: usize = 512;

/// A registration that is to be noted.
#[derive(Clone, Copy)]
struct NewRegistration<'a> {
    number: u64,
    client: u64,
    channel: &'a Channel,
    source: u64,
}

impl Form<Registration> for NewRegistration<'_> {
    ghost formed = { λ form. record { number = form.number; client = form.client; channel = form.channel.now; source = form.source } };

    fn make(&self) -> Registration {
        Registration {
            number: self.number,
            client: self.client,
            channel: self.channel.copy(),
            source: self.source,
        }
    }

    fn write(&self, row: &mut Registration) {
        row.number = self.number;
        row.client = self.client;
        row.channel.set_from(self.channel);
        row.source = self.source;
    }
}

impl Streams {
    fn has_room_for_log(&self) -> bool
        ensures { result ≡ has_room_for_log self.now }
    {
        self.sources.publications() < LOGS
    }

    fn has_room_for_registration(&self) -> bool
        ensures { result ≡ has_room_for_registration self.now }
    {
        self.registrations.len() < REGISTRATIONS
    }

    /// Whether there are fewer than 512 subscriptions.
    pub fn has_room_for_subscription(&self) -> bool
        ensures { result ≡ has_room_for_subscription self.now }
    {
        self.subscriptions.len() < SUBSCRIPTIONS
    }

    /// A channel that would join this publication.
    #[tactic(auto, unfolding(crate::specs::Adding::joining_of))]
    fn joining(&self, channel: &Channel, log: &LogRow) -> Result<Adding, StreamFault>
        ensures { result ≡ joining_of self.now channel.now log.now }
    {
        if contradicts(self.defaults, channel, log) {
            return Err(StreamFault::Conflict);
        }
        if !self.has_room_for_registration() {
            return Err(StreamFault::Full);
        }
        Ok(Adding::Join {
            source: log.number,
            session: log.session,
        })
    }

    /// The session of a new log.
    fn session(&self, channel: &Channel) -> i32
        ensures { result ≡ session_of self.now channel.now }
    {
        match channel.session_id() {
            Some(stated) => stated,
            None => free_session(self.sources.as_slice(), self.next_session),
        }
    }

    /// A log that would be made.
    #[tactic(auto, unfolding(crate::specs::Adding::making_of))]
    fn making(&self, wanted: &Wanted) -> Result<Adding, StreamFault>
        ensures { result ≡ making_of self.now wanted.now }
    {
        let channel = &wanted.channel;
        let logs = self.sources.as_slice();
        if is_stated_again(logs, channel.media(), wanted.stream, channel.session_id()) {
            return Err(StreamFault::Conflict);
        }
        if !(self.has_room_for_registration() && self.has_room_for_log()) {
            return Err(StreamFault::Full);
        }
        Ok(Adding::Make {
            session: self.session(channel),
        })
    }

    /// What would become of a publication that is asked for. It takes no memory.
    ///
    /// # Errors
    /// [`StreamFault::Conflict`] where the publication that it would join has another log or session than its channel
    /// says, or where it would make a log and states the session of another one of its medium and stream.
    /// [`StreamFault::Full`] where 1,024 registrations are there, or 256 publications and one would be made.
    #[tactic(auto, unfolding(crate::specs::Adding::adding_of))]
    pub fn adding(&self, wanted: &Wanted) -> Result<Adding, StreamFault>
        ensures { result ≡ adding_of self.now wanted.now }
    {
        if wanted.exclusive {
            return self.making(wanted);
        }
        let logs = self.sources.as_slice();
        match joined_at(logs, &wanted.channel, wanted.stream) {
            Some(log) => self.joining(&wanted.channel, log),
            None => self.making(wanted),
        }
    }

    /// The row of a log that would be made under this number, at this place, with this session.
    pub fn log(&self, number: u64, wanted: &Wanted, place: u64, session: i32) -> LogRow
        ensures { result ≡ log_of self.now number wanted.now place session }
    {
        LogRow {
            number,
            channel: wanted.channel.copy(),
            stream: wanted.stream,
            session,
            place,
            slot: free_slot(self.sources.as_slice(), true),
            measures: self.defaults.with_those_of(&wanted.channel),
            origin: Origin::Published {
                exclusive: wanted.exclusive,
                lingering_since: None,
            },
        }
    }

    /// Makes a log, with which a client is registered already.
    fn make(&mut self, number: u64, wanted: &Wanted, place: u64, session: i32)
        requires room { has_room_for_log self.old ≡ true }
        requires used { is_used self.old.registrations number ≡ true }
        ensures { self.new ≡ made self.old number wanted.now place session }
    {
        let log = self.log(number, wanted, place, session);
        self.sources.push_publication(log);
        if wanted.channel.session_id().is_none() {
            self.next_session = after(session);
        }
    }

    /// Registers the client with the publication of this source number.
    fn register(&mut self, number: u64, client: u64, wanted: &Wanted, source: u64)
        requires { has_room_for_registration self.old ≡ true }
        ensures { self.new ≡ registered self.old number client wanted.now source }
    {
        self.registrations.push_by(&NewRegistration {
            number,
            client,
            channel: &wanted.channel,
            source,
        });
    }

    /// A client publishes: it is registered, under this number, with the publication that [`Streams::adding`] names, or
    /// with a new one, whose source number this is and whose log lies at `place`. `adding` is the answer of
    /// [`Streams::adding`]. It takes no memory.
    #[tactic(auto, using(crate::proofs::LimitLemmas::join_has_room, crate::proofs::LimitLemmas::make_has_room_for_log, crate::proofs::LimitLemmas::make_has_room))]
    pub fn add_publication(
        &mut self,
        number: u64,
        client: u64,
        wanted: &Wanted,
        place: u64,
        adding: Adding,
    )
        requires taken { adding_of self.old wanted.now ≡ Ok adding }
        ensures { self.new ≡ added self.old number client wanted.now place adding }
    {
        match adding {
            Adding::Join { source, .. } => self.register(number, client, wanted, source),
            Adding::Make { session } => {
                self.register(number, client, wanted, number);
                self.make(number, wanted, place, session);
            }
        }
    }

    /// A client subscribes, under this number. It takes no memory; [`Streams::has_room_for_subscription`] is asked before.
    #[tactic(auto, unfolding(crate::specs::Adding::subscribed))]
    pub fn add_subscription(&mut self, number: u64, client: u64, channel: &Channel, stream: i32)
        requires { has_room_for_subscription self.old ≡ true }
        ensures { self.new ≡ subscribed self.old number client channel.now stream }
    {
        self.subscriptions.push_by(&Wish {
            number,
            client,
            channel,
            stream,
        });
    }
}
