//! A client of the driver as the seat of a connection.

ghost use Rattle.media_driver.specs.Clients.{Looks, TakesMail};
ghost use Rattle.published_registry.specs.Histories.{registry_of};
ghost use Rattle.reading_progress.specs.Pairs.{pair_at};
ghost use Rattle.reading_progress.specs.Watches.{new_watch};
ghost use Rattle.served_clients.specs.Acts.{LooksAt, NextReply, Says, Tends, sitting};
ghost use Rattle.std.specs.Prelude.{◌≡◌, ◌<◌, ◌++◌, [], ◌∷◌, IfNone, IfSome, None, true};
ghost use Rattle.std.specs.VecDeque.{deque_capacity, deque_len};

use crate::denying::{denied_look, denied_offer, denied_poll};
use crate::given::Given;
use crate::habits::Habits;
use crate::keeper::Keeper;
use crate::looking::{tell_list, tell_value};
use crate::polling::tell_poll;
use crate::positions::{tell_image, tell_publication};
use crate::refusing::{reason_of_push, tell_offer};
use crate::replying::tell_mail;
use driver_core::Reply;
use driver_service::{ImagePositions, PublicationPositions, Reason, Refusal, Seat};
use media_driver::{Client, ClientReply, Clock, DriverNaming, Mail};
use std::alloc::Global;
use std::collections::VecDeque;
use std::sync::Wait;

/// How many replies are kept at most that were taken out of the client's ring and not asked for yet.
const KEPT: usize = 256;

/// How many pairs of a subscription and a source a driver has at most.
const PAIRS: usize = 4_096;

/// One more stands last.
fn put_last<T: Drop>(queue: &mut VecDeque<T>, one: T)
    requires { deque_len queue.old < deque_capacity queue.old }
    ensures { queue.new.items ≡ queue.old.items ++ one ∷ [] }
{
    let _ = queue.push_back(one);
}

/// What is left of a client that served a connection.
#[derive(Drop)]
pub struct Parted<N: DriverNaming, C: Clock, K: Keeper + Drop> {
    pub client: Client<N, C>,
    pub keeper: K,
    /// Whether the driver was ended, as its registry says.
    pub ended: bool,
    /// Whether the client ever asked for that.
    pub terminates: bool,
}

/// Whether the registry that the client sees now says that the driver was ended.
pub fn is_ended<N: DriverNaming, C: Clock>(client: &mut Client<N, C>) -> bool
    ensures looks { Looks client.old client.new }
    ensures ended { result ≡ true → (registry_of client.new.known).stopped ≡ true }
{
    match client.is_driver_ended() {
        Ok(ended) => ended,
        Err(_) => false,
    }
}

/// Whether a reply says that a command was done.
fn is_done<N: DriverNaming>(mail: &Option<Mail<N>>) -> bool {
    match mail {
        Some(mail) => matches!(
            mail.reply(),
            ClientReply::Of(Reply::OperationSuccess { .. })
        ),
        None => false,
    }
}

/// A client that serves a connection.
#[derive(Drop)]
pub struct Served<N: DriverNaming, C: Clock, R: Wait + Drop, K: Keeper + Drop> {
    rt: R,
    alloc: Global,
    client: Client<N, C>,
    /// Replies that were taken out of its ring and not asked for yet: they say what it has to read.
    kept: VecDeque<Mail<N>>,
    /// What is laid out before it is answered, so that no part of a record is left where memory runs out.
    scratch: Vec<u8>,
    habits: Habits<K>,
}

impl<N: DriverNaming, C: Clock, R: Wait + Drop, K: Keeper + Drop> Served<N, C, R, K> {
    /// A client that the driver lets be silent for `liveness` nanoseconds, and that may have something to read and not go on for
    /// `unread`.
    pub fn new(
        rt: R,
        alloc: Global,
        client: Client<N, C>,
        keeper: K,
        liveness: u64,
        unread: Option<u64>,
    ) -> Served<N, C, R, K>
        ensures client { result.client ≡ client }
        ensures keeper { result.habits.keeper ≡ keeper }
        ensures kept { result.kept.items ≡ [] }
        ensures watch { result.habits.watch ≡ new_watch unread }
    {
        Served {
            rt,
            alloc,
            client,
            kept: VecDeque::new(alloc),
            scratch: Vec::new(alloc),
            habits: Habits::new(alloc, keeper, liveness, unread),
        }
    }

    /// The client, what it shares, and what there is to say of its driver.
    pub fn into_parts(self) -> Parted<N, C, K>
        ensures keeper { result.keeper ≡ self.habits.keeper }
        ensures looks { Looks self.client result.client }
        ensures ended { result.ended ≡ true → (registry_of result.client.known).stopped ≡ true }
    {
        let Served {
            rt: _,
            alloc: _,
            mut client,
            kept: _,
            scratch: _,
            habits,
        } = self;
        let ended = is_ended(&mut client);
        let (keeper, terminates) = habits.into_parts();
        Parted {
            client,
            keeper,
            ended,
            terminates,
        }
    }

    /// What the driver said last is heeded: where a command was done, the driver may be ended by it.
    fn heed(&mut self, mail: &Option<Mail<N>>)
        ensures looks { Looks self.old.client self.new.client }
        ensures kept { self.new.kept ≡ self.old.kept }
    {
        if is_done(mail) && is_ended(&mut self.client) {
            self.habits.stopped();
        }
    }

    /// The next reply out of the client's ring.
    fn taken(&mut self) -> Option<Mail<N>>
        ensures taken { TakesMail self.old.client self.new.client result }
        ensures kept { self.new.kept ≡ self.old.kept }
    {
        let mail = self.client.next_mail();
        self.habits.noted(&mail);
        mail
    }

    /// The next reply: one that is kept, or one out of the ring.
    #[tactic(auto, using(crate::proofs::ActLemmas::next_kept, crate::proofs::ActLemmas::next_taken))]
    fn next_reply(&mut self) -> Option<Mail<N>>
        ensures { NextReply (sitting self.old.client self.old.kept.items) (sitting self.new.client self.new.kept.items) result }
    {
        match self.kept.pop_front() {
            Some(mail) => Some(mail),
            None => self.taken(),
        }
    }

    /// One more reply is kept, if one is there and there is room. Whether it was.
    #[tactic(auto, using(crate::proofs::ActLemmas::tends_same, crate::proofs::ActLemmas::tends_keeps, crate::proofs::ActLemmas::tends_empty))]
    fn keep_one(&mut self) -> bool
        ensures { Tends (sitting self.old.client self.old.kept.items) (sitting self.new.client self.new.kept.items) }
    {
        if self.kept.len() >= KEPT || self.kept.reserve(1).is_err() {
            return false;
        }
        match self.taken() {
            Some(mail) => {
                put_last(&mut self.kept, mail);
                true
            }
            None => false,
        }
    }

    /// The replies that are there are kept until they are asked for.
    #[tactic(auto, using(crate::proofs::ActLemmas::tends_none, crate::proofs::ActLemmas::tends_both))]
    fn keep_replies(&mut self)
        ensures { Tends (sitting self.old.client self.old.kept.items) (sitting self.new.client self.new.kept.items) }
    {
        for _ in 0..KEPT {
            if !self.keep_one() {
                return;
            }
        }
    }

    /// It is looked how far the client has come with what it reads in that place. The place of the next, if something is here: this
    /// one, where the pair is not there any more.
    #[tactic(auto, using(crate::proofs::ActLemmas::tends_none, crate::proofs::ActLemmas::tends_watches, crate::proofs::ActLemmas::looks_at))]
    fn watch_one(&mut self, place: usize) -> Option<usize>
        ensures tends { Tends (sitting self.old.client self.old.kept.items) (sitting self.new.client self.new.kept.items) }
        ensures looks { IfSome result (λ next. LooksAt N.home self.old.client self.new.client self.old.habits.watch self.new.habits.watch place) }
        ensures none { IfNone result (pair_at place self.old.habits.watch.pairs ≡ None) }
    {
        let pair = self.habits.pair(place)?;
        let now = self.habits.now();
        let gave = self
            .client
            .image_positions(&self.rt, pair.subscription, pair.source);
        if self.habits.seen(now, pair, &gave) {
            Some(place.saturating_add(1))
        } else {
            Some(place)
        }
    }

    /// It is looked how far the client has come with all that it reads.
    #[tactic(auto, using(crate::proofs::ActLemmas::tends_none, crate::proofs::ActLemmas::tends_both))]
    fn watch_all(&mut self)
        ensures { Tends (sitting self.old.client self.old.kept.items) (sitting self.new.client self.new.kept.items) }
    {
        let mut place = 0;
        for _ in 0..PAIRS {
            match self.watch_one(place) {
                Some(next) => place = next,
                None => return,
            }
        }
    }

    /// Its replies are kept, and it is looked how far it has come. Where it does not go on, it is gone.
    #[tactic(auto, using(crate::proofs::ActLemmas::tends_both))]
    fn watch(&mut self)
        ensures { Tends (sitting self.old.client self.old.kept.items) (sitting self.new.client self.new.kept.items) }
    {
        self.keep_replies();
        self.watch_all();
        let now = self.habits.now();
        self.habits.settle(now, self.kept.len() >= KEPT);
    }

    /// The same, if it is time for that.
    #[tactic(auto, using(crate::proofs::ActLemmas::tends_none))]
    fn watch_in_time(&mut self)
        ensures { Tends (sitting self.old.client self.old.kept.items) (sitting self.new.client self.new.kept.items) }
    {
        if self.habits.is_watched() {
            self.watch();
        }
    }

    /// The client says to the driver that it is there, if it is time for that.
    fn say_in_time(&mut self)
        ensures says { Says self.old.client self.new.client }
        ensures kept { self.new.kept ≡ self.old.kept }
        ensures watch { self.new.habits.watch ≡ self.old.habits.watch }
    {
        if !self.habits.is_due() {
            return;
        }
        let gave = self.client.keepalive(&self.rt);
        self.habits.stayed(gave.is_ok());
    }
}

impl<N: DriverNaming, C: Clock, R: Wait + Drop, K: Keeper + Drop> Seat for Served<N, C, R, K> {
    ghost use Rattle.served_clients.specs.Acts.{IsAct, sitting};

    ghost does = { λ old call new. IsAct N.home K.admits K.hears (sitting old.client old.kept.items, old.habits.keeper) call (sitting new.client new.kept.items, new.habits.keeper) };

    #[tactic(auto, using(crate::proofs::ActLemmas::stays_so))]
    fn stay(&mut self) {
        self.watch_in_time();
        self.say_in_time();
        self.habits.give_way();
    }

    fn command(&mut self, bytes: &[u8]) -> Result<(), Refusal> {
        let number = self.client.number();
        let given = match Given::read(self.alloc, bytes) {
            Ok(given) => given,
            Err(_) => return Err(Refusal::Because(Reason::NoMemory)),
        };
        if let Err(reason) = self.habits.admit(number, &given) {
            return Err(Refusal::Because(reason));
        }
        match self.client.command(&self.rt, bytes) {
            Ok(()) => {
                self.habits.handed(&given);
                Ok(())
            }
            Err(fault) => {
                self.habits.withdrawn(number, &given);
                Err(Refusal::Because(reason_of_push(fault)))
            }
        }
    }

    fn offer(&mut self, registration: u64, message: &[u8]) -> Result<u64, Refusal> {
        let gave = self.client.offer(&self.rt, registration, message);
        self.habits.stir(gave.is_ok());
        self.habits.denied(denied_offer(&self.client, &gave));
        tell_offer(self.alloc, gave)
    }

    fn poll(
        &mut self,
        subscription: u64,
        source: u64,
        limit: u32,
        out: &mut Vec<u8>,
    ) -> Result<u32, Refusal> {
        let gave = self.client.poll(&self.rt, subscription, source, limit);
        let denial = denied_poll(&self.client, &gave);
        let told = tell_poll(self.alloc, gave, &mut self.scratch, out);
        self.habits.polled(&told);
        self.habits.denied(denial);
        told
    }

    fn mail(&mut self, out: &mut Vec<u8>) -> Result<bool, Refusal> {
        let mail = self.next_reply();
        self.heed(&mail);
        tell_mail(self.alloc, &mail, &mut self.scratch, out)
    }

    fn list(&mut self, out: &mut Vec<u8>) -> Result<u32, Refusal> {
        let gave = self.client.list();
        tell_list(&gave, &mut self.scratch, out)
    }

    fn value(&mut self, number: u64) -> Result<i64, Refusal> {
        let gave = self.client.counter_value(number);
        self.habits.denied(denied_look(&gave));
        tell_value(self.alloc, &gave)
    }

    fn publication_positions(
        &mut self,
        registration: u64,
    ) -> Result<PublicationPositions, Refusal> {
        let gave = self.client.publication_positions(&self.rt, registration);
        tell_publication(gave)
    }

    fn image_positions(
        &mut self,
        subscription: u64,
        source: u64,
    ) -> Result<ImagePositions, Refusal> {
        let gave = self.client.image_positions(&self.rt, subscription, source);
        tell_image(gave)
    }

    fn gone(&self) -> Option<Reason> {
        self.habits.gone()
    }
}
