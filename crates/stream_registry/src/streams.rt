ghost use Rattle.stream_registry.specs.Few.{AreFew};
ghost use Rattle.std.specs.Prelude.{◌≡◌, ◌≤◌, IfOk, length};

use crate::measures::Measures;
use crate::row::{LogRow, Registration, Subscription};
use crate::sources::Sources;
use rows::Rows;
use std::alloc::{AllocError, Global};
use std::marker::Model;

/// Which logs there are, who is registered with them, and what is subscribed to. There is room from the beginning for as much
/// as there may be, so that what changes these lists takes no memory.
#[derive(Debug, Drop)]
pub struct Streams {
    /// What a log is made by where its channel says nothing.
    pub(crate) defaults: Measures,
    /// The number from which on the next session is looked for.
    pub(crate) next_session: i32,
    pub(crate) sources: Sources,
    pub(crate) registrations: Rows<Registration, 1024>,
    pub(crate) subscriptions: Rows<Subscription, 512>,
    /// Whether it is known that each log rests: that no publication would begin to linger. Then where a registration goes, its
    /// own log alone is to be looked at.
    pub(crate) at_rest: bool,
}

impl Model for Streams {
    ghost use Rattle.stream_registry.specs.Streams.{Streams as StreamLists};
    ghost use Rattle.stream_registry.specs.Rest.{Rests};
    ghost use Rattle.std.specs.Prelude.{◌≡◌, All, true};

    ghost Value = { StreamLists };

    ghost view = { λ streams. record {
      defaults = streams.defaults;
      next_session = streams.next_session;
      sources = streams.sources;
      registrations = streams.registrations;
      subscriptions = streams.subscriptions;
    } };

    ghost invariant = { λ streams. streams.at_rest ≡ true → All (Rests streams.registrations) streams.sources };
}

impl Streams {
    ghost use Rattle.stream_registry.specs.Streams.{opened, cleared};

    /// Nothing is published and nothing is subscribed to. A log is made by `defaults` where its channel says nothing, and
    /// the first session that no channel states is `first_session`.
    pub fn new(alloc: Global, defaults: Measures, first_session: i32) -> Result<Streams, AllocError>
        ensures { IfOk result (λ streams. streams ≡ opened defaults first_session) }
    {
        Ok(Streams {
            defaults,
            next_session: first_session,
            sources: Sources::new(alloc)?,
            registrations: Rows::new(alloc)?,
            subscriptions: Rows::new(alloc)?,
            at_rest: true,
        })
    }

    /// Other lists, equal to these.
    pub fn copy(&self, alloc: Global) -> Result<Streams, AllocError>
        ensures { IfOk result (λ streams. streams ≡ self.now) }
    {
        Ok(Streams {
            defaults: self.defaults,
            next_session: self.next_session,
            sources: self.sources.copy(alloc)?,
            registrations: self.registrations.copy(alloc)?,
            subscriptions: self.subscriptions.copy(alloc)?,
            at_rest: self.at_rest,
        })
    }

    /// The live logs, those that linger too, by their numbers.
    pub fn sources(&self) -> &[LogRow]
        ensures value { result.now ≡ self.now.sources }
        ensures few { length result.now ≤ 768 }
        ensures kinds { AreFew result.now }
    {
        self.sources.as_slice()
    }

    /// The registrations with publications, in their order.
    pub fn registrations(&self) -> &[Registration]
        ensures { result.now ≡ self.now.registrations }
    {
        self.registrations.as_slice()
    }

    /// The subscriptions, in their order.
    pub fn subscriptions(&self) -> &[Subscription]
        ensures value { result.now ≡ self.now.subscriptions }
        ensures few { length result.now ≤ 512 }
    {
        self.subscriptions.as_slice()
    }

    /// Everything goes at once. Sessions that were given are not looked for again before all others.
    pub fn close_all(&mut self)
        ensures { self.new ≡ cleared self.old }
    {
        self.sources.clear();
        self.registrations.clear();
        self.subscriptions.clear();
    }
}
