ghost use Rattle.driver_core.specs.Leaving.{all_left};
ghost use Rattle.driver_core.specs.Pairs.{pairs_of};
ghost use Rattle.driver_core.specs.Renewal.{outcome_by, unavailable_beside};
ghost use Rattle.driver_core.specs.State.{at_moment};
ghost use Rattle.driver_core.specs.Ticking.{closed_past, late, numbers_of_closing, timeout_of, tick};
ghost use Rattle.driver_core.specs.Report.{report_of};
ghost use Rattle.destinations.specs.Destinations.{without_sources};
ghost use Rattle.log_readers.specs.Numbering.{AreInOrder};
ghost use Rattle.log_readers.specs.Turnover.{is_going};
ghost use Rattle.std.specs.List.{flat_map};
ghost use Rattle.std.specs.Prelude.{◌≡◌, ◌++◌, ℕ, List, filter, map, IfOk, OnOk};
ghost use Rattle.stream_registry.specs.Lingering.{closing_of};

use crate::pairs::renewal::{self, tell_unavailable};
use crate::state::event::Inputs;
use crate::state::outcome::{Outcome, Response};
use crate::state::registry::Registry;
use crate::state::replies::{Message, Reply};
use crate::state::report::Report;
use byte_strings::Items;
use destinations::Destinations;
use log_readers::is_of_any;
use std::alloc::{AllocError, Global};
use stream_registry::{LogPlace, LogRow, Pair, is_closing};

/// What is reported to the clients that are late, to each over its own handle.
fn timeouts(alloc: Global, clients: &[u64]) -> Result<Items<Message>, AllocError>
    ensures { IfOk result (λ replies. replies ≡ map timeout_of clients.now) }
{
    let mut replies = Items::new(alloc);
    for client in clients {
        replies.push(Message {
            client: *client,
            reply: Reply::ClientTimeout { client: *client },
        })?;
    }
    Ok(replies)
}

/// The destinations go of those of these logs that close at this moment. No destination is looked at where none closes.
fn recall_of_closing(destinations: &mut Destinations, logs: &[LogRow], now: u64, silent: &[u64])
    ensures { destinations.new ≡ without_sources destinations.old (numbers_of_closing now silent.now logs.now) }
{
    for log in logs {
        if is_closing(log, now, silent) {
            destinations.remove_of_sources(&[log.number]);
        }
    }
}

impl Registry {
    /// The logs that close at this moment, whichever clients go at it: one that they leave alone begins to linger, and no
    /// log lingers for too long at the moment at which it begins.
    fn closing_without(
        &self,
        alloc: Global,
        now: u64,
        silent: &[u64],
    ) -> Result<Items<LogPlace>, AllocError>
        ensures { (clients : List ℕ) → IfOk result (λ closes. closes ≡ closing_of (all_left (at_moment self.now now) clients).streams (all_left (at_moment self.now now) clients).moment silent.now) }
    {
        self.streams.closing(alloc, self.moment.max(now), silent)
    }

    /// What is reported where time went on.
    #[tactic(auto, unfolding(crate::specs::Ticking::tick, crate::specs::Ticking::ticked, crate::specs::State::at_moment))]
    pub(crate) fn tell_tick(
        &self,
        alloc: Global,
        now: u64,
        silent: &[u64],
    ) -> Result<Report, AllocError>
        ensures { IfOk result (λ told. told ≡ report_of (tick (at_moment self.now now) silent.now)) }
    {
        let late = self.clients.expired(self.moment.max(now));
        let mut told = Report::answered(alloc, Response::Nothing);
        told.later = timeouts(alloc, late.as_slice())?;
        told.closes = self.closing_without(alloc, now, silent)?;
        Ok(told)
    }

    /// The pairs that go where these clients and these logs go. The lists are in order.
    fn pairs_of_going(
        &self,
        alloc: Global,
        clients: &[u64],
        closes: &[LogPlace],
    ) -> Result<Items<Pair>, AllocError>
        ensures exact { IfOk result (λ pairs. pairs ≡ filter (is_going self.now.streams clients.now closes.now) (pairs_of self.now)) }
        ensures in_order { AreInOrder self.now.streams self.now.clients.rows self.now.last_number }
    {
        self.readers
            .pairs_of_going(alloc, &self.streams, clients, closes)
    }

    /// Reports that these pairs went, where their subscriptions are none of these clients'.
    fn tell_unavailable_beside(
        &self,
        messages: &mut Items<Message>,
        clients: &[u64],
        gone: &[Pair],
    ) -> Result<(), AllocError>
        ensures { OnOk result (messages.new ≡ messages.old ++ flat_map (unavailable_beside self.now clients.now) gone.now) }
    {
        for pair in gone {
            if !is_of_any(&self.streams, clients, *pair) {
                tell_unavailable(messages, self, *pair)?;
            }
        }
        Ok(())
    }

    /// The outcome where clients go or logs close: of the pairs that go, those are reported whose subscriptions stay.
    fn outcome_of_going(
        &self,
        alloc: Global,
        now: u64,
        inputs: &Inputs,
        told: Report,
    ) -> Result<Outcome, AllocError>
        requires { told ≡ report_of (tick (at_moment self.now now) inputs.now.silent) }
        ensures { IfOk result (λ outcome. outcome ≡ outcome_by self.now inputs.now (tick (at_moment self.now now) inputs.now.silent)) }
    {
        let late = self.clients.expired(self.moment.max(now));
        let gone = self.pairs_of_going(alloc, late.as_slice(), told.closes.as_slice())?;
        let mut told = told;
        self.tell_unavailable_beside(&mut told.replies, late.as_slice(), gone.as_slice())?;
        renewal::go_alone(alloc, told, gone)
    }

    /// The outcome where time goes on.
    #[inline(never)]
    pub(crate) fn outcome_of_tick(
        &self,
        alloc: Global,
        now: u64,
        inputs: &Inputs,
    ) -> Result<Outcome, AllocError>
        ensures { IfOk result (λ outcome. outcome ≡ outcome_by self.now inputs.now (tick (at_moment self.now now) inputs.now.silent)) }
    {
        let told = self.tell_tick(alloc, now, inputs.silent.as_slice())?;
        if told.later.is_empty() && told.closes.is_empty() {
            return renewal::keep_pairs(alloc, told);
        }
        self.outcome_of_going(alloc, now, inputs, told)
    }

    /// The clients go of which nothing was heard for too long.
    fn leave_late(&mut self)
        ensures { self.new ≡ all_left self.old (late self.old) }
    {
        let late = self.clients.expired(self.moment);
        self.leave_all(late.as_slice());
    }

    /// The logs close that linger for too long, with their destinations, and these images, which are silent.
    #[tactic(auto, unfolding(crate::specs::Ticking::closed_past))]
    fn close_past(&mut self, silent: &[u64])
        ensures { self.new ≡ closed_past self.old silent.now }
    {
        let now = self.moment;
        self.all_read = false;
        recall_of_closing(&mut self.destinations, self.streams.sources(), now, silent);
        self.readers.close(&self.streams, now, silent);
        self.streams.close(now, silent);
    }

    /// Time went on: the clients go of which nothing was heard for too long, and then the logs close that linger for too
    /// long, and these images, which are silent.
    #[tactic(auto, unfolding(crate::specs::Ticking::tick, crate::specs::Ticking::ticked))]
    #[inline(never)]
    pub(crate) fn do_tick(&mut self, silent: &[u64])
        ensures { self.new ≡ (tick self.old silent.now).after }
    {
        self.leave_late();
        self.close_past(silent);
    }
}
