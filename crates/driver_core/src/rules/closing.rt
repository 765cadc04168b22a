ghost use Rattle.driver_core.specs.Closing.{keep_alive, close};
ghost use Rattle.driver_core.specs.Commands.{at_asking};
ghost use Rattle.driver_core.specs.Pairs.{pairs_of};
ghost use Rattle.driver_core.specs.Renewal.{outcome_by};
ghost use Rattle.driver_core.specs.Report.{report_of};
ghost use Rattle.log_readers.specs.Numbering.{Rises, number_of};
ghost use Rattle.log_readers.specs.Turnover.{is_of_client};
ghost use Rattle.std.specs.Prelude.{◌≡◌, ℕ, filter, IfOk};

use crate::rules::asking::Asking;
use crate::rules::commands::outcome_of_done;
use crate::state::event::Inputs;
use crate::state::outcome::{Outcome, Response};
use crate::state::registry::Registry;
use crate::state::replies::Reply;
use crate::state::report::Report;
use byte_strings::Items;
use client_registry::Client;
use std::alloc::{AllocError, Global};
use stream_registry::Pair;

impl Registry {
    /// What the command CLIENT_KEEPALIVE of a client that is there reports: nothing. It takes no memory.
    #[tactic(auto, unfolding(crate::specs::Closing::keep_alive, crate::specs::Draft::told))]
    pub(crate) fn tell_keep_alive(&self, alloc: Global) -> Report
        ensures { result ≡ report_of (keep_alive self.now) }
    {
        Report::answered(alloc, Response::Nothing)
    }

    /// The command CLIENT_KEEPALIVE of a client that is there, which was heard of by it already.
    #[tactic(auto, unfolding(crate::specs::Closing::keep_alive, crate::specs::Draft::told))]
    pub(crate) fn do_keep_alive(&mut self)
        ensures { self.new ≡ (keep_alive self.old).after }
    {}

    /// The pairs of the client's subscriptions, by source and then subscription. Each subscription has a number of its own.
    fn pairs_of_client(&self, alloc: Global, client: u64) -> Result<Items<Pair>, AllocError>
        ensures exact { IfOk result (λ pairs. pairs ≡ filter (is_of_client self.now.streams client) (pairs_of self.now)) }
        ensures order { Rises number_of 0 self.now.last_number self.now.streams.subscriptions }
    {
        self.readers.pairs_of_client(alloc, &self.streams, client)
    }

    /// The outcome of the command CLIENT_CLOSE of a client that is there: the pairs of its subscriptions go, and they are
    /// not reported, since these are gone.
    #[inline(never)]
    pub(crate) fn outcome_of_close(
        &self,
        alloc: Global,
        asking: Asking,
        inputs: &Inputs,
    ) -> Result<Outcome, AllocError>
        ensures { IfOk result (λ outcome. outcome ≡ outcome_by self.now inputs.now (close (at_asking self.now asking) asking.client asking.correlation)) }
    {
        let gone = self.pairs_of_client(alloc, asking.client.number)?;
        outcome_of_done(alloc, asking, gone)
    }

    /// What the command CLIENT_CLOSE of a client that is there reports.
    #[tactic(auto, unfolding(crate::specs::Closing::close, crate::specs::Draft::replied, crate::specs::Draft::told))]
    pub(crate) fn tell_close(
        &self,
        alloc: Global,
        client: Client,
        correlation: u64,
    ) -> Result<Report, AllocError>
        ensures { IfOk result (λ told. told ≡ report_of (close self.now client correlation)) }
    {
        Report::replied(
            alloc,
            client.number,
            Reply::OperationSuccess { correlation },
        )
    }

    /// The command CLIENT_CLOSE of a client that is there.
    #[tactic(auto, unfolding(crate::specs::Closing::close, crate::specs::Draft::replied, crate::specs::Draft::told))]
    pub(crate) fn do_close(&mut self, client: Client)
        ensures { (correlation : ℕ) → self.new ≡ (close self.old client correlation).after }
    {
        self.leave(client.number);
    }
}
