ghost use Rattle.driver_core.specs.Commands.{at_asking};
ghost use Rattle.driver_core.specs.Pairs.{pairs_of};
ghost use Rattle.driver_core.specs.Renewal.{outcome_by};
ghost use Rattle.driver_core.specs.Report.{report_of};
ghost use Rattle.driver_core.specs.Unsubscribing.{remove_subscription, unsubscribed};
ghost use Rattle.driver_core.specs.declared.state.event.Inputs.{Inputs as InputsSpec};
ghost use Rattle.log_readers.specs.Numbering.{Rises, number_of};
ghost use Rattle.log_readers.specs.Turnover.{is_of_number};
ghost use Rattle.std.specs.List.{Contains};
ghost use Rattle.std.specs.Prelude.{◌≡◌, ℕ, true, filter, IfOk};
ghost use Rattle.stream_registry.specs.Leaving.{has_subscription};

use crate::rules::asking::Asking;
use crate::rules::commands::outcome_of_done;
use crate::state::event::Inputs;
use crate::state::outcome::Outcome;
use crate::state::refusal::Refusal;
use crate::state::refused::Refused;
use crate::state::registry::Registry;
use crate::state::replies::Reply;
use crate::state::report::Report;
use byte_strings::Items;
use client_registry::Client;
use command_codec::Removal;
use std::alloc::{AllocError, Global};
use stream_registry::{Pair, Subscription};

impl Registry {
    /// The pairs of a subscription that is there, by source. Each subscription has a number of its own.
    fn pairs_with(&self, alloc: Global, row: &Subscription) -> Result<Items<Pair>, AllocError>
        requires { Contains self.now.streams.subscriptions row.now }
        ensures exact { IfOk result (λ pairs. pairs ≡ filter (is_of_number row.now.number) (pairs_of self.now)) }
        ensures order { Rises number_of 0 self.now.last_number self.now.streams.subscriptions }
    {
        self.readers.pairs_of_row(alloc, &self.streams, &row.wish())
    }

    /// The outcome of the end of a client's subscription: its pairs go, and they are not reported, since the subscription
    /// is gone.
    fn outcome_of_unsubscribed(
        &self,
        alloc: Global,
        asking: Asking,
        row: &Subscription,
    ) -> Result<Outcome, AllocError>
        requires there { Contains self.now.streams.subscriptions row.now }
        requires own { has_subscription self.now.streams asking.client.number row.now.number ≡ true }
        ensures { (inputs : InputsSpec) → IfOk result (λ outcome. outcome ≡ outcome_by self.now inputs (unsubscribed (at_asking self.now asking) asking.client asking.correlation row.now.number)) }
    {
        let gone = self.pairs_with(alloc, row)?;
        outcome_of_done(alloc, asking, gone)
    }

    /// The outcome of the command REMOVE_SUBSCRIPTION of a client that is there.
    #[inline(never)]
    pub(crate) fn outcome_of_remove_subscription(
        &self,
        alloc: Global,
        asking: Asking,
        fields: Removal,
        inputs: &Inputs,
    ) -> Result<Outcome, AllocError>
        ensures { IfOk result (λ outcome. outcome ≡ outcome_by self.now inputs.now (remove_subscription (at_asking self.now asking) asking.client asking.correlation fields)) }
    {
        let number = fields.registration;
        match self.streams.own_subscription(asking.client.number, number) {
            Some(row) => self.outcome_of_unsubscribed(alloc, asking, row),
            None => {
                let unknown = Refused::plainly(Refusal::UnknownSubscription);
                self.outcome_of_refused(alloc, asking, unknown)
            }
        }
    }

    /// What the command REMOVE_SUBSCRIPTION of a client that is there reports.
    #[tactic(auto, unfolding(crate::specs::Unsubscribing::remove_subscription, crate::specs::Unsubscribing::unsubscribed, crate::specs::Draft::refused, crate::specs::Draft::replied, crate::specs::Draft::told))]
    pub(crate) fn tell_remove_subscription(
        &self,
        alloc: Global,
        client: Client,
        correlation: u64,
        fields: Removal,
    ) -> Result<Report, AllocError>
        ensures { IfOk result (λ told. told ≡ report_of (remove_subscription self.now client correlation fields)) }
    {
        match self
            .streams
            .own_subscription(client.number, fields.registration)
        {
            Some(_) => {
                Report::replied(
                    alloc,
                    client.number,
                    Reply::OperationSuccess { correlation },
                )
            }
            None => {
                let unknown = Refused::plainly(Refusal::UnknownSubscription);
                Report::refused(alloc, client.number, correlation, unknown)
            }
        }
    }

    /// The command REMOVE_SUBSCRIPTION of a client that is there.
    #[tactic(auto, unfolding(crate::specs::Unsubscribing::remove_subscription, crate::specs::Unsubscribing::unsubscribed, crate::specs::Draft::refused, crate::specs::Draft::replied, crate::specs::Draft::told))]
    pub(crate) fn do_remove_subscription(&mut self, client: Client, fields: Removal)
        ensures { (correlation : ℕ) → self.new ≡ (remove_subscription self.old client correlation fields).after }
    {
        let number = fields.registration;
        let Some(row) = self.streams.own_subscription(client.number, number) else {
            return;
        };
        self.readers.remove_row(&self.streams, &row.wish());
        self.all_read = false;
        match self.streams.remove_subscription(client.number, number) {
            Ok(()) => {}
            Err(_) => unreachable!(),
        }
    }
}
