ghost use Rattle.driver_core.specs.Report.{report_of};
ghost use Rattle.driver_core.specs.Unpublishing.{remove_publication};
ghost use Rattle.std.specs.Prelude.{◌≡◌, ℕ, IfOk};

use crate::state::refusal::Refusal;
use crate::state::refused::Refused;
use crate::state::registry::Registry;
use crate::state::replies::Reply;
use crate::state::report::Report;
use client_registry::Client;
use command_codec::Removal;
use std::alloc::{AllocError, Global};

impl Registry {
    /// What the command REMOVE_PUBLICATION of a client that is there reports.
    #[tactic(auto, unfolding(crate::specs::Unpublishing::remove_publication, crate::specs::Unpublishing::unpublished, crate::specs::Draft::refused, crate::specs::Draft::replied, crate::specs::Draft::told))]
    pub(crate) fn tell_remove_publication(
        &self,
        alloc: Global,
        client: Client,
        correlation: u64,
        fields: Removal,
    ) -> Result<Report, AllocError>
        ensures { IfOk result (λ told. told ≡ report_of (remove_publication self.now client correlation fields)) }
    {
        if !self
            .streams
            .has_registration(client.number, fields.registration)
        {
            let refused = Refused::plainly(Refusal::UnknownPublication);
            return Report::refused(alloc, client.number, correlation, refused);
        }
        let reply = Reply::OperationSuccess { correlation };
        Report::replied(alloc, client.number, reply)
    }

    /// The command REMOVE_PUBLICATION of a client that is there.
    #[tactic(auto, unfolding(crate::specs::Unpublishing::remove_publication, crate::specs::Unpublishing::unpublished, crate::specs::Draft::refused, crate::specs::Draft::replied, crate::specs::Draft::told))]
    pub(crate) fn do_remove_publication(&mut self, client: Client, fields: Removal)
        ensures { (correlation : ℕ) → self.new ≡ (remove_publication self.old client correlation fields).after }
    {
        let now = self.moment;
        match self
            .streams
            .remove_publication(client.number, fields.registration, now)
        {
            Ok(()) => {}
            Err(_) => {}
        }
    }
}
