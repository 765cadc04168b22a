ghost use Rattle.driver_core.specs.Attaching.{attach};
ghost use Rattle.driver_core.specs.Renewal.{outcome_by};
ghost use Rattle.driver_core.specs.Report.{report_of};
ghost use Rattle.driver_core.specs.State.{at_moment};
ghost use Rattle.log_readers.specs.Numbering.{IsOwned};
ghost use Rattle.std.specs.Prelude.{◌≡◌, All, ℕ, IfOk};

use crate::pairs::renewal;
use crate::state::event::Inputs;
use crate::state::outcome::{Outcome, Response};
use crate::state::registry::Registry;
use crate::state::report::Report;
use std::alloc::{AllocError, Global};

impl Registry {
    /// How a client that comes is answered, and that each subscription has a client already. It takes no memory.
    #[tactic(auto, unfolding(crate::specs::Attaching::attach, crate::specs::Attaching::attached, crate::specs::Draft::answered, crate::specs::State::at_moment, client_registry::specs::Clients::admission))]
    pub(crate) fn tell_attach(&self, alloc: Global) -> Report
        ensures exact { (now principal : ℕ) → result ≡ report_of (attach (at_moment self.now now) principal) }
        ensures owned { All (IsOwned self.now.clients.rows) self.now.streams.subscriptions }
    {
        if self.stopped {
            return Report::answered(alloc, Response::Stopped);
        }
        match self.clients.admission() {
            Ok(number) => Report::answered(alloc, Response::Attached(number)),
            Err(_) => Report::answered(alloc, Response::Full),
        }
    }

    /// The outcome where a client comes: it brings no images, since it has no subscription yet.
    #[inline(never)]
    pub(crate) fn outcome_of_attach(
        &self,
        alloc: Global,
        now: u64,
        principal: u32,
        inputs: &Inputs,
    ) -> Result<Outcome, AllocError>
        ensures { IfOk result (λ outcome. outcome ≡ outcome_by self.now inputs.now (attach (at_moment self.now now) principal)) }
    {
        renewal::keep_pairs(alloc, self.tell_attach(alloc))
    }

    /// A client comes, which acts for this principal.
    #[tactic(auto, unfolding(crate::specs::Attaching::attach, crate::specs::Attaching::attached, crate::specs::Draft::answered, client_registry::specs::Clients::admission))]
    #[inline(never)]
    pub(crate) fn do_attach(&mut self, principal: u32)
        ensures { self.new ≡ (attach self.old principal).after }
    {
        if self.stopped {
            return;
        }
        match self.clients.admit(principal, self.moment) {
            Ok(_) => {}
            Err(_) => {}
        }
    }
}
