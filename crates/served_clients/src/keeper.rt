//! What a connection's client shares with other clients.

ghost use Rattle.driver_service.specs.declared.reason.Reason.{Reason};
ghost use Rattle.policy_core.specs.declared.decision.Decision.{Decision};
ghost use Rattle.served_clients.specs.declared.given.Given.{Given};
ghost use Rattle.std.specs.Prelude.{ℕ, Result};

use crate::given::Given;
use driver_service::Reason;
use media_driver::ClientReply;
use policy_core::Decision;

/// What a connection's client shares with the others of its principal, and of its driver.
pub trait Keeper {
    /// What it says of a command of that client, and what it is then.
    ghost admits: { Self → ℕ → Given → Result Unit Reason → Self → Type 0 };

    /// What it is once it heard of a denial.
    ghost hears: { Self → Decision → Self → Type 0 } = { λ old decision new. Unit {0} };

    /// Whether that may go to the driver as a command of that client. What it adds counts from then on.
    ///
    /// # Errors
    /// Where that would be too much, which bound it would pass.
    fn admit(&mut self, client: u64, given: &Given) -> Result<(), Reason>
        ensures { admits self.old client given.now result self.new };

    /// What was admitted last did not go.
    fn withdraw(&mut self, client: u64, given: &Given);

    /// What a reply says of what the client has.
    fn note(&mut self, client: u64, reply: &ClientReply);

    /// That was denied to the client: to offer, to poll or to see a counter.
    fn denied(&mut self, decision: &Decision)
        ensures { hears self.old decision.now self.new };

    /// Messages went into a log, or were read there: whoever waits for that may go on.
    fn stir(&mut self);

    /// A request is answered next: others go first, where this client and the others of its principal took more than their part of
    /// the processors while they had work.
    fn give_way(&mut self);

    /// Now, in nanoseconds from any beginning.
    fn now(&self) -> u64;
}
