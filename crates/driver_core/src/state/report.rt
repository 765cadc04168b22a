ghost use Rattle.driver_core.specs.Refusing.{decisions_by};
ghost use Rattle.driver_core.specs.Report.{tells_answer, tells_reply, tells_refusal};
ghost use Rattle.std.specs.Prelude.{◌≡◌, ◌∷◌, [], IfOk};

use crate::state::outcome::Response;
use crate::state::refused::Refused;
use crate::state::replies::{Message, Reply};
use byte_strings::Items;
use policy_core::Decision;
use std::alloc::{AllocError, Global};
use stream_registry::LogPlace;

/// What an event's own rule reports, before what is reported of images.
#[derive(Drop)]
pub(crate) struct Report {
    pub(crate) response: Response,
    /// The event's own replies.
    pub(crate) replies: Items<Message>,
    /// The replies after those of images.
    pub(crate) later: Items<Message>,
    pub(crate) decisions: Items<Decision>,
    pub(crate) opens: Option<LogPlace>,
    pub(crate) closes: Items<LogPlace>,
}

impl Report {
    /// The event is answered, and nobody is notified. It takes no memory.
    pub(crate) fn answered(alloc: Global, response: Response) -> Report
        ensures { result ≡ tells_answer response }
    {
        Report {
            response,
            replies: Items::new(alloc),
            later: Items::new(alloc),
            decisions: Items::new(alloc),
            opens: None,
            closes: Items::new(alloc),
        }
    }

    /// One client has one reply.
    pub(crate) fn replied(alloc: Global, client: u64, reply: Reply) -> Result<Report, AllocError>
        ensures { IfOk result (λ told. told ≡ tells_reply [] client reply) }
    {
        let mut told = Report::answered(alloc, Response::Nothing);
        told.replies.push(Message { client, reply })?;
        Ok(told)
    }

    /// One client has one reply, after this decision.
    pub(crate) fn replied_on(
        alloc: Global,
        decision: Decision,
        client: u64,
        reply: Reply,
    ) -> Result<Report, AllocError>
        ensures { IfOk result (λ told. told ≡ tells_reply (decision ∷ []) client reply) }
    {
        let mut told = Report::replied(alloc, client, reply)?;
        told.decisions.push(decision)?;
        Ok(told)
    }

    /// The client's command of this correlation id is refused.
    pub(crate) fn refused(
        alloc: Global,
        client: u64,
        correlation: u64,
        refused: Refused,
    ) -> Result<Report, AllocError>
        ensures { IfOk result (λ told. told ≡ tells_refusal (decisions_by refused.decision) client correlation refused.refusal) }
    {
        let reply = Reply::Error {
            correlation,
            refusal: refused.refusal,
        };
        match refused.decision {
            Some(decision) => Report::replied_on(alloc, decision, client, reply),
            None => Report::replied(alloc, client, reply),
        }
    }
}
