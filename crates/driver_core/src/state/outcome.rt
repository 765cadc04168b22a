use crate::state::replies::Message;
use crate::state::setup_fault::SetupFault;
use byte_strings::Items;
use policy_core::Decision;
use stream_registry::{LogPlace, Pair};

/// What an event itself is answered. The replies of commands stand apart.
#[derive(Clone, Copy, Debug, PartialEq, Eq)]
pub enum Response {
    Nothing,
    /// The client has this id.
    Attached(u64),
    /// A limit of the driver would be broken.
    Full,
    /// The driver was stopped, and no client comes to it any more.
    Stopped,
    /// The policy is in force, under this number.
    PolicyInForce(u64),
    /// A limit of the driver would be broken under the policy, which is not in force.
    PolicyFull,
    /// The image has this source number.
    Imaged(u64),
    /// The SETUP makes no image.
    Dropped(SetupFault),
}

/// All that an event reports and does outside the registry.
#[derive(Debug, PartialEq, Eq, Drop)]
pub struct Outcome {
    pub response: Response,
    /// The replies, in the order in which they are given.
    pub replies: Items<Message>,
    /// What the policy decided, in the order in which it was asked.
    pub decisions: Items<Decision>,
    /// The log that the event opens.
    pub opens: Option<LogPlace>,
    /// The logs that it closes.
    pub closes: Items<LogPlace>,
    /// The pairs that go, by source and then subscription.
    pub gone: Items<Pair>,
    /// The pairs that come, by source and then subscription.
    pub come: Items<Pair>,
}
