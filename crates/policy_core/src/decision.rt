use crate::act::Act;
use crate::verdict::Verdict;

/// What was asked of a policy, and what it decided.
#[derive(Clone, Copy, Debug, PartialEq, Eq)]
pub struct Decision {
    /// Who asked.
    pub principal: u32,
    /// What was to be done.
    pub act: Act,
    /// The number of what it was to be done to, by the act: the registration by which is offered; the subscription that
    /// an image is for, or that receives; the source of the log of which is retransmitted; the destination to which is
    /// sent; the counter that is listed; 0 for a command.
    pub subject: u64,
    /// On which stream.
    pub stream: i32,
    /// What the policy decided, and by what.
    pub verdict: Verdict,
}
