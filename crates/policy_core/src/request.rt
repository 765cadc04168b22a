use crate::act::Act;
use channel_uri::Channel;

/// What a policy is asked.
#[derive(Clone, Copy)]
pub struct Request<'a> {
    /// Who asks.
    pub principal: u32,
    /// What is to be done.
    pub act: Act,
    /// On which channel.
    pub channel: &'a Channel,
    /// On which stream of the channel; for a counter its type id.
    pub stream: i32,
}
