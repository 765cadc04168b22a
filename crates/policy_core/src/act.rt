ghost use Rattle.policy_core.specs.Act.{act_named, act_number, name_of};
ghost use Rattle.std.specs.Prelude.{◌≡◌};

/// What a request asks to do.
#[derive(Clone, Copy, Debug, PartialEq, Eq)]
pub enum Act {
    /// To add a publication that others of its place and stream join.
    Publish,
    /// To add a publication of its own log.
    PublishExclusive,
    /// To add a subscription.
    Subscribe,
    /// To add a subscription that reads the log of a publication to other hosts.
    Spy,
    /// To add a destination of a publication.
    Destination,
    /// To add a counter.
    Counter,
    /// To end the driver.
    Terminate,
    /// To append a message to a publication's log.
    Offer,
    /// To have the messages of a log paired with a subscription.
    Image,
    /// To read messages.
    Receive,
    /// To have datagrams sent to a destination.
    Send,
    /// To have lost frames sent again.
    Retransmit,
    /// To become a destination by a status message.
    Join,
    /// To see a counter.
    List,
}

impl Act {
    /// Every act, in the order of their numbers.
    pub const EVERY: [Act; 14] = [
        Act::Publish,
        Act::PublishExclusive,
        Act::Subscribe,
        Act::Spy,
        Act::Destination,
        Act::Counter,
        Act::Terminate,
        Act::Offer,
        Act::Image,
        Act::Receive,
        Act::Send,
        Act::Retransmit,
        Act::Join,
        Act::List,
    ];

    /// The word that stands for the act in a policy's text.
    #[tactic(auto, unfolding(crate::specs::Act::act_named))]
    pub fn name(self) -> &'static str
        ensures name { result.now ≡ name_of self }
        ensures read_back { act_named result.now ≡ Some self }
    {
        match self {
            Act::Publish => "publish",
            Act::PublishExclusive => "publish-exclusive",
            Act::Subscribe => "subscribe",
            Act::Spy => "spy",
            Act::Destination => "destination",
            Act::Counter => "counter",
            Act::Terminate => "terminate",
            Act::Offer => "offer",
            Act::Image => "image",
            Act::Receive => "receive",
            Act::Send => "send",
            Act::Retransmit => "retransmit",
            Act::Join => "join",
            Act::List => "list",
        }
    }

    /// The act of that name.
    #[tactic(auto, unfolding(crate::specs::Act::act_named))]
    pub fn from_name(name: &str) -> Option<Act>
        ensures { result ≡ act_named name.now }
    {
        Act::EVERY.iter().copied().find(|act| act.name() == name)
    }

    /// The place of the act among all acts, from 0.
    pub(crate) fn number(self) -> usize
        ensures { result ≡ act_number self }
    {
        self as usize
    }
}
