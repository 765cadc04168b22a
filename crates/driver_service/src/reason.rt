//! Why a request is refused.

ghost use Rattle.driver_service.specs.Reasons.{reason_code, reason_text, refusal_code, refusal_text};
ghost use Rattle.std.specs.Prelude.{◌≡◌};

use byte_strings::Text;

/// Why a request is refused, where no policy is asked.
#[derive(Clone, Copy, Debug, PartialEq, Eq)]
pub enum Reason {
    /// Nobody is there to read.
    NotConnected,
    /// The slowest reader has too much left to read.
    BackPressured,
    /// The rest of the term was too short: offer again.
    AdminAction,
    /// The client has no such registration, or its log is closed; or the subscription does not read that log.
    Closed,
    /// The log is at its greatest position.
    MaxPosition,
    /// An offer before this one was refused, and the client had not seen that yet.
    Skipped,
    UnknownCounter,
    UnknownRequest,
    MalformedRequest,
    TooLong,
    NoMemory,
    /// All seats of the driver, or of the principal, are taken.
    Full,
    /// The client is not attached any more.
    WrongClient,
    /// The registry gave no look: ask again.
    NoLook,
    /// The queue of commands is full: ask again.
    QueueFull,
    /// Only an operator may ask for that.
    NotOperator,
    /// The driver stops.
    Stopped,
    /// The principal's clients have as many publications as they may.
    PublicationBound,
    /// The logs of these have as many pages.
    PageBound,
    SubscriptionBound,
    CounterBound,
    /// A command with that correlation id, or a greater one, was there before.
    UsedCorrelation,
    /// The client has a stream to read, and did not read for too long.
    Unread,
}

impl Reason {
    /// The number by which clients know it: those of offers are Aeron's, those of commands the driver's own codes.
    #[tactic(auto, unfolding(crate::specs::Reasons::reason_code))]
    pub fn code(self) -> i32
        ensures { result ≡ reason_code self }
    {
        match self {
            Reason::NotConnected => -1,
            Reason::BackPressured => -2,
            Reason::AdminAction => -3,
            Reason::Closed => -4,
            Reason::MaxPosition => -5,
            Reason::Skipped => -6,
            Reason::UnknownCounter => 5,
            Reason::UnknownRequest => 6,
            Reason::MalformedRequest => 7,
            Reason::TooLong => 8,
            Reason::NoMemory => 1002,
            Reason::Full => 1003,
            Reason::WrongClient => 1004,
            Reason::NoLook => 1007,
            Reason::QueueFull => 1008,
            Reason::NotOperator => 1009,
            Reason::Stopped => 1010,
            Reason::PublicationBound => 1011,
            Reason::PageBound => 1012,
            Reason::SubscriptionBound => 1013,
            Reason::CounterBound => 1014,
            Reason::UsedCorrelation => 1015,
            Reason::Unread => 1016,
        }
    }

    /// The reason in words.
    #[tactic(auto, unfolding(crate::specs::Reasons::reason_text))]
    pub fn text(self) -> &'static str
        ensures { result.now ≡ reason_text self }
    {
        match self {
            Reason::NotConnected => "no subscriber",
            Reason::BackPressured => "back pressure",
            Reason::AdminAction => "offer again",
            Reason::Closed => "closed",
            Reason::MaxPosition => "greatest position reached",
            Reason::Skipped => "skipped after a refusal",
            Reason::UnknownCounter => "unknown counter",
            Reason::UnknownRequest => "unknown request",
            Reason::MalformedRequest => "malformed request",
            Reason::TooLong => "too long",
            Reason::NoMemory => "no memory",
            Reason::Full => "full",
            Reason::WrongClient => "client gone",
            Reason::NoLook => "no look",
            Reason::QueueFull => "queue full",
            Reason::NotOperator => "only for operators",
            Reason::Stopped => "stopped",
            Reason::PublicationBound => "bound on publications",
            Reason::PageBound => "bound on pages",
            Reason::SubscriptionBound => "bound on subscriptions",
            Reason::CounterBound => "bound on counters",
            Reason::UsedCorrelation => "correlation id was used",
            Reason::Unread => "polls nothing",
        }
    }

    /// Whether the same request may be taken later.
    pub(crate) fn may_pass(self) -> bool {
        matches!(
            self,
            Reason::NotConnected
                | Reason::BackPressured
                | Reason::AdminAction
                | Reason::NoLook
                | Reason::QueueFull
        )
    }
}

/// The code of a denial.
pub(crate) const DENIED: i32 = 1001;

/// Why a request is refused: by the policy, in the words of its verdict, or for another reason.
#[derive(Debug, PartialEq, Eq, Drop)]
pub enum Refusal {
    Denied(Text),
    Because(Reason),
}

impl Refusal {
    #[tactic(auto, unfolding(crate::specs::Reasons::refusal_code))]
    pub fn code(&self) -> i32
        ensures { result ≡ refusal_code self.now }
    {
        match self {
            Refusal::Denied(_) => DENIED,
            Refusal::Because(reason) => reason.code(),
        }
    }

    #[tactic(auto, unfolding(crate::specs::Reasons::refusal_text))]
    pub fn text(&self) -> &str
        ensures { result.now ≡ refusal_text self.now }
    {
        match self {
            Refusal::Denied(text) => text.as_str(),
            Refusal::Because(reason) => reason.text(),
        }
    }

    pub(crate) fn may_pass(&self) -> bool {
        match self {
            Refusal::Denied(_) => false,
            Refusal::Because(reason) => reason.may_pass(),
        }
    }
}
