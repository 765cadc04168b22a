ghost use Rattle.drop_tallies.specs.Tallies.{rank_of};
ghost use Rattle.std.specs.Prelude.{◌≡◌, ◌==◌};

/// Why a datagram is dropped, lost or kept back.
#[derive(Clone, Copy, Debug, Default, PartialEq, Eq)]
pub enum Miss {
    /// Its bytes are no datagram.
    #[default]
    Unread,
    /// It is for no stream of the driver's.
    NoStream,
    /// It is from another address than the SETUP of its stream.
    Stranger,
    /// A NAK asks for what may not be sent again, or a status message names a position that was not sent.
    OutOfWindow,
    /// A status message came from an address for which there is no room among those that were learnt.
    Full,
    /// A NAK asks for no bytes.
    Empty,
    /// A NAK asks for what was sent again lately.
    Lingering,
    /// A NAK asks for more while enough that was sent again lingers.
    Busy,
    /// There was no memory for what it would give.
    NoMemory,
    /// The policy denies what a NAK asks for, or that who sent a status message becomes a destination.
    Denied,
    /// The policy does not let a datagram go to a destination.
    Withheld,
    /// A SETUP came where a turn had pushed as many as it may, or the conductor's queue had too few free places.
    QueueFull,
    /// A SETUP is none that a sender may send.
    BadSetup,
    /// No subscription has the endpoint and stream of a SETUP, and its session where it states one.
    NoSubscription,
    /// The policy allows the image of a SETUP to none of the subscriptions.
    Unimaged,
    /// A limit of the driver would be broken by the image of a SETUP.
    TooMany,
    /// There is no place for the log of the image of a SETUP.
    NoRoom,
    /// A datagram could not be sent.
    Unsent,
    /// What came to an address could not be read.
    Unheard,
}

impl Miss {
    /// A number that no other cause has.
    fn rank(self) -> u32
        ensures { result ≡ rank_of self }
    {
        match self {
            Miss::Unread => 0,
            Miss::NoStream => 1,
            Miss::Stranger => 2,
            Miss::OutOfWindow => 3,
            Miss::Full => 4,
            Miss::Empty => 5,
            Miss::Lingering => 6,
            Miss::Busy => 7,
            Miss::NoMemory => 8,
            Miss::Denied => 9,
            Miss::Withheld => 10,
            Miss::QueueFull => 11,
            Miss::BadSetup => 12,
            Miss::NoSubscription => 13,
            Miss::Unimaged => 14,
            Miss::TooMany => 15,
            Miss::NoRoom => 16,
            Miss::Unsent => 17,
            Miss::Unheard => 18,
        }
    }

    /// Whether it is that one.
    pub(crate) fn is(self, other: Miss) -> bool
        ensures { result ≡ (rank_of self == rank_of other) }
    {
        self.rank() == other.rank()
    }
}
