ghost use Rattle.stream_registry.specs.Measures.{is_same, measures_of};
ghost use Rattle.std.specs.Prelude.{◌≡◌};

use channel_uri::Channel;

/// What a publication's log is made by, beside its place and its session.
#[derive(Clone, Copy, Debug, PartialEq, Eq)]
pub struct Measures {
    /// How long a datagram may be, in bytes.
    pub mtu: u32,
    /// How long a term is, in bytes.
    pub term_length: u32,
    /// For how long the log is kept once its last registration went, in nanoseconds.
    pub linger: u64,
}

impl Measures {
    /// What a channel says of its log; what it does not say is as in `self`.
    #[tactic(auto, unfolding(crate::specs::Measures::measures_of))]
    pub fn with_those_of(self, channel: &Channel) -> Measures
        ensures { result ≡ measures_of self channel.now }
    {
        Measures {
            mtu: channel.mtu().unwrap_or(self.mtu),
            term_length: channel.term_length().unwrap_or(self.term_length),
            linger: channel.linger().unwrap_or(self.linger),
        }
    }

    pub(crate) fn is_same(self, other: Measures) -> bool
        ensures { result ≡ is_same self other }
    {
        self.mtu == other.mtu
            && self.term_length == other.term_length
            && self.linger == other.linger
    }
}
