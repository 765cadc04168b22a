ghost use Rattle.std.specs.Prelude.{◌≡◌, codes};

use crate::address::{Address, address_of};
use crate::channel::Channel;
use crate::quantity::{linger_of, mtu_of, term_length_of};
use crate::session::session_id_of;

/// What the channel says of its log. Each is `None` where its key is missing, and only there, as [`Channel::parse`] has
/// refused what can't be read (the law `stated_is_read`).
impl Channel {
    ghost use Rattle.channel_uri.specs.Keys.{value_at};
    ghost use Rattle.channel_uri.specs.Parameters.{endpoint_of, control_of, stated_session_of, stated_mtu_of, stated_term_length_of, stated_linger_of};
    ghost use Rattle.channel_uri.specs.Place.{is_text};

    /// Where the datagrams arrive: `endpoint`.
    #[tactic(auto, unfolding(crate::specs::Parameters::endpoint_of))]
    pub fn endpoint(&self) -> Option<Address>
        ensures { result ≡ endpoint_of self.now }
    {
        address_of(self.get("endpoint")?)
    }

    /// Where receivers make themselves known: `control`.
    #[tactic(auto, unfolding(crate::specs::Parameters::control_of))]
    pub fn control(&self) -> Option<Address>
        ensures { result ≡ control_of self.now }
    {
        address_of(self.get("control")?)
    }

    /// Which session the channel is of: `session-id`.
    #[tactic(auto, unfolding(crate::specs::Parameters::stated_session_of))]
    pub fn session_id(&self) -> Option<i32>
        ensures { result ≡ stated_session_of self.now }
    {
        session_id_of(self.get("session-id")?)
    }

    /// How long a datagram may be, in bytes: `mtu`, a multiple of 32 from 64 to 65504.
    #[tactic(auto, unfolding(crate::specs::Parameters::stated_mtu_of))]
    pub fn mtu(&self) -> Option<u32>
        ensures { result ≡ stated_mtu_of self.now }
    {
        mtu_of(self.get("mtu")?)
    }

    /// How long a term is, in bytes: `term-length`, a power of two from 64 KiB to 16 MiB.
    #[tactic(auto, unfolding(crate::specs::Parameters::stated_term_length_of))]
    pub fn term_length(&self) -> Option<u32>
        ensures { result ≡ stated_term_length_of self.now }
    {
        term_length_of(self.get("term-length")?)
    }

    /// For how long a closed log is kept, in nanoseconds: `linger`, below 2^63.
    #[tactic(auto, unfolding(crate::specs::Parameters::stated_linger_of))]
    pub fn linger(&self) -> Option<u64>
        ensures { result ≡ stated_linger_of self.now }
    {
        linger_of(self.get("linger")?)
    }

    /// Whether the destinations are named by hand: `control-mode=manual`.
    pub fn is_manual(&self) -> bool
        ensures { result ≡ is_text (codes "manual") (value_at (codes "control-mode") self.now.keys) }
    {
        match self.get("control-mode") {
            Some(mode) => mode == "manual",
            None => false,
        }
    }

    /// Whether the destinations are learnt from the status messages that come: `control-mode=dynamic`.
    pub fn is_dynamic(&self) -> bool
        ensures { result ≡ is_text (codes "dynamic") (value_at (codes "control-mode") self.now.keys) }
    {
        match self.get("control-mode") {
            Some(mode) => mode == "dynamic",
            None => false,
        }
    }
}
