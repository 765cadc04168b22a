use driver_core::Astray;
use frame_codec::BadPacket;
use policy_core::Verdict;

/// Why a datagram is dropped.
#[derive(Clone, Copy, Debug, PartialEq, Eq)]
pub enum Cause {
    /// Its bytes are no datagram: their first fault.
    Unread(BadPacket),
    /// It is for no log, or from a stranger.
    Astray(Astray),
    /// The policy does not let who asks by the NAK have frames again, or who sent the status message become a destination, by
    /// this verdict.
    Denied(Verdict),
    /// A status message came from an address for which there is no room among those that were learnt.
    Full,
    /// A NAK asks for no bytes.
    Empty,
    /// A NAK asks for what may not be sent again, or a status message names a position that was not sent.
    OutOfWindow,
    /// A NAK asks for what was sent again lately.
    Lingering,
    /// A NAK asks for more while enough that was sent again lingers.
    Busy,
}
