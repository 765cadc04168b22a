//! What a datagram is by its first bytes, of which no more is looked at.

ghost use Rattle.guarded_wire.specs.Kinds.{asks_too_much, is_ask, kind_numbered, kind_of};
ghost use Rattle.std.specs.Prelude.{◌≡◌};

use byteorder::{ByteOrder, LittleEndian};

/// What a datagram is by the type of its first frame.
#[derive(Clone, Copy, Debug, PartialEq, Eq)]
pub enum Kind {
    Setup,
    /// Data, a pad or a heartbeat.
    Data,
    /// A status message.
    Status,
    Nak,
    /// It has no type, or one that drivers here don't know.
    Other,
}

impl Kind {
    fn numbered(number: u16) -> Kind
        ensures { result ≡ kind_numbered number }
    {
        match number {
            0 | 1 => Kind::Data,
            2 => Kind::Nak,
            3 => Kind::Status,
            5 => Kind::Setup,
            _ => Kind::Other,
        }
    }

    #[tactic(auto, unfolding(crate::specs::Kinds::kind_of, frame_codec::specs::Fields::half_at))]
    pub(crate) fn of(bytes: &[u8]) -> Kind
        ensures { result ≡ kind_of bytes.now }
    {
        if bytes.len() < 8 {
            return Kind::Other;
        }
        Kind::numbered(LittleEndian::read_u16(&bytes[6..]))
    }

    /// Whether it is of those that make a sender send: a NAK or a status message.
    pub(crate) fn is_ask(self) -> bool
        ensures { result ≡ is_ask self }
    {
        match self {
            Kind::Nak | Kind::Status => true,
            Kind::Setup | Kind::Data | Kind::Other => false,
        }
    }

    /// Whether a datagram of this kind is a NAK for more than a window.
    #[tactic(auto, unfolding(crate::specs::Kinds::asks_too_much, frame_codec::specs::Fields::number_at))]
    pub(crate) fn asks_too_much(self, window: u32, bytes: &[u8]) -> bool
        ensures { result ≡ asks_too_much window self bytes.now }
    {
        match self {
            Kind::Nak => {
                if bytes.len() < 28 {
                    return false;
                }
                LittleEndian::read_u32(&bytes[24..]) > window
            }
            Kind::Setup | Kind::Data | Kind::Status | Kind::Other => false,
        }
    }
}
