ghost use Rattle.frame_codec.specs.Flags.{asks_for_setup, begins_message, contains, ends_message, ends_stream};
ghost use Rattle.std.specs.Prelude.{◌≡◌};

/// The flags of a frame. Bits without a name here are kept as they came.
#[derive(Clone, Copy, Debug, PartialEq, Eq)]
pub struct Flags {
    pub bits: u8,
}

impl Flags {
    /// No flag: NAKs, status messages and SETUPs are written so.
    pub const NONE: Flags = Flags { bits: 0 };
    /// A data frame begins a message.
    pub const BEGIN: Flags = Flags { bits: 0x80 };
    /// A data frame ends a message.
    pub const END: Flags = Flags { bits: 0x40 };
    /// A data frame that is a message of its own; a pad.
    pub const UNFRAGMENTED: Flags = Flags { bits: 0xC0 };
    /// A data frame or heartbeat is of a stream that has ended.
    pub const END_OF_STREAM: Flags = Flags { bits: 0x20 };
    /// A status message asks for a SETUP.
    pub const SEND_SETUP: Flags = Flags { bits: 0x80 };

    /// Whether all of these flags are set.
    pub fn contains(self, flags: Flags) -> bool
        ensures { result ≡ contains self flags }
    {
        self.bits & flags.bits == flags.bits
    }

    /// Whether a data frame begins a message: bit 0x80.
    #[tactic(auto, using(crate::proofs::FlagLemmas::highest_bit))]
    pub fn begins_message(self) -> bool
        ensures { result ≡ begins_message self }
    {
        self.contains(Flags::BEGIN)
    }

    /// Whether a data frame ends a message: bit 0x40.
    #[tactic(auto, using(crate::proofs::FlagLemmas::second_bit))]
    pub fn ends_message(self) -> bool
        ensures { result ≡ ends_message self }
    {
        self.contains(Flags::END)
    }

    /// Whether a data frame or heartbeat is of a stream that has ended: bit 0x20.
    #[tactic(auto, using(crate::proofs::FlagLemmas::third_bit))]
    pub fn ends_stream(self) -> bool
        ensures { result ≡ ends_stream self }
    {
        self.contains(Flags::END_OF_STREAM)
    }

    /// Whether a status message asks for a SETUP: bit 0x80.
    #[tactic(auto, using(crate::proofs::FlagLemmas::highest_bit))]
    pub fn asks_for_setup(self) -> bool
        ensures { result ≡ asks_for_setup self }
    {
        self.contains(Flags::SEND_SETUP)
    }
}
