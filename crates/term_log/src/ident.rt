ghost use Rattle.std.specs.Int.{w32};
ghost use Rattle.std.specs.Prelude.{FitsSigned};

/// Over what a log is read.
#[derive(Clone, Copy, Debug, PartialEq, Eq)]
pub enum LogKind {
    /// Subscriptions of this host alone read it; what they have read limits it.
    Ipc,
    /// A sender sends it, and spies of this host read it; both limit it.
    Udp,
}

/// What a log is made for. It never changes.
#[derive(Clone, Copy, Debug, PartialEq, Eq)]
pub struct Ident {
    pub kind: LogKind,
    pub session: i32,
    pub stream: i32,
    /// The id of the term in which position 0 lies; ids wrap.
    pub initial_term: i32,
    /// How many bytes a term has: a power of two from 64 KiB to 16 MiB.
    pub term_length: u32,
    /// How many bytes a frame has at most, header and all: a multiple of 32 from 64 to 65,504.
    pub mtu: u32,
    /// The position at which the log begins: a multiple of 32 below the greatest position.
    pub start: u64,
}

/// That a number is in the range of its type.
fn has_32_bits(number: i32)
    ensures { FitsSigned w32 number }
{
    let _ = number;
}

impl Ident {
    /// That the numbers of its session and its stream are in the range of their types.
    pub(crate) fn is_of_32_bits(self)
        ensures session { FitsSigned w32 self.session }
        ensures stream { FitsSigned w32 self.stream }
    {
        has_32_bits(self.session);
        has_32_bits(self.stream);
    }
}
