use frame_codec::Flags;

/// A fragment of a message that a poll gives, whose bytes the log lends.
#[derive(Clone, Copy, Debug)]
pub struct Fragment<'a> {
    /// The position after its frame.
    pub position: u64,
    /// The flags of its frame.
    pub flags: Flags,
    pub payload: &'a [u8],
}

/// A frame that a poll comes to.
#[derive(Drop)]
pub struct PolledFrame<T> {
    /// The position after it.
    pub end: u64,
    /// The fragment that it gives; a pad gives none.
    pub fragment: Option<T>,
}
