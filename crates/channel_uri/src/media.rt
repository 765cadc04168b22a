ghost use Rattle.channel_uri.specs.Media.{name_of, media_number};
ghost use Rattle.std.specs.Prelude.{◌≡◌, ◌==◌};

/// The medium of a channel (Aeron wiki, channel configuration).
#[derive(Clone, Copy, Debug, PartialEq, Eq)]
pub enum Media {
    /// Datagrams between hosts.
    Udp,
    /// Shared memory, within one driver.
    Ipc,
    /// The subject of a counter; no text of a channel has it.
    Counter,
}

impl Media {
    /// The word that stands for the medium in a text.
    pub fn name(self) -> &'static str
        ensures { result.now ≡ name_of self }
    {
        match self {
            Media::Udp => "udp",
            Media::Ipc => "ipc",
            Media::Counter => "counter",
        }
    }

    pub(crate) fn same(self, other: Media) -> bool
        ensures { result ≡ (media_number self == media_number other) }
    {
        self == other
    }
}
