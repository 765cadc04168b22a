ghost use Rattle.channel_uri.specs.Key.{key_of, key_text};
ghost use Rattle.std.specs.Prelude.{◌≡◌, Some};

use std::fmt;

/// A key with a rule for its values (Aeron wiki, channel configuration).
#[derive(Clone, Copy, Debug, PartialEq, Eq)]
pub enum Key {
    /// Where the datagrams arrive.
    Endpoint,
    /// Where destinations are named.
    Control,
    /// How long a datagram may be, in bytes.
    Mtu,
    /// How long a term is, in bytes.
    TermLength,
    /// Which session the channel is of.
    SessionId,
    /// For how long a closed log is kept, in nanoseconds where there is no unit.
    Linger,
    /// Who names destinations.
    ControlMode,
    /// From which interface datagrams are sent; not served.
    Interface,
    /// Labels of channels that belong together; not served.
    Tags,
}

impl Key {
    /// Every key with a rule.
    pub const EVERY: [Key; 9] = [
        Key::Endpoint,
        Key::Control,
        Key::Mtu,
        Key::TermLength,
        Key::SessionId,
        Key::Linger,
        Key::ControlMode,
        Key::Interface,
        Key::Tags,
    ];

    /// The key as it stands in a channel.
    #[tactic(auto, unfolding(crate::specs::Key::key_of))]
    pub fn text(self) -> &'static str
        ensures text { result.now ≡ key_text self }
        ensures read_back { key_of result.now ≡ Some self }
    {
        match self {
            Key::Endpoint => "endpoint",
            Key::Control => "control",
            Key::Mtu => "mtu",
            Key::TermLength => "term-length",
            Key::SessionId => "session-id",
            Key::Linger => "linger",
            Key::ControlMode => "control-mode",
            Key::Interface => "interface",
            Key::Tags => "tags",
        }
    }

    /// The key of that text; `None` for a key that has no rule.
    #[tactic(auto, unfolding(crate::specs::Key::key_of))]
    pub fn from_text(text: &str) -> Option<Key>
        ensures { result ≡ key_of text.now }
    {
        Key::EVERY.iter().copied().find(|key| key.text() == text)
    }
}

impl fmt::Display for Key {
    ghost output = { λ key. Some (key_text key) };

    fn fmt<W: fmt::Write>(&self, f: &mut fmt::Formatter<W>) -> fmt::Result {
        f.write_str(self.text())
    }
}
