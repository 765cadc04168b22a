ghost use Rattle.message_words.specs.Key.{key_text};
ghost use Rattle.std.specs.Prelude.{◌≡◌, Some};

use std::fmt;

/// The key of a field of a command, a reply or a datagram.
#[derive(Clone, Copy, Debug, PartialEq, Eq)]
pub enum Key {
    /// The id of the client that sends a command.
    Client,
    /// The number by which replies name a command.
    Correlation,
    /// The registration that a command is about.
    Registration,
    /// The registration correlation id of ADD_SUBSCRIPTION.
    RegistrationCorrelation,
    Stream,
    Channel,
    /// A channel in hexadecimal, where it is no plain text.
    ChannelHex,
    /// The type of a counter.
    TypeId,
    /// The key of a counter, in hexadecimal.
    CounterKey,
    /// The label of a counter.
    Label,
    /// A label in hexadecimal, where it is no plain text.
    LabelHex,
    /// The token of TERMINATE_DRIVER, in hexadecimal.
    Token,
    /// The value of a counter.
    Value,
    Session,
    /// The id of a frame's term, or of the active term of a SETUP.
    Term,
    /// In bytes from the start of the term.
    Offset,
    /// The id of the first term of a stream.
    InitialTerm,
    /// How long a term is, in bytes.
    TermLength,
    /// How long a datagram may be, in bytes.
    Mtu,
    /// How many bytes a NAK asks for, or a pad covers.
    Length,
    /// The window of a receiver, in bytes.
    Window,
    /// The id of a receiver.
    Receiver,
    /// The flags of a data frame, a pad or a heartbeat: a byte in hexadecimal.
    Flags,
    /// The payload of a data frame, in hexadecimal.
    Payload,
    /// The text of an error reply.
    Text,
    /// Such a text in hexadecimal, where it is not plain.
    TextHex,
    /// Where an image comes from.
    Origin,
    /// An origin in hexadecimal, where it is not plain.
    OriginHex,
}

impl Key {
    /// The key as words have it.
    pub fn text(self) -> &'static str
        ensures { result.now ≡ key_text self }
    {
        match self {
            Key::Client => "client",
            Key::Correlation => "correlation",
            Key::Registration => "registration",
            Key::RegistrationCorrelation => "registration-correlation",
            Key::Stream => "stream",
            Key::Channel => "channel",
            Key::ChannelHex => "channel-hex",
            Key::TypeId => "type-id",
            Key::CounterKey => "key",
            Key::Label => "label",
            Key::LabelHex => "label-hex",
            Key::Token => "token",
            Key::Value => "value",
            Key::Session => "session",
            Key::Term => "term",
            Key::Offset => "offset",
            Key::InitialTerm => "initial-term",
            Key::TermLength => "term-length",
            Key::Mtu => "mtu",
            Key::Length => "length",
            Key::Window => "window",
            Key::Receiver => "receiver",
            Key::Flags => "flags",
            Key::Payload => "payload",
            Key::Text => "text",
            Key::TextHex => "text-hex",
            Key::Origin => "origin",
            Key::OriginHex => "origin-hex",
        }
    }
}

impl fmt::Display for Key {
    ghost output = { λ key. Some (key_text key) };

    fn fmt<W: fmt::Write>(&self, f: &mut fmt::Formatter<W>) -> fmt::Result {
        f.write_str(self.text())
    }
}
