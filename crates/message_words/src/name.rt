ghost use Rattle.message_words.specs.Name.{command_keys, command_text, frame_keys, frame_text, keys_of, name_of, name_text};
ghost use Rattle.std.specs.Prelude.{◌≡◌};

use crate::key::Key;

/// The name of a command.
#[derive(Clone, Copy, Debug, PartialEq, Eq)]
pub enum CommandName {
    AddPublication,
    RemovePublication,
    AddExclusivePublication,
    AddSubscription,
    RemoveSubscription,
    ClientKeepalive,
    AddDestination,
    RemoveDestination,
    AddCounter,
    RemoveCounter,
    ClientClose,
    TerminateDriver,
    SetCounter,
}

/// The name of a frame that is a datagram.
#[derive(Clone, Copy, Debug, PartialEq, Eq)]
pub enum FrameName {
    Data,
    Pad,
    Heartbeat,
    Nak,
    StatusMessage,
    Setup,
}

/// The name of a command or a datagram.
#[derive(Clone, Copy, Debug, PartialEq, Eq)]
pub enum Name {
    Command(CommandName),
    Frame(FrameName),
}

impl CommandName {
    /// The name as words have it.
    pub fn text(self) -> &'static str
        ensures { result.now ≡ command_text self }
    {
        match self {
            CommandName::AddPublication => "add-publication",
            CommandName::RemovePublication => "remove-publication",
            CommandName::AddExclusivePublication => "add-exclusive-publication",
            CommandName::AddSubscription => "add-subscription",
            CommandName::RemoveSubscription => "remove-subscription",
            CommandName::ClientKeepalive => "client-keepalive",
            CommandName::AddDestination => "add-destination",
            CommandName::RemoveDestination => "remove-destination",
            CommandName::AddCounter => "add-counter",
            CommandName::RemoveCounter => "remove-counter",
            CommandName::ClientClose => "client-close",
            CommandName::TerminateDriver => "terminate-driver",
            CommandName::SetCounter => "set-counter",
        }
    }

    /// The keys of its fields, in their order.
    fn keys(self) -> &'static [Key]
        ensures { result.now ≡ command_keys self }
    {
        match self {
            CommandName::AddPublication => &[
                Key::Client,
                Key::Correlation,
                Key::Stream,
                Key::Channel,
                Key::ChannelHex,
            ],
            CommandName::RemovePublication => &[Key::Client, Key::Correlation, Key::Registration],
            CommandName::AddExclusivePublication => &[
                Key::Client,
                Key::Correlation,
                Key::Stream,
                Key::Channel,
                Key::ChannelHex,
            ],
            CommandName::AddSubscription => &[
                Key::Client,
                Key::Correlation,
                Key::RegistrationCorrelation,
                Key::Stream,
                Key::Channel,
                Key::ChannelHex,
            ],
            CommandName::RemoveSubscription => &[Key::Client, Key::Correlation, Key::Registration],
            CommandName::ClientKeepalive => &[Key::Client, Key::Correlation],
            CommandName::AddDestination => &[
                Key::Client,
                Key::Correlation,
                Key::Registration,
                Key::Channel,
                Key::ChannelHex,
            ],
            CommandName::RemoveDestination => &[
                Key::Client,
                Key::Correlation,
                Key::Registration,
                Key::Channel,
                Key::ChannelHex,
            ],
            CommandName::AddCounter => &[
                Key::Client,
                Key::Correlation,
                Key::TypeId,
                Key::CounterKey,
                Key::Label,
                Key::LabelHex,
            ],
            CommandName::RemoveCounter => &[Key::Client, Key::Correlation, Key::Registration],
            CommandName::ClientClose => &[Key::Client, Key::Correlation],
            CommandName::TerminateDriver => &[Key::Client, Key::Correlation, Key::Token],
            CommandName::SetCounter => &[
                Key::Client,
                Key::Correlation,
                Key::Registration,
                Key::Value,
            ],
        }
    }
}

impl FrameName {
    /// The name as words have it.
    pub fn text(self) -> &'static str
        ensures { result.now ≡ frame_text self }
    {
        match self {
            FrameName::Data => "data",
            FrameName::Pad => "pad",
            FrameName::Heartbeat => "heartbeat",
            FrameName::Nak => "nak",
            FrameName::StatusMessage => "status-message",
            FrameName::Setup => "setup",
        }
    }

    /// The keys of its fields, in their order.
    fn keys(self) -> &'static [Key]
        ensures { result.now ≡ frame_keys self }
    {
        match self {
            FrameName::Data => &[
                Key::Session,
                Key::Stream,
                Key::Term,
                Key::Offset,
                Key::Flags,
                Key::Payload,
            ],
            FrameName::Pad => &[
                Key::Session,
                Key::Stream,
                Key::Term,
                Key::Offset,
                Key::Flags,
                Key::Length,
            ],
            FrameName::Heartbeat => &[
                Key::Session,
                Key::Stream,
                Key::Term,
                Key::Offset,
                Key::Flags,
            ],
            FrameName::Nak => &[
                Key::Session,
                Key::Stream,
                Key::Term,
                Key::Offset,
                Key::Length,
            ],
            FrameName::StatusMessage => &[
                Key::Session,
                Key::Stream,
                Key::Term,
                Key::Offset,
                Key::Window,
                Key::Receiver,
            ],
            FrameName::Setup => &[
                Key::Session,
                Key::Stream,
                Key::Term,
                Key::Offset,
                Key::InitialTerm,
                Key::TermLength,
                Key::Mtu,
            ],
        }
    }
}

impl Name {
    /// Every name.
    pub const EVERY: [Name; 19] = [
        Name::Command(CommandName::AddPublication),
        Name::Command(CommandName::RemovePublication),
        Name::Command(CommandName::AddExclusivePublication),
        Name::Command(CommandName::AddSubscription),
        Name::Command(CommandName::RemoveSubscription),
        Name::Command(CommandName::ClientKeepalive),
        Name::Command(CommandName::AddDestination),
        Name::Command(CommandName::RemoveDestination),
        Name::Command(CommandName::AddCounter),
        Name::Command(CommandName::RemoveCounter),
        Name::Command(CommandName::ClientClose),
        Name::Command(CommandName::TerminateDriver),
        Name::Command(CommandName::SetCounter),
        Name::Frame(FrameName::Data),
        Name::Frame(FrameName::Pad),
        Name::Frame(FrameName::Heartbeat),
        Name::Frame(FrameName::Nak),
        Name::Frame(FrameName::StatusMessage),
        Name::Frame(FrameName::Setup),
    ];

    /// The name as words have it.
    pub fn text(self) -> &'static str
        ensures { result.now ≡ name_text self }
    {
        match self {
            Name::Command(name) => name.text(),
            Name::Frame(name) => name.text(),
        }
    }

    /// What has this name.
    #[tactic(auto, unfolding(crate::specs::Name::name_of))]
    pub fn from_text(text: &str) -> Option<Name>
        ensures { result ≡ name_of text.now }
    {
        Name::EVERY.iter().copied().find(|name| name.text() == text)
    }

    /// The keys of its fields, in their order.
    pub fn keys(self) -> &'static [Key]
        ensures { result.now ≡ keys_of self }
    {
        match self {
            Name::Command(name) => name.keys(),
            Name::Frame(name) => name.keys(),
        }
    }
}
