ghost use Rattle.script_lines.specs.Settings.{BoundsImages, Chooses, chosen, key_among, key_of, no_choices, duration_in, images_of, pages_of, mtu_in, term_length_in, with_duration, with_value};
ghost use Rattle.std.specs.List.{list_any};
ghost use Rattle.std.specs.Prelude.{◌≡◌, map, IfOk, OnErr};
ghost use Rattle.std.specs.Str.{bytes_eq};

use crate::number::number;
use byte_strings::{Items, Text};
use channel_uri::{address_of, mtu_from, session_id_of, term_length_from};
use driver_core::Settings;
use std::alloc::{AllocError, Global};
use std::marker::Model;

/// Durations are below this, as in a channel.
const LIMIT: u64 = 1 << 63;

/// A setting that is a duration, in nanoseconds.
#[derive(Clone, Copy, Debug, PartialEq, Eq)]
pub enum Duration {
    ClientLiveness,
    ImageLiveness,
    Linger,
    ConnectionTimeout,
    DestinationTimeout,
    ResendLinger,
    NakDelay,
    NakRepeat,
    SetupInterval,
    HeartbeatInterval,
    StatusInterval,
}

/// A setting that a script may choose.
#[derive(Clone, Copy, Debug, PartialEq, Eq)]
pub enum Key {
    Duration(Duration),
    TermLength,
    Mtu,
    ArenaPages,
    FirstSession,
    InitialTerm,
    ReceiverId,
    SendAddress,
}

/// The settings that the lines of a script, or the options of a command line, chose so far. The others are the default ones, and a driver may be opened
/// with all of them.
#[derive(Debug, Drop)]
pub struct Choices {
    pub settings: Settings,
    /// The names of the keys that were given.
    given: Items<Text>,
}

impl Model for Choices {
    ghost use Rattle.driver_core.specs.Soundness.{AreSettings};
    ghost use Rattle.script_lines.specs.Settings.{Chosen};

    ghost Value = { Chosen };

    ghost view = { λ choices. record { settings = choices.settings; given = choices.given } };

    ghost invariant = { λ choices. AreSettings choices.settings };
}

/// The key of that name among these.
fn key_among(keys: &[(&str, Key)], name: &str) -> Option<Key>
    ensures { result ≡ key_among (map (λ row. (row.0.now, row.1)) keys.now) name.now }
{
    for (word, key) in keys {
        if *word == name {
            return Some(*key);
        }
    }
    None
}

/// The key of that name.
#[tactic(auto, unfolding(crate::specs::Settings::key_of))]
fn key_of(name: &str) -> Option<Key>
    ensures { result ≡ key_of name.now }
{
    let keys = [
        ("client-liveness", Key::Duration(Duration::ClientLiveness)),
        ("image-liveness", Key::Duration(Duration::ImageLiveness)),
        ("linger", Key::Duration(Duration::Linger)),
        (
            "connection-timeout",
            Key::Duration(Duration::ConnectionTimeout),
        ),
        (
            "destination-timeout",
            Key::Duration(Duration::DestinationTimeout),
        ),
        ("resend-linger", Key::Duration(Duration::ResendLinger)),
        ("nak-delay", Key::Duration(Duration::NakDelay)),
        ("nak-repeat", Key::Duration(Duration::NakRepeat)),
        ("setup-interval", Key::Duration(Duration::SetupInterval)),
        (
            "heartbeat-interval",
            Key::Duration(Duration::HeartbeatInterval),
        ),
        ("status-interval", Key::Duration(Duration::StatusInterval)),
        ("term-length", Key::TermLength),
        ("mtu", Key::Mtu),
        ("arena-pages", Key::ArenaPages),
        ("first-session", Key::FirstSession),
        ("initial-term", Key::InitialTerm),
        ("receiver-id", Key::ReceiverId),
        ("send-address", Key::SendAddress),
    ];
    key_among(&keys, name)
}

/// A duration, in nanoseconds.
fn duration_in(value: &str) -> Option<u64>
    ensures { result ≡ duration_in value.now }
{
    let duration = number(value)?;
    if duration < LIMIT {
        Some(duration)
    } else {
        None
    }
}

/// The length of a term, in bytes.
fn term_length_in(value: &str) -> Option<u32>
    ensures { result ≡ term_length_in value.now }
{
    term_length_from(number(value)?)
}

/// The greatest length of a datagram, in bytes.
fn mtu_in(value: &str) -> Option<u32>
    ensures { result ≡ mtu_in value.now }
{
    mtu_from(number(value)?)
}

/// How many pages the logs may share.
fn pages_of(value: &str) -> Option<u32>
    ensures { result ≡ pages_of value.now }
{
    let pages = number(value)?;
    if pages < 1 {
        return None;
    }
    if pages > 65_536 {
        return None;
    }
    Some(pages as u32)
}

/// How many images one source address may have open.
fn images_of(value: &str) -> Option<u32>
    ensures { result ≡ images_of value.now }
{
    let images = number(value)?;
    if images < 1 {
        return None;
    }
    if images > 512 {
        return None;
    }
    Some(images as u32)
}

/// These settings, with another duration.
fn with_duration(settings: Settings, key: Duration, nanoseconds: u64) -> Settings
    ensures { result ≡ with_duration settings key nanoseconds }
{
    let mut settings = settings;
    match key {
        Duration::ClientLiveness => settings.client_liveness = nanoseconds,
        Duration::ImageLiveness => settings.image_liveness = nanoseconds,
        Duration::Linger => settings.linger = nanoseconds,
        Duration::ConnectionTimeout => settings.connection_timeout = nanoseconds,
        Duration::DestinationTimeout => settings.destination_timeout = nanoseconds,
        Duration::ResendLinger => settings.resend_linger = nanoseconds,
        Duration::NakDelay => settings.nak_delay = nanoseconds,
        Duration::NakRepeat => settings.nak_repeat = nanoseconds,
        Duration::SetupInterval => settings.setup_interval = nanoseconds,
        Duration::HeartbeatInterval => settings.heartbeat_interval = nanoseconds,
        Duration::StatusInterval => settings.status_interval = nanoseconds,
    }
    settings
}

/// These settings, where that key has the value.
fn with_value(settings: Settings, key: Key, value: &str) -> Option<Settings>
    ensures { result ≡ with_value settings key value.now }
{
    let mut settings = settings;
    match key {
        Key::Duration(key) => settings = with_duration(settings, key, duration_in(value)?),
        Key::TermLength => settings.term_length = term_length_in(value)?,
        Key::Mtu => settings.mtu = mtu_in(value)?,
        Key::ArenaPages => settings.arena_pages = pages_of(value)?,
        Key::FirstSession => settings.first_session = session_id_of(value)?,
        Key::InitialTerm => settings.initial_term = session_id_of(value)?,
        Key::ReceiverId => settings.receiver_id = number(value)?,
        Key::SendAddress => settings.send_address = address_of(value)?,
    }
    Some(settings)
}

impl Choices {
    /// Nothing is chosen. It takes no memory.
    pub fn new(alloc: Global) -> Choices
        ensures { result ≡ no_choices }
    {
        Choices {
            settings: Settings::default(),
            given: Items::new(alloc),
        }
    }

    /// Whether the key of that name was given.
    fn is_given(&self, name: &str) -> bool
        ensures { result ≡ list_any (λ given. bytes_eq given name.now) self.now.given }
    {
        self.given
            .as_slice()
            .iter()
            .any(|given| given.as_str() == name)
    }

    /// The settings, where that key has the value, and nothing was chosen for it before.
    fn chosen(&self, name: &str, value: &str) -> Option<Settings>
        ensures { result ≡ chosen self.now name.now value.now }
    {
        if self.is_given(name) {
            return None;
        }
        with_value(self.settings, key_of(name)?, value)
    }

    /// Chooses a value for a key. The answer is `false`, and nothing is changed, where the key is none or was given before,
    /// or the value is out of its range.
    ///
    /// # Errors
    /// Where there is no memory for the name, nothing is changed.
    #[tactic(auto, unfolding(crate::specs::Settings::choose))]
    pub fn choose(&mut self, name: Text, value: &str) -> Result<bool, AllocError>
        ensures ok { IfOk result (λ taken. Chooses self.old self.new name value.now taken) }
        ensures err { OnErr result (self.new ≡ self.old) }
    {
        let Some(settings) = self.chosen(name.as_str(), value) else {
            return Ok(false);
        };
        self.given.push(name)?;
        self.settings = settings;
        Ok(true)
    }

    /// Bounds how many images one source address may have open, which no line of a script does. The answer is `false`, and
    /// nothing is changed, where the value is out of its range.
    pub fn bound_images(&mut self, value: &str) -> bool
        ensures { BoundsImages self.old self.new value.now result }
    {
        let Some(images) = images_of(value) else {
            return false;
        };
        let mut settings = self.settings;
        settings.images_per_source = images;
        self.settings = settings;
        true
    }
}
