//! What a driver of `publish`, `subscribe` or `serve` begins with where no word chooses it.

ghost use Rattle.aeron_policyd.specs.Usual.{with_delay, with_interval, with_linger, with_pages, with_repeat, with_terms};
ghost use Rattle.driver_core.specs.Soundness.{AreSettings};
ghost use Rattle.std.specs.Prelude.{◌≡◌};

use driver_core::Settings;

/// How long a term of a publication is, in bytes: a slow subscriber of several is sent again what is at most so far back.
const TERM: u32 = 1_048_576;

/// How many pages the logs of a subscriber share: those of 21 publishers that begin so.
const PAGES: u32 = 16_384;

/// How long a gap stands before it is asked for, in nanoseconds: datagrams that overtake each other are rarely further apart.
const DELAY: u64 = 200_000;

/// How long until a gap is asked for again, in nanoseconds: a lost request, or a lost retransmission, holds a stream up for so long.
const REPEAT: u64 = 10_000_000;

/// How long a range that was resent is not resent again, in nanoseconds: less than until a gap is asked for again, so that the second
/// request is not in vain.
const LINGER: u64 = 9_000_000;

/// How long it takes at most until a subscriber says how far it has come, in nanoseconds: a lost report holds a stream up for so long.
const INTERVAL: u64 = 20_000_000;

/// Those of each driver. `chosen` says whether a word chooses how long a gap stands before it is asked for.
pub(crate) fn asking_settings(chosen: bool, settings: Settings) -> Settings
    requires { AreSettings settings }
    ensures sound { AreSettings result }
    ensures delay { result ≡ with_delay chosen settings }
{
    if chosen {
        return settings;
    }
    Settings {
        nak_delay: DELAY,
        ..settings
    }
}

/// Those of each driver. `chosen` says whether a word chooses how long until a gap is asked for again.
pub(crate) fn repeating_settings(chosen: bool, settings: Settings) -> Settings
    requires { AreSettings settings }
    ensures sound { AreSettings result }
    ensures repeat { result ≡ with_repeat chosen settings }
{
    if chosen {
        return settings;
    }
    Settings {
        nak_repeat: REPEAT,
        ..settings
    }
}

/// Those of each driver. `chosen` says whether a word chooses how long a range that was resent is not resent again.
pub(crate) fn lingering_settings(chosen: bool, settings: Settings) -> Settings
    requires { AreSettings settings }
    ensures sound { AreSettings result }
    ensures linger { result ≡ with_linger chosen settings }
{
    if chosen {
        return settings;
    }
    Settings {
        resend_linger: LINGER,
        ..settings
    }
}

/// Those of a subscriber's driver. `chosen` says whether a word chooses how often it says how far it has come.
pub(crate) fn reporting_settings(chosen: bool, settings: Settings) -> Settings
    requires { AreSettings settings }
    ensures sound { AreSettings result }
    ensures interval { result ≡ with_interval chosen settings }
{
    if chosen {
        return settings;
    }
    Settings {
        status_interval: INTERVAL,
        ..settings
    }
}

/// Those of a publisher's driver. `chosen` says whether a word chooses the length of its terms.
pub(crate) fn publishing_settings(chosen: bool, settings: Settings) -> Settings
    requires { AreSettings settings }
    ensures sound { AreSettings result }
    ensures terms { result ≡ with_terms chosen settings }
{
    if chosen {
        return settings;
    }
    Settings {
        term_length: TERM,
        ..settings
    }
}

/// Those of a subscriber's driver. `chosen` says whether a word chooses how many pages its logs share.
pub(crate) fn subscribing_settings(chosen: bool, settings: Settings) -> Settings
    requires { AreSettings settings }
    ensures sound { AreSettings result }
    ensures pages { result ≡ with_pages chosen settings }
{
    if chosen {
        return settings;
    }
    Settings {
        arena_pages: PAGES,
        ..settings
    }
}
