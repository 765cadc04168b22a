use byte_strings::Text;
use driver_core::{Address, Settings};
use script_lines::settings::Choices;
use std::alloc::{AllocError, Global};

/// What the settings of a script begin with.
const DEFAULT: Settings = Settings {
    client_liveness: 10_000_000_000,
    image_liveness: 10_000_000_000,
    linger: 5_000_000_000,
    connection_timeout: 5_000_000_000,
    destination_timeout: 5_000_000_000,
    resend_linger: 60_000_000,
    nak_delay: 1_000_000,
    nak_repeat: 60_000_000,
    setup_interval: 100_000_000,
    heartbeat_interval: 100_000_000,
    status_interval: 200_000_000,
    term_length: 65_536,
    mtu: 1_408,
    arena_pages: 4_096,
    images_per_source: 512,
    first_session: 1,
    initial_term: 0,
    receiver_id: 1,
    send_address: Address {
        octets: [127, 0, 0, 1],
        port: 40_000,
    },
};

/// Whether the choice is taken.
fn choose(
    alloc: Global,
    choices: &mut Choices,
    key: &str,
    value: &str,
) -> Result<bool, AllocError> {
    choices.choose(Text::new(alloc, key)?, value)
}

/// Whether a setting was chosen, or is not the default one.
fn is_chosen(alloc: Global, key: &str, value: &str) -> Result<bool, AllocError> {
    let mut choices = Choices::new(alloc);
    let chosen = choose(alloc, &mut choices, key, value);
    let differs = choices.settings != DEFAULT;
    drop(choices);
    Ok(chosen? || differs)
}

/// Whether the key takes each of these values, or none of them.
fn takes(alloc: Global, key: &str, values: &[&str], taken: bool) -> bool {
    for &value in values {
        if is_chosen(alloc, key, value) != Ok(taken) {
            return false;
        }
    }
    true
}

/// Keys, values that each of them takes, values that none of them takes, and whether that is so.
type Row = (
    &'static [&'static str],
    &'static [&'static str],
    &'static [&'static str],
    bool,
);

static VALUES: [Row; 10] = [
    (
        &[
            "client-liveness",
            "image-liveness",
            "linger",
            "connection-timeout",
            "destination-timeout",
            "resend-linger",
            "nak-delay",
            "nak-repeat",
            "setup-interval",
            "heartbeat-interval",
            "status-interval",
        ],
        &["0", "9223372036854775807", "007"],
        &["-1", "-0", "9223372036854775808", "5s", "+5", "", "1 2"],
        true,
    ),
    (
        &["receiver-id"],
        &["0", "18446744073709551615", "007"],
        &["-1", "18446744073709551616", "+5"],
        true,
    ),
    (
        &["term-length"],
        &["65536", "16777216", "0131072"],
        &[
            "65535",
            "32768",
            "98304",
            "16777217",
            "33554432",
            "64k",
            "18446744073709617152",
        ],
        true,
    ),
    (
        &["mtu"],
        &["64", "65504", "0001408"],
        &[
            "63",
            "32",
            "65",
            "65505",
            "65536",
            "1k",
            "-64",
            "18446744073709553024",
        ],
        true,
    ),
    (
        &["arena-pages"],
        &["1", "65536", "001"],
        &["0", "65537", "-1", "18446744073709551617"],
        true,
    ),
    (
        &["first-session", "initial-term"],
        &["-2147483648", "2147483647", "0", "-0", "-007", "007"],
        &["-2147483649", "2147483648", "+1", "--1", "-", "", "0x1"],
        true,
    ),
    (
        &["send-address"],
        &[
            "0.0.0.0:1",
            "255.255.255.255:65535",
            "223.0.0.1:40000",
            "240.0.0.1:40000",
        ],
        &[
            "127.0.0.1:0",
            "127.0.0.1:65536",
            "127.0.0.1:040000",
            "127.0.00.1:40000",
            "256.0.0.1:40000",
            "224.0.0.1:40000",
            "239.255.255.255:40000",
            "127.0.0:40000",
            "127.0.0.1",
            "localhost:40000",
            "",
        ],
        true,
    ),
    (
        &[
            "session-id",
            "images-per-source",
            "Mtu",
            "mtu=",
            "client_liveness",
            "term-lengths",
            "linge",
            "",
        ],
        &[],
        &["8", "1408", "65536"],
        true,
    ),
    (&["linger", "mtu"], &["64", "1"], &[], false),
    (&["mtu", "linge"], &[], &["1", "1408"], false),
];

/// Whether each key takes each of the first values and none of the others.
fn take(alloc: Global, keys: &[&str], taken: &[&str], refused: &[&str]) -> bool {
    for &key in keys {
        if !takes(alloc, key, taken, true) || !takes(alloc, key, refused, false) {
            return false;
        }
    }
    true
}

fn rows_take(alloc: Global, rows: &[Row]) -> bool {
    for &(keys, taken, refused, wanted) in rows {
        if take(alloc, keys, taken, refused) != wanted {
            return false;
        }
    }
    true
}

#[test]
fn keys_take_their_values(rt: HostRuntime) {
    assert!(rt; rows_take(rt.alloc(), &VALUES));
}

/// A key, its value, the settings where nothing else is chosen, and whether they are so.
static CHOSEN: [(&str, &str, Settings, bool); 21] = [
    (
        "client-liveness",
        "3",
        Settings {
            client_liveness: 3,
            ..DEFAULT
        },
        true,
    ),
    (
        "image-liveness",
        "3",
        Settings {
            image_liveness: 3,
            ..DEFAULT
        },
        true,
    ),
    (
        "linger",
        "3",
        Settings {
            linger: 3,
            ..DEFAULT
        },
        true,
    ),
    (
        "connection-timeout",
        "3",
        Settings {
            connection_timeout: 3,
            ..DEFAULT
        },
        true,
    ),
    (
        "destination-timeout",
        "3",
        Settings {
            destination_timeout: 3,
            ..DEFAULT
        },
        true,
    ),
    (
        "resend-linger",
        "3",
        Settings {
            resend_linger: 3,
            ..DEFAULT
        },
        true,
    ),
    (
        "nak-delay",
        "3",
        Settings {
            nak_delay: 3,
            ..DEFAULT
        },
        true,
    ),
    (
        "nak-repeat",
        "3",
        Settings {
            nak_repeat: 3,
            ..DEFAULT
        },
        true,
    ),
    (
        "setup-interval",
        "3",
        Settings {
            setup_interval: 3,
            ..DEFAULT
        },
        true,
    ),
    (
        "heartbeat-interval",
        "3",
        Settings {
            heartbeat_interval: 3,
            ..DEFAULT
        },
        true,
    ),
    (
        "status-interval",
        "3",
        Settings {
            status_interval: 3,
            ..DEFAULT
        },
        true,
    ),
    (
        "term-length",
        "131072",
        Settings {
            term_length: 131_072,
            ..DEFAULT
        },
        true,
    ),
    ("mtu", "64", Settings { mtu: 64, ..DEFAULT }, true),
    (
        "arena-pages",
        "48",
        Settings {
            arena_pages: 48,
            ..DEFAULT
        },
        true,
    ),
    (
        "arena-pages",
        "65536",
        Settings {
            arena_pages: 65_536,
            ..DEFAULT
        },
        true,
    ),
    (
        "first-session",
        "-5",
        Settings {
            first_session: -5,
            ..DEFAULT
        },
        true,
    ),
    (
        "initial-term",
        "-2147483648",
        Settings {
            initial_term: -2_147_483_648,
            ..DEFAULT
        },
        true,
    ),
    (
        "receiver-id",
        "18446744073709551615",
        Settings {
            receiver_id: 18_446_744_073_709_551_615,
            ..DEFAULT
        },
        true,
    ),
    (
        "send-address",
        "10.0.0.255:65535",
        Settings {
            send_address: Address {
                octets: [10, 0, 0, 255],
                port: 65_535,
            },
            ..DEFAULT
        },
        true,
    ),
    (
        "nak-delay",
        "4",
        Settings {
            nak_delay: 3,
            ..DEFAULT
        },
        false,
    ),
    (
        "linger",
        "3",
        Settings {
            client_liveness: 3,
            ..DEFAULT
        },
        false,
    ),
];

/// Whether a first choice is taken, and not taken again.
fn is_taken_once(
    alloc: Global,
    choices: &mut Choices,
    key: &str,
    value: &str,
) -> Result<bool, AllocError> {
    let begins = choices.settings == DEFAULT;
    Ok(choose(alloc, choices, key, value)? & !choose(alloc, choices, key, value)? & begins)
}

/// Whether a choice is taken, and not taken again, and leaves these settings.
fn chooses(alloc: Global, key: &str, value: &str, settings: &Settings) -> Result<bool, AllocError> {
    let mut choices = Choices::new(alloc);
    let taken = is_taken_once(alloc, &mut choices, key, value);
    let same = choices.settings == *settings;
    drop(choices);
    Ok(taken? && same)
}

fn all_choose(alloc: Global, rows: &[(&str, &str, Settings, bool)]) -> bool {
    for (key, value, settings, wanted) in rows {
        if chooses(alloc, key, value, settings) != Ok(*wanted) {
            return false;
        }
    }
    true
}

#[test]
fn a_setting_is_that_of_its_key(rt: HostRuntime) {
    assert!(rt; all_choose(rt.alloc(), &CHOSEN));
}

/// A value for the images of one source address, and how many there may be then; `None` where it is none.
static IMAGES: [(&str, Option<u32>); 9] = [
    ("1", Some(1)),
    ("008", Some(8)),
    ("512", Some(512)),
    ("0", None),
    ("513", None),
    ("-1", None),
    ("+8", None),
    ("", None),
    ("18446744073709551617", None),
];

/// Whether such a value bounds the images of one source address so, and nothing else.
fn bounds(alloc: Global, value: &str, wanted: Option<u32>) -> bool {
    let mut choices = Choices::new(alloc);
    let taken = choices.bound_images(value);
    let settings = choices.settings;
    drop(choices);
    let images = wanted.unwrap_or(DEFAULT.images_per_source);
    let same = Settings {
        images_per_source: images,
        ..DEFAULT
    };
    taken == wanted.is_some() && settings == same
}

fn all_bound(alloc: Global, rows: &[(&str, Option<u32>)]) -> bool {
    for (value, wanted) in rows {
        if !bounds(alloc, value, *wanted) {
            return false;
        }
    }
    true
}

#[test]
fn images_of_one_source_are_bounded_beside_the_keys(rt: HostRuntime) {
    assert!(rt; all_bound(rt.alloc(), &IMAGES));
}
