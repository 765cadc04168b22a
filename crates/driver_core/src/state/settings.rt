use channel_uri::Address;

/// What a driver is set to. Moments and durations are nanoseconds, sizes are bytes.
#[derive(Clone, Copy, Debug, PartialEq, Eq)]
pub struct Settings {
    /// How long a client may be silent.
    pub client_liveness: u64,
    /// How long the sender of an image may be silent.
    pub image_liveness: u64,
    /// How long a publication stays once its last registration is removed.
    pub linger: u64,
    /// How long a status message keeps a publication connected.
    pub connection_timeout: u64,
    /// How long a status message keeps the address from which it came a destination, where these are learnt.
    pub destination_timeout: u64,
    /// How long a range that was resent is not resent again.
    pub resend_linger: u64,
    /// How long a gap stands before it is asked for.
    pub nak_delay: u64,
    /// How long it takes until a gap is asked for again.
    pub nak_repeat: u64,
    /// How long it takes from one setup frame to the next.
    pub setup_interval: u64,
    /// How long a sender is silent before it sends a heartbeat.
    pub heartbeat_interval: u64,
    /// How long it takes from one status message to the next.
    pub status_interval: u64,
    /// The length of a term where a channel names none.
    pub term_length: u32,
    /// The greatest datagram where a channel names none.
    pub mtu: u32,
    /// How many pages of 4,096 bytes the logs share.
    pub arena_pages: u32,
    /// How many images may be open whose publisher sends from one source address, whatever its port: 1 to 512.
    pub images_per_source: u32,
    /// The first session id that is drawn.
    pub first_session: i32,
    /// The term id at which a log begins.
    pub initial_term: i32,
    /// The id by which this driver names itself in status messages.
    pub receiver_id: u64,
    /// The address from which all datagrams are sent.
    pub send_address: Address,
}

impl Default for Settings {
    ghost use Rattle.driver_core.specs.Settings.{default_settings};
    ghost use Rattle.std.specs.Prelude.{◌≡◌};

    ghost is_default = { λ settings. settings ≡ default_settings };

    fn default() -> Settings {
        Settings {
            client_liveness: 10_000_000_000,
            image_liveness: 10_000_000_000,
            linger: 5_000_000_000,
            connection_timeout: 5_000_000_000,
            destination_timeout: 5_000_000_000,
            resend_linger: 60_000_000,
            nak_delay: 1_000_000,
            nak_repeat: 60_000_000,
            setup_interval: 100_000_000,
            heartbeat_interval: 100_000_000,
            status_interval: 200_000_000,
            term_length: 65_536,
            mtu: 1_408,
            arena_pages: 4_096,
            images_per_source: 512,
            first_session: 1,
            initial_term: 0,
            receiver_id: 1,
            send_address: Address {
                octets: [127, 0, 0, 1],
                port: 40_000,
            },
        }
    }
}
