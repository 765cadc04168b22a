use channel_uri::{Address, Channel, address_of};
use std::alloc::Global;

/// An address, a text, and whether a channel names the address by that text.
type Row = ([u8; 4], u16, &'static str, bool);

static ADDRESSES: [Row; 8] = [
    ([127, 0, 0, 1], 40123, "127.0.0.1:40123", true),
    ([0, 0, 0, 0], 1, "0.0.0.0:1", true),
    ([223, 255, 255, 255], 9, "223.255.255.255:9", true),
    ([255, 255, 255, 255], 65535, "255.255.255.255:65535", true),
    ([10, 20, 109, 100], 8010, "10.20.109.100:8010", true),
    ([1, 2, 3, 4], 5, "1.2.3.4:05", false),
    ([1, 2, 3, 4], 5, "4.3.2.1:5", false),
    // A group of hosts has a text, which no channel may name.
    ([224, 0, 0, 1], 5, "224.0.0.1:5", false),
];

/// Whether the address is written so.
fn is_written(alloc: Global, address: &Address, text: &str) -> bool {
    match address.to_string(alloc) {
        Ok(shown) => (shown.as_str() == text) & (address.text().as_str() == text),
        Err(_) => false,
    }
}

fn are_read_back(alloc: Global, rows: &[Row]) -> bool {
    for &(octets, port, text, wanted) in rows {
        let address = Address { octets, port };
        let same = is_written(alloc, &address, text) & (address_of(text) == Some(address));
        if same != wanted {
            return false;
        }
    }
    true
}

const AT: &str = "aeron:udp?endpoint=127.0.0.1:40123";

/// Texts, and whether each denotes the channel above.
static TEXTS: [(&str, bool); 3] = [
    (AT, true),
    ("aeron:udp?endpoint=localhost:40123", true),
    ("aeron:udp?endpoint=127.0.0.1:40123|mtu=1408", false),
];

/// Whether the channel is the one above, at the address.
fn is_of(alloc: Global, channel: &Channel, address: &Address) -> bool {
    match channel.canonical(alloc) {
        Ok(text) => {
            (text.as_str() == AT) & (channel.endpoint() == Some(*address)) & channel.is_at(address)
        }
        Err(_) => false,
    }
}

fn denotes(alloc: Global, text: &str, address: &Address) -> bool {
    match Channel::parse(text) {
        Ok(channel) => is_of(alloc, &channel, address),
        Err(_) => false,
    }
}

/// Whether the channel of the address is the one above, and each text denotes it or does not.
fn denote(alloc: Global, rows: &[(&str, bool)]) -> bool {
    let address = Address {
        octets: [127, 0, 0, 1],
        port: 40123,
    };
    let mut same = is_of(alloc, &Channel::at_endpoint(&address), &address);
    for &(text, wanted) in rows {
        same &= denotes(alloc, text, &address) == wanted;
    }
    same
}

/// Addresses, and whether each is `1.2.3.4:5`.
static OTHERS: [([u8; 4], u16, bool); 3] = [
    ([1, 2, 3, 4], 5, true),
    ([1, 2, 3, 5], 5, false),
    ([1, 2, 3, 4], 6, false),
];

/// Whether the channel of that address is at the other one, and the two are one address, where the row says so alone.
fn are_told_apart(rows: &[([u8; 4], u16, bool)]) -> bool {
    let first = Address {
        octets: [1, 2, 3, 4],
        port: 5,
    };
    for &(octets, port, wanted) in rows {
        let other = Address { octets, port };
        let is_at = Channel::at_endpoint(&first).is_at(&other);
        if is_at != wanted || first.is(&other) != wanted {
            return false;
        }
    }
    true
}

#[test]
fn addresses_have_texts_and_channels(rt: HostRuntime) {
    let written = are_read_back(rt.alloc(), &ADDRESSES);
    assert!(rt; written & denote(rt.alloc(), &TEXTS) & are_told_apart(&OTHERS));
}
