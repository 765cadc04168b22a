// The order in which messages come: each has 8 bytes, by which it names its publisher and its number.

/// How many messages each publisher offers.
pub(crate) const MESSAGES: u32 = 1_000;

/// The bytes of a message.
pub(crate) fn message(publisher: u32, number: u32) -> [u8; 8] {
    let [a, b, c, d] = publisher.to_le_bytes();
    let [e, f, g, h] = number.to_le_bytes();
    [a, b, c, d, e, f, g, h]
}

/// What came so far of two publishers: how many messages of each, all in their order.
#[derive(Clone, Copy)]
pub(crate) struct Came {
    counts: [u32; 2],
}

impl Came {
    pub(crate) fn nothing() -> Came {
        Came { counts: [0, 0] }
    }

    /// Whether the bytes are the next message of one of them, which has come then.
    pub(crate) fn takes(&mut self, bytes: &[u8]) -> bool {
        for publisher in 0..2 {
            let count = self.counts[publisher as usize];
            if bytes == message(publisher, count).as_slice() {
                self.counts[publisher as usize] = count.saturating_add(1);
                return true;
            }
        }
        false
    }

    /// Whether all have come.
    pub(crate) fn is_all(&self) -> bool {
        self.counts == [MESSAGES, MESSAGES]
    }
}
