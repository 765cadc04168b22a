ghost use Rattle.std.specs.Prelude.{◌≡◌};

use byte_strings::{ShortBytes, ShortText};
use rows::Twin;

/// A counter of a client. All of it lies in the value itself.
#[derive(Debug, PartialEq, Eq, Drop)]
pub struct Counter {
    /// The registration number.
    pub number: u64,
    /// The id of the client that it belongs to.
    pub client: u64,
    /// What kind of thing is counted; the policy knows the counter by it.
    pub type_id: i32,
    /// Which thing of that kind is counted, in at most 112 bytes of the client's own choice.
    pub key: ShortBytes<112>,
    /// What readers call the counter, in at most 380 bytes.
    pub label: ShortText<380>,
    pub value: i64,
}

impl Counter {
    /// Another counter, equal to this one.
    pub fn copy(&self) -> Counter
        ensures { result ≡ self.now }
    {
        Counter {
            number: self.number,
            client: self.client,
            type_id: self.type_id,
            key: self.key.copy(),
            label: self.label.copy(),
            value: self.value,
        }
    }
}

impl Twin for Counter {
    fn twin(&self) -> Counter {
        self.copy()
    }

    fn set_from(&mut self, other: &Counter) {
        *self = other.twin();
    }
}
