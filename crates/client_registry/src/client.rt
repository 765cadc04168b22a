ghost use Rattle.std.specs.Prelude.{◌≡◌};

use rows::Twin;

/// A client that is attached.
#[derive(Clone, Copy, Debug, PartialEq, Eq)]
pub struct Client {
    /// The client's id, which no other client ever has.
    pub number: u64,
    /// Whom the client acts for.
    pub principal: u32,
    /// The moment at which the client was last heard of, in nanoseconds.
    pub heard: u64,
}

impl Twin for Client {
    fn twin(&self) -> Client {
        *self
    }

    fn set_from(&mut self, other: &Client) {
        *self = other.twin();
    }
}
