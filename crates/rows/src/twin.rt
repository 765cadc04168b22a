ghost use Rattle.std.specs.Prelude.{◌≡◌};

/// What has another one that is equal to it without memory.
pub trait Twin: Drop {
    fn twin(&self) -> Self
        ensures { result ≡ self.now };

    /// Becomes equal to another one. It takes no memory.
    fn set_from(&mut self, other: &Self)
        ensures { self.new ≡ other.now };
}

impl Twin for u64 {
    fn twin(&self) -> u64 {
        *self
    }

    fn set_from(&mut self, other: &u64) {
        *self = *other;
    }
}
