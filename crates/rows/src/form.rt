ghost use Rattle.std.specs.Prelude.{◌≡◌};

/// What a row is made of, so that it can be written where it lies.
pub trait Form<T> {
    /// The row that is made of it.
    ghost formed: { Self → T };

    fn make(&self) -> T
        ensures { result ≡ Self.formed self.now };

    /// Writes the row over another one. It takes no memory.
    fn write(&self, row: &mut T)
        ensures { row.new ≡ Self.formed self.now };
}
