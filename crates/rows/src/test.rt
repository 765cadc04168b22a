ghost use Rattle.std.specs.Prelude.{◌≡◌, Bool};

/// A test of rows.
pub trait Test<T> {
    /// Whether a row passes.
    ghost keeps: { Self → T → Bool };

    fn keeps(&self, row: &T) -> bool
        ensures { result ≡ Self.keeps self.now row.now };
}
