ghost use Rattle.std.specs.Prelude.{◌≡◌};

/// A change of rows.
pub trait Change<T> {
    /// What becomes of a row.
    ghost changed: { Self → T → T };

    fn change(&self, row: &mut T)
        ensures { row.new ≡ Self.changed self.now row.old };
}
