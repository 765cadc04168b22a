ghost use Rattle.driver_core.specs.State.{State};
ghost use Rattle.std.specs.Prelude.{◌≡◌};

use crate::state::registry::Registry;

/// What shows a registry: one itself, or a holder of one.
pub trait View {
    /// The registry that it shows, as plain data.
    ghost shows: { Self → State };

    /// The registry that it shows.
    fn registry(&self) -> &Registry
        ensures { result.now ≡ shows self.now };
}

impl View for Registry {
    ghost shows = { λ registry. registry };

    fn registry(&self) -> &Registry {
        self
    }
}
