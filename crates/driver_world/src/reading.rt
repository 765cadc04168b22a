use driver_steps::Step;

/// A step, with the number of the registry that its actor looks at.
#[derive(Debug, Drop)]
pub struct Reading {
    /// `None` for the newest one. The conductor names none.
    pub view: Option<u64>,
    pub step: Step,
}

impl Reading {
    ghost use Rattle.driver_world.specs.declared.reading.Reading.{Reading as Reads};
    ghost use Rattle.std.specs.Prelude.{◌≡◌, None};

    /// The step, by the newest registry.
    pub fn newest(step: Step) -> Reading
        ensures { result ≡ record { view = None; step = step } }
    {
        Reading { view: None, step }
    }
}
