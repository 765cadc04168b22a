//! What holds over every run: each function does nothing, and its clause is the law.

ghost use Rattle.driver_world.specs.Laws.{RunsAreOfTheDriver};
ghost use Rattle.driver_world.specs.ViewLaws.{RegistriesWereNewest, ViewsOnlyRise};

/// A run of a world is one of its driver, with the same answers: so what is said of all runs of a driver holds of worlds.
pub fn runs_are_of_the_driver()
    ensures { RunsAreOfTheDriver }
{}

/// Each registry up to the newest, by its number, was the newest itself after some of the run's steps: so a step by an older
/// registry goes by one that the run went through, and its policy was in force then.
pub fn registries_were_newest()
    ensures { RegistriesWereNewest }
{}

/// Whatever step is taken, and whatever it is answered, no actor then stands at an earlier registry or moment than before.
pub fn views_only_rise()
    ensures { ViewsOnlyRise }
{}
