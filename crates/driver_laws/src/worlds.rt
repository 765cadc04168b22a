//! What a world does, by what its driver does: each step goes by the registry that it names, a run is the driver's own, and so
//! what is said of the runs of a driver holds of worlds.

ghost use Rattle.driver_laws.specs.WorldLaws.{RunsAreTheDriversOwn, StepsGoByTheirRegistry, WorldsAreGrantedExactly, WorldsAreServedFromTheLiveLog};

/// At the end of every run of a world a step of the sender, the receiver or a client is the driver's by the registry of the
/// number that it names, or by the newest where it names none: that decides what it is answered, what it does to the logs, and
/// what is decided for its actor, who stands there from then on, at its greatest moment. A number after the one by which the
/// actor went last, or past the newest, is a bad step, and so is a step of the conductor that names one: nothing is changed then.
/// The conductor's steps are the driver's by the newest.
pub fn steps_go_by_their_registry()
    ensures { StepsGoByTheirRegistry }
{}

/// A run of a world is one of the driver, whose steps are the world's own, each by the registry of the number that it names, but
/// for bad ones; their answers are the world's, and so are the registry that was opened and the events that were taken.
pub fn runs_are_the_drivers_own()
    ensures { RunsAreTheDriversOwn }
{}

/// Offers, polls, turns of the sender, status messages by which an address becomes a destination, NAKs and looks at counters by any
/// registry of a world's run are granted exactly where that registry's policy allows them, on the logs as they stand at the end of
/// that run. Such addresses come and go only so.
pub fn worlds_are_granted_exactly()
    ensures { WorldsAreGrantedExactly }
{}

/// A poll of a world, whichever registry it names, gives the next frames of the live log that it asks for, each put there by an
/// offer of that run which was allowed by the registry that it named.
pub fn worlds_are_served_from_the_live_log()
    ensures { WorldsAreServedFromTheLiveLog }
{}
