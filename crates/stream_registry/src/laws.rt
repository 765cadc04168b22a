//! What holds of all streams: each function does nothing, and its clause is the law.

ghost use Rattle.stream_registry.specs.LimitLaws.{StaysWithinLimits};
ghost use Rattle.stream_registry.specs.PageLaws.{PlacesAreLeast, PlacesShareNothing};
ghost use Rattle.stream_registry.specs.SessionLaws.{SessionsAreFree};
ghost use Rattle.stream_registry.specs.SlotLaws.{SlotsAreFree};

/// The session of a log whose channel states none is the first number from the counter on that no live log has, wherever
/// ids wrap.
pub fn sessions_are_free()
    ensures { SessionsAreFree }
{}

/// There are never more than 256 publications, 512 images, 1,024 registrations and 512 subscriptions, at first and after every call.
pub fn limits_are_kept()
    ensures { StaysWithinLimits }
{}

/// The slot of a new log is the least number that no live log of its kind has. At first and after every call no two live
/// logs of a kind have one slot, and those of publications are below 256, those of images below 512.
pub fn slots_are_free()
    ensures { SlotsAreFree }
{}

/// A place for a new log is found exactly where there is one, and it is the least: its pages are of the arena, no live log
/// has one of them, and from no lower place on is that so.
pub fn places_are_least()
    ensures { PlacesAreLeast }
{}

/// All logs lie within the arena and no two of them have a page in common, at first and after every call, where each log
/// that is made goes to the place for it.
pub fn places_share_nothing()
    ensures { PlacesShareNothing }
{}
