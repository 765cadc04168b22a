//! Two drivers, of which the second is given what the first sent, in whatever order and however often: `TwoWorlds`.
//!
//! And the promise on what the polls of the second give of a publication of the first: of the logs of both in [`mirrors`], and
//! here of two drivers, of two worlds, and by what their registries say. Each function here does nothing, and its clause is the
//! law.
#![tactic(auto)]

pub mod mirrors;
mod pair_step;
mod sent;
mod worlds;

ghost use Rattle.two_drivers.specs.Drivers.{SecondGivesARun};
ghost use Rattle.two_drivers.specs.Given.{GoodDatagramsAreMirrored};
ghost use Rattle.two_drivers.specs.Polling.{PollsGiveARun};
ghost use Rattle.two_drivers.specs.Publication.{RunGivesARunOfThePublication, SecondGivesARunOfThePublication};
ghost use Rattle.two_drivers.specs.Sent.{SentIsGood};
ghost use Rattle.two_drivers.specs.Streams.{ImagesAreOfTheStream, PollsGiveARunOfThePublication};
ghost use Rattle.two_drivers.specs.Worlds.{SecondWorldGivesARun};

pub use pair_step::PairStep;
pub use worlds::TwoWorlds;

/// Where whatever a driver is given of a stream is one publication's, the logs of that stream have its frames alone.
pub fn good_datagrams_are_mirrored()
    ensures { GoodDatagramsAreMirrored }
{}

/// What the polls of one pair give of such a log while the pair is there is a contiguous run of the publication's frames, pads
/// left out, whatever was lost, came twice or in another order, and whichever registries the polls go by.
pub fn polls_give_a_run()
    ensures { PollsGiveARun }
{}

/// Where one publication alone has a session and a stream, whatever frames of them are read of what the driver sends are its own
/// at their positions, and so is each SETUP.
pub fn sent_is_good()
    ensures { SentIsGood }
{}

/// Two drivers: whatever is lost, comes twice or in another order, and whatever either policy does, what the polls of a pair of
/// the second give of a publication of the first, from the pair's coming to its going, are the payloads, flags and positions of
/// a contiguous run of the frames that the first appended, pads left out.
pub fn second_gives_a_run()
    ensures { SecondGivesARun }
{}

/// The same of two worlds, each of whose steps goes by a registry that its actor may look at.
pub fn second_world_gives_a_run()
    ensures { SecondWorldGivesARun }
{}

/// Where the SETUPs of a publication's session and stream that a driver is given are all the publication's, so are the images
/// of them: they have its first term and term length.
pub fn images_are_of_the_stream()
    ensures { ImagesAreOfTheStream }
{}

/// Whatever was lost, came twice or in another order, and whatever either policy does: what the polls of one pair of the second
/// driver give, from the pair's coming to its going, are the payloads, flags and positions of a contiguous run of the frames
/// that the first appended, pads left out.
pub fn polls_give_a_run_of_the_publication()
    ensures { PollsGiveARunOfThePublication }
{}

/// Two worlds in which no event was taken yet, and a publication of the first by its number, where no other one over datagrams has
/// its session and stream: whatever was lost, came twice or in another order, and whatever either policy does, what the polls of
/// one pair of the second give of an image of that session and stream, from the pair's coming to its going, are the payloads,
/// flags and positions of a contiguous run of the frames that the publication had when it was last there, pads left out.
pub fn second_gives_a_run_of_the_publication()
    ensures { SecondGivesARunOfThePublication }
{}

/// The same of the answers of [`TwoWorlds::run`]: its clause says that they are those of a run of both worlds from each two ends
/// that these stand for, and the condition of [`TwoWorlds::new`] is that no event was taken there. The pair may come and go
/// anywhere in the list of steps.
pub fn run_gives_a_run_of_the_publication()
    ensures { RunGivesARunOfThePublication }
{}
