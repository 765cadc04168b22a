//! Logs of remote streams whose frames are a publication's: what comes to them and what polls give of them. Each function does
//! nothing, and its clause is the law.

ghost use Rattle.two_drivers.specs.LineLaws.{LinesAreRuns, MirrorsAreKept, PollsGoOn};
ghost use Rattle.two_drivers.specs.Sending.{DatagramsAreOfTheLog, ReportsAreQuiet, ResendsAreOfTheLog, WholesStayWell};

/// A poll of a log whose frames are a publication's goes on with the frames after those that were passed before.
pub fn polls_go_on()
    ensures { PollsGoOn }
{}

/// Whatever comes to such a log, it stays one.
pub fn mirrors_are_kept()
    ensures { MirrorsAreKept }
{}

/// The frames of a publication's log are sound where they stand, and its sender stands where one begins.
pub fn wholes_stay_well()
    ensures { WholesStayWell }
{}

/// Whatever frames and whichever SETUP are read of the datagram that a publication's log sends next are its own.
pub fn datagrams_are_of_the_log()
    ensures { DatagramsAreOfTheLog }
{}

/// So are those of what it sends again.
pub fn resends_are_of_the_log()
    ensures { ResendsAreOfTheLog }
{}

/// Of what a receiver reports to a publisher, neither frames nor a SETUP are read.
pub fn reports_are_quiet()
    ensures { ReportsAreQuiet }
{}

/// A run of what a receiver keeps is a run of the publication's frames: payloads, flags and positions, pads left out.
pub fn lines_are_runs()
    ensures { LinesAreRuns }
{}
