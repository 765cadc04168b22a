ghost use Rattle.stream_gaps.specs.TakenUp.{gap_at, looked};
ghost use Rattle.std.specs.Prelude.{◌≡◌, None};

use crate::gap::Gap;

/// How far the receivers of a stream have taken it, as its publisher sees it by looks at its log.
///
/// Where none is there, the publisher announces the stream by SETUPs, which name the position from which it sends on. A receiver
/// begins where the SETUP says (Aeron Transport Protocol Specification, Setup). So the stream is taken up further on than it was
/// left where such a position, or a later one, is the least that is reported until the first look at which a receiver is there
/// again: one that goes on where it was reports that first.
#[derive(Clone, Copy, Debug, PartialEq, Eq)]
pub struct TakenUp {
    /// Up to which position it was taken at the last look at which a receiver was there; `None` before the first.
    pub left: Option<u64>,
    /// Up to which it was sent then: the SETUPs that went since then name no lesser one.
    pub from: u64,
    /// Up to which it was sent at the last look, if no receiver was there at it: the SETUPs that went until then name no greater
    /// one.
    pub to: Option<u64>,
}

impl TakenUp {
    /// Nobody was there yet.
    pub fn new() -> TakenUp
        ensures { result ≡ record { left = None; from = 0; to = None } }
    {
        TakenUp {
            left: None,
            from: 0,
            to: None,
        }
    }

    /// A look at the log of a session, which was sent up to a position, and taken by each receiver that is there up to another
    /// one; `None` where none is there. `least` is the least position that was reported since the last look at which one was
    /// there. The gap, where it is taken up again further on than it was left.
    pub fn look(&mut self, session: i32, sent: u64, taken: Option<u64>, least: u64) -> Option<Gap>
        ensures gap { result ≡ gap_at self.old session taken least }
        ensures looked { self.new ≡ looked self.old sent taken }
    {
        let before = *self;
        let Some(taken) = taken else {
            self.to = Some(sent);
            return None;
        };
        *self = TakenUp {
            left: Some(taken),
            from: sent,
            to: None,
        };
        let to = before.to?;
        if taken.min(least) < before.from {
            return None;
        }
        Gap::after(session, before.left, taken.min(to))
    }
}
