//! A turn of the sender with a log.

ghost use Rattle.log_traffic.specs.Held.{Lies};
ghost use Rattle.log_traffic.specs.Sending.{CanPass, IsCutOf, IsNextOf, SomeDueOf, passed_in};
ghost use Rattle.log_traffic.specs.Whole.{Carries};
ghost use Rattle.std.specs.Prelude.{◌≡◌, IfOk, OnErr};

use crate::any_log::AnyLog;
use crate::cutting::{Cut, Next, Pace, next_datagram, pass};
use std::alloc::{AllocError, Global};
use term_log::LogKind;

impl AnyLog {
    /// The next datagram of the log at a moment, in nanoseconds, if one is due. The inner `None` says that nothing is due, the
    /// outer one that the log is not sent: it is that of a remote stream, or in shared memory. Heartbeats of a publication
    /// that lingers say so. Nothing is changed: [`AnyLog::pass`] moves the log on.
    ///
    /// # Errors
    /// There is no memory for the datagram. Where nothing is due it takes none.
    #[inline(always)]
    pub fn next_datagram(
        &self,
        alloc: Global,
        now: u64,
        pace: &Pace,
        lingers: bool,
    ) -> Result<Option<Option<Next>>, AllocError>
        ensures next { IfOk result (λ next. IsNextOf self.now pace.now now lingers next) }
        ensures passes { IfOk result (λ next. CanPass self.now next) }
        ensures without_memory { OnErr result (SomeDueOf self.now pace.now now) }
    {
        let AnyLog::Term(log) = self else {
            return Ok(None);
        };
        match log.ident().kind {
            LogKind::Udp => Ok(Some(next_datagram(log, alloc, now, pace, lingers)?)),
            LogKind::Ipc => Ok(None),
        }
    }

    /// The log moves on by a datagram that was cut at a moment, in nanoseconds, as [`AnyLog::next_datagram`] gave it, whoever
    /// gets it.
    #[inline(always)]
    pub fn pass(&mut self, now: u64, cut: &Cut)
        requires { IsCutOf self.old cut.now }
        ensures whole { Carries self.old self.new (passed_in now cut.now.kind) }
        ensures lies { Lies self.old self.new }
    {
        match self {
            AnyLog::Term(log) => pass(log, now, cut),
            AnyLog::Image(_) => {}
        }
    }
}
