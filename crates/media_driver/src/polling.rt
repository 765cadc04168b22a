//! A client polls a log.

ghost use Rattle.audit_ring.specs.Audit.{KeptOf};
ghost use Rattle.driver_core.specs.Cached.{AreCached};
ghost use Rattle.log_steps.specs.declared.answer.Answer.TheVariants.{Gone};
ghost use Rattle.log_steps.specs.Decided.{decision_for, poll_decision};
ghost use Rattle.log_steps.specs.Moves.{Move, WholeLog};
ghost use Rattle.log_arena.specs.Homes.{Home};
ghost use Rattle.media_agents.specs.declared.journal.Dated.{Dated};
ghost use Rattle.media_agents.specs.Journals.{stamp_of};
ghost use Rattle.media_driver.specs.Audits.{IsDecided, KeepsPolled, ReportsPoll};
ghost use Rattle.media_driver.specs.Clients.{Consults, Looks};
ghost use Rattle.media_driver.specs.Steps.{IsGiving, IsPoll, IsStep, MayLack, poll_answer, poll_of};
ghost use Rattle.published_registry.specs.Histories.{IsContinuedBy, registry_of};
ghost use Rattle.std.specs.Prelude.{◌≡◌, Err, None, IfErr, IfOk, IfSome, IsErr, IsOk, OnErr, OnOk};

use crate::auditing::tell;
use crate::client::Client;
use crate::faults::PollFault;
use crate::hints::{Hint, Hints};
use crate::pacing::Pace;
use crate::remembering::what_was_said_stays;
use decision_cache::Cache;
use driver_core::View;
use log_slots::{Held, lock_soon};
use log_steps::{Answer, Answered, FragmentCopies};
use media_agents::{Clock, CommandSender, DriverNaming, LogAt, Slots, Stamp, Stepped};
use published_registry::{Pass, caches_stay_right_of_later_looks};
use std::alloc::{AllocError, Global};
use std::sync::{Mutex, Wait};

/// Where the log of a source is, by a look that decides nothing. `None` where there is no look.
fn find(pass: Pass, source: u64) -> (Pass, Option<Option<LogAt>>)
    ensures known { IsContinuedBy pass result.0 }
    ensures source { IfSome result.1 (λ found. IfSome found (λ at. at.source ≡ source)) }
{
    match pass.enter() {
        Ok(look) => {
            let at = match look.registry().source(source) {
                Some(row) => Some(LogAt {
                    source,
                    ..LogAt::of(row)
                }),
                None => None,
            };
            (look.leave(), Some(at))
        }
        Err(pass) => (pass, None),
    }
}

/// What came of a step, by that registry.
fn stamped(told: Result<Answered, AllocError>, stamp: Stamp) -> Result<Stepped, AllocError>
    ensures ok { IfOk result (λ it. (it.stamp ≡ stamp) × IfOk told (λ told. (told.answer ≡ it.answer) × (told.decision ≡ it.decision))) }
    ensures was { OnOk result (IsOk told) }
    ensures err { OnErr result (IsErr told) }
{
    Ok(Stepped::of(told?, stamp))
}

/// The hint of the log of a publication. One of an image has none.
fn hint_at(hints: &Hints, at: LogAt) -> Option<&Hint> {
    if at.published {
        hints.of(at.slot)
    } else {
        None
    }
}

/// Waits before a poll for so many fragments, as the polls before it of that log were answered.
fn wait_beside(hints: &Hints, at: LogAt, pace: Pace, limit: u32) {
    pace.wait(hint_at(hints, at), limit);
}

/// The pace after a poll for so many fragments that was answered so.
fn pace_after(hints: &Hints, at: LogAt, pace: Pace, limit: u32, told: &Stepped) -> Pace {
    match &told.answer {
        Answer::Polled(fragments) => pace.after(hint_at(hints, at), limit, fragments),
        _ => Pace::new(),
    }
}

/// One hold of the lock of a log, with one look within it.
fn poll_at<N: DriverNaming, H: Held<N>, R: Wait>(
    rt: &R,
    slot: &Mutex<H>,
    source: u64,
    pass: Pass,
    cache: &mut Cache,
    alloc: Global,
    client: u64,
    subscription: u64,
    limit: u32,
) -> (Pass, Option<Result<Stepped, AllocError>>)
    requires right { AreCached (registry_of pass) cache.old }
    ensures known { IsContinuedBy pass result.0 }
    ensures right { AreCached (registry_of result.0) cache.new }
    ensures stamp { IfSome result.1 (λ told. IfOk told (λ told. told.stamp ≡ stamp_of result.0)) }
    ensures step { IfSome result.1 (λ told. IfOk told (λ told. IsStep N.home (poll_of (registry_of result.0) client subscription source limit) Gone told.answer)) }
    ensures memory { IfSome result.1 (λ told. OnErr told (IsGiving N.home (poll_of (registry_of result.0) client subscription source limit))) }
    ensures decides { IfSome result.1 (λ told. IfOk told (λ told. IsDecided N.home (poll_of (registry_of result.0) client subscription source limit) (decision_for source (poll_decision (registry_of result.0) client subscription)) Gone told.answer told.decision)) }
{
    caches_stay_right_of_later_looks();
    let mut slot = lock_soon(rt, slot);
    slot.holds();
    match pass.enter() {
        Ok(look) => {
            let told = slot.poll(&look, cache, alloc, client, subscription, source, limit);
            let told = stamped(told, Stamp::of(&look));
            (look.leave(), Some(told))
        }
        Err(pass) => (pass, None),
    }
}

/// The same, in the slot that it names. `None` where there is no look.
fn poll_once<N: DriverNaming, R: Wait>(
    rt: &R,
    slots: &Slots<N>,
    at: LogAt,
    pass: Pass,
    cache: &mut Cache,
    alloc: Global,
    client: u64,
    subscription: u64,
    limit: u32,
) -> (Pass, Option<Result<Stepped, AllocError>>)
    requires right { AreCached (registry_of pass) cache.old }
    ensures known { IsContinuedBy pass result.0 }
    ensures right { AreCached (registry_of result.0) cache.new }
    ensures stamp { IfSome result.1 (λ told. IfOk told (λ told. told.stamp ≡ stamp_of result.0)) }
    ensures step { IfSome result.1 (λ told. IfOk told (λ told. IsStep N.home (poll_of (registry_of result.0) client subscription at.source limit) Gone told.answer)) }
    ensures memory { IfSome result.1 (λ told. OnErr told (IsGiving N.home (poll_of (registry_of result.0) client subscription at.source limit))) }
    ensures decides { IfSome result.1 (λ told. IfOk told (λ told. IsDecided N.home (poll_of (registry_of result.0) client subscription at.source limit) (decision_for at.source (poll_decision (registry_of result.0) client subscription)) Gone told.answer told.decision)) }
{
    let place = at.slot as usize;
    if at.published {
        match slots.publications.get(place) {
            Some(slot) => poll_at(
                rt,
                slot,
                at.source,
                pass,
                cache,
                alloc,
                client,
                subscription,
                limit,
            ),
            None => (pass, None),
        }
    } else {
        match slots.images.get(place) {
            Some(slot) => poll_at(
                rt,
                slot,
                at.source,
                pass,
                cache,
                alloc,
                client,
                subscription,
                limit,
            ),
            None => (pass, None),
        }
    }
}

/// Where fragments of an image were taken, its publisher may be due a report.
fn wake(queue: &CommandSender, at: LogAt, told: &Stepped) {
    match &told.answer {
        Answer::Polled(fragments) => {
            if !at.published && fragments.len() > 0 {
                queue.wake_receiver();
            }
        }
        _ => {}
    }
}

/// What the answer of a step says.
fn fragments_of(told: Stepped) -> Result<FragmentCopies, PollFault>
    ensures answer { IfSome (poll_answer result) (λ answer. told.answer ≡ answer) }
    ensures memory { (home : Home) (move : WholeLog → Move) → IfErr result (λ fault. MayLack home move fault) }
    ensures seen { (old new : KeptOf Dated) → IfErr result (λ fault. KeepsPolled fault old new) }
{
    match told.answer {
        Answer::Polled(fragments) => Ok(fragments),
        Answer::Denied(verdict) => Err(PollFault::Denied(verdict)),
        _ => Err(PollFault::Gone),
    }
}

impl<N: DriverNaming, C: Clock> Client<N, C> {
    /// Where the log of a source is: it stays there for as long as the log is open. `None` where there is no look.
    fn log_at(&mut self, source: u64) -> Option<Option<LogAt>>
        ensures looks { Looks self.old self.new }
        ensures source { IfSome result (λ found. IfSome found (λ at. at.source ≡ source)) }
    {
        caches_stay_right_of_later_looks();
        if let Some(at) = self.polled {
            if at.source == source {
                return Some(Some(at));
            }
        }
        let Some(pass) = self.pass.take() else {
            unreachable!()
        };
        let (pass, found) = find(pass, source);
        self.pass = Some(pass);
        self.polled = found.flatten();
        self.pace = Pace::new();
        found
    }

    /// Polls the log of a source by a subscription of this client's: up to `limit` fragments from where it stands. It is one
    /// look, if the client does not remember where that log is, and then one hold of the log's lock with one look within it.
    /// Where the last polls of that log gave something, it may wait before that hold until there is more, some 20 microseconds at
    /// most. What was decided is kept in the client's audit.
    ///
    /// # Errors
    /// The first that applies, by the registry of that look: `Gone`, `Denied`; `NoMemory`, only where there are fragments to
    /// give; or `NoLook`, and then nothing is polled.
    #[tactic(auto, using(crate::proofs::AuditLemmas::step_unseen))]
    pub fn poll<R: Wait>(
        &mut self,
        rt: &R,
        subscription: u64,
        source: u64,
        limit: u32,
    ) -> Result<FragmentCopies, PollFault>
        ensures looks { Consults self.old self.new }
        ensures step { IsPoll N.home (registry_of self.new.known) self.old.number subscription source limit result }
        ensures memory { IfErr result (λ fault. MayLack N.home (poll_of (registry_of self.new.known) self.old.number subscription source limit) fault) }
        ensures audit { ReportsPoll N.home self.new.known self.old.number subscription source limit result self.old.audited self.new.audited }
        ensures unseen { IfErr result (λ fault. KeepsPolled fault self.old.audited self.new.audited) }
    {
        caches_stay_right_of_later_looks();
        what_was_said_stays();
        let Some(found) = self.log_at(source) else {
            return Err(PollFault::NoLook);
        };
        let Some(at) = found else {
            return Err(PollFault::Gone);
        };
        let Some(pass) = self.pass.take() else {
            unreachable!()
        };
        wait_beside(&self.hints, at, self.pace, limit);
        let (pass, told) = poll_once(
            rt,
            &self.slots,
            at,
            pass,
            &mut self.cache,
            self.alloc,
            self.number,
            subscription,
            limit,
        );
        self.pass = Some(pass);
        let Some(told) = told else {
            return Err(PollFault::NoLook);
        };
        let Ok(told) = told else {
            return Err(PollFault::NoMemory);
        };
        self.pace = pace_after(&self.hints, at, self.pace, limit, &told);
        wake(&self.queue, at, &told);
        tell(&mut self.audit, told.stamp, told.decision);
        fragments_of(told)
    }
}
