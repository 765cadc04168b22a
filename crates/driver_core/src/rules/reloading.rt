ghost use Rattle.driver_core.specs.Pairs.{prospects_of};
ghost use Rattle.driver_core.specs.Reloading.{has_room_for_policy, in_force, reload, reloaded};
ghost use Rattle.driver_core.specs.Renewal.{come_to, gone_from, outcome_by};
ghost use Rattle.driver_core.specs.Report.{report_of};
ghost use Rattle.driver_core.specs.State.{at_moment};
ghost use Rattle.policy_core.specs.Moments.{at};
ghost use Rattle.std.specs.Prelude.{◌≡◌, ◌<◌, length, max, true, IfOk};

use crate::pairs::{PAIRS, renewal};
use crate::state::event::Inputs;
use crate::state::outcome::{Outcome, Response};
use crate::state::registry::Registry;
use crate::state::report::Report;
use log_readers::Turnover;
use policy_core::{Policy, Standing};
use std::alloc::{AllocError, Global};

impl Registry {
    /// The policy as it is at this moment, or at the one already seen where that is later.
    fn standing_at<'a>(&self, now: u64, policy: &'a Policy) -> Standing<'a>
        ensures { result ≡ at policy.now (max self.now.moment now) }
    {
        policy.at(self.moment.max(now))
    }

    /// How many pairs there would be under the policy, then or later. It is asked once for each subscription, and takes no
    /// memory.
    #[tactic(auto, unfolding(crate::specs::Pairs::prospects_of, crate::specs::Reloading::in_force))]
    fn pairs_under(&self, moment: u64, policy: &Policy) -> usize
        requires { self.now.epoch < 18446744073709551615 }
        ensures { result ≡ length (prospects_of (in_force (record self.now { moment = moment }) policy.now)) }
    {
        log_readers::prospect_count(
            &self.streams,
            &self.clients,
            policy,
            moment,
            self.compiled.epoch() + 1,
        )
    }

    /// Whether at this moment there is a number for the policy, and room for the pairs that it allows, then or later. It takes
    /// no memory.
    #[tactic(auto, unfolding(crate::specs::Pairs::is_within_pairs))]
    fn has_room_at(&self, moment: u64, policy: &Policy) -> bool
        ensures { result ≡ has_room_for_policy (record self.now { moment = moment }) policy.now }
    {
        self.compiled.epoch() < u64::MAX && self.pairs_under(moment, policy) <= PAIRS
    }

    /// So at this moment, or at the one already seen where that is later.
    #[tactic(auto, unfolding(crate::specs::State::at_moment))]
    fn has_room_for_policy(&self, now: u64, policy: &Policy) -> bool
        ensures { result ≡ has_room_for_policy (at_moment self.now now) policy.now }
    {
        self.has_room_at(self.moment.max(now), policy)
    }

    /// What goes and what comes where the policy is in force, under the next number. It is asked once for each
    /// subscription.
    #[tactic(auto, unfolding(crate::specs::Reloading::in_force, crate::specs::State::at_moment))]
    fn turnover_under(
        &self,
        alloc: Global,
        now: u64,
        policy: &Policy,
    ) -> Result<Turnover, AllocError>
        requires { self.now.epoch < 18446744073709551615 }
        ensures gone { IfOk result (λ turnover. turnover.gone ≡ gone_from self.now (in_force (at_moment self.now now) policy.now)) }
        ensures come { IfOk result (λ turnover. turnover.come ≡ come_to self.now (in_force (at_moment self.now now) policy.now)) }
    {
        self.readers.turnover_under(
            alloc,
            &self.streams,
            &self.clients,
            &self.standing_at(now, policy),
            self.compiled.epoch() + 1,
        )
    }

    /// The outcome where a policy is to be in force for which there is room.
    fn outcome_of_reloaded(
        &self,
        alloc: Global,
        now: u64,
        policy: &Policy,
        inputs: &Inputs,
    ) -> Result<Outcome, AllocError>
        requires { self.now.epoch < 18446744073709551615 }
        ensures { IfOk result (λ outcome. outcome ≡ outcome_by self.now inputs.now (reloaded (at_moment self.now now) policy.now)) }
    {
        let turnover = self.turnover_under(alloc, now, policy)?;
        let epoch = self.compiled.epoch() + 1;
        let standing = self.standing_at(now, policy);
        let mut told = Report::answered(alloc, Response::PolicyInForce(epoch));
        renewal::tell_turnover(&mut told, self, &standing, epoch, inputs, &turnover)?;
        Ok(renewal::outcome_from(told, turnover))
    }

    /// The outcome where a policy is to be in force.
    #[tactic(auto, unfolding(crate::specs::State::at_moment))]
    #[inline(never)]
    pub(crate) fn outcome_of_reload(
        &self,
        alloc: Global,
        now: u64,
        policy: &Policy,
        inputs: &Inputs,
    ) -> Result<Outcome, AllocError>
        ensures { IfOk result (λ outcome. outcome ≡ outcome_by self.now inputs.now (reload (at_moment self.now now) policy.now)) }
    {
        if !self.has_room_for_policy(now, policy) {
            let told = Report::answered(alloc, Response::PolicyFull);
            return renewal::keep_pairs(alloc, told);
        }
        self.outcome_of_reloaded(alloc, now, policy, inputs)
    }

    /// What is reported where a policy is to be in force, before what is reported of images.
    #[tactic(auto, unfolding(crate::specs::Reloading::reload, crate::specs::Reloading::reloaded, crate::specs::Draft::answered, crate::specs::State::at_moment))]
    pub(crate) fn tell_reload(&self, alloc: Global, now: u64, policy: &Policy) -> Report
        ensures { result ≡ report_of (reload (at_moment self.now now) policy.now) }
    {
        if !self.has_room_at(self.moment.max(now), policy) {
            return Report::answered(alloc, Response::PolicyFull);
        }
        Report::answered(alloc, Response::PolicyInForce(self.compiled.epoch() + 1))
    }

    /// The policy is in force, under the next number.
    #[tactic(auto, unfolding(crate::specs::Reloading::in_force))]
    fn put_in_force(&mut self, policy: &Policy)
        requires { self.old.epoch < 18446744073709551615 }
        ensures { self.new ≡ in_force self.old policy.now }
    {
        let epoch = self.compiled.epoch() + 1;
        self.all_read = false;
        self.compiled.compile(policy, epoch, self.moment);
        self.readers.ask_again(&self.streams, &self.clients, &policy.at(self.moment), epoch);
    }

    /// Puts a policy in force, unless there would be too many pairs.
    #[tactic(auto, unfolding(crate::specs::Reloading::reload, crate::specs::Reloading::reloaded, crate::specs::Draft::answered))]
    #[inline(never)]
    pub(crate) fn do_reload(&mut self, policy: &Policy)
        ensures { self.new ≡ (reload self.old policy.now).after }
    {
        if self.has_room_at(self.moment, policy) {
            self.put_in_force(policy);
        }
    }
}
