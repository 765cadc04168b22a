//! A remote publisher announces its stream.

ghost use Rattle.driver_core.specs.SettingUp.{allowed_for, fitting, has_room_for_setup, is_from, is_within_source, new_image, place_of_image, room_for, set_up, setting_of, verdict_for, wanted_by, with_image};
ghost use Rattle.driver_core.specs.Pairs.{pairs_of, prospects_of};
ghost use Rattle.driver_core.specs.Renewal.{outcome_by, outcome_opening};
ghost use Rattle.driver_core.specs.State.{at_moment, has_number};
ghost use Rattle.driver_core.specs.Report.{report_of, tells_answer};
ghost use Rattle.driver_core.specs.declared.state.outcome.Response.TheVariants.{Imaged};
ghost use Rattle.frame_codec.specs.Join.{join_of};
ghost use Rattle.log_readers.specs.Numbering.{AreInOrder};
ghost use Rattle.std.specs.Prelude.{◌≡◌, ◌+◌, Ok, Some, true, filter, length, IfOk};
ghost use Rattle.stream_registry.specs.Images.{has_room_for_image};
ghost use Rattle.stream_registry.specs.Lingering.{place_of};

use crate::pairs::{PAIRS, renewal};
use crate::state::event::Inputs;
use crate::state::outcome::{Outcome, Response};
use crate::state::registry::Registry;
use crate::state::report::Report;
use crate::state::setup_fault::SetupFault;
use byte_strings::Items;
use channel_uri::{Address, Channel};
use frame_codec::{Join, Setup};
use policy_core::{Act, Request, Verdict};
use std::alloc::{AllocError, Global};
use stream_registry::{ImageWanted, LogPlace, LogRow, Measures, Subscription, fits};

/// The image that a SETUP asks for, which came to `local` from `from`.
fn wanted_by(local: &Address, from: &Address, setup: &Setup, join: &Join) -> ImageWanted
    ensures { result ≡ wanted_by local.now from.now setup.now join.now }
{
    ImageWanted {
        channel: Channel::at_endpoint(local),
        stream: setup.stream_id,
        session: setup.session_id,
        address: *from,
        initial_term: setup.initial_term_id,
        join: join.position,
        measures: Measures {
            mtu: join.mtu,
            term_length: join.term_length,
            linger: 0,
        },
    }
}

/// Whether it is an image whose publisher sends from that address, from whichever port.
fn is_from(log: &LogRow, from: &Address) -> bool
    ensures { result ≡ is_from from.now log.now }
{
    match log.address() {
        Some(publisher) => publisher.octets == from.octets,
        None => false,
    }
}

/// How many of these logs are images whose publisher sends from that address. It takes no memory.
fn images_from(logs: &[LogRow], from: &Address) -> usize
    ensures { result ≡ length (filter (is_from from.now) logs.now) }
{
    logs.iter().filter(|log| is_from(log, from)).count()
}

impl Registry {
    /// What the policy in force decides on the image for a subscription.
    fn verdict_for(&self, subscription: &Subscription) -> Verdict
        ensures { result ≡ verdict_for self.now subscription.now }
    {
        let Some(principal) = self.clients.principal_of(subscription.client) else {
            return Verdict {
                allow: false,
                rule: None,
                epoch: self.compiled.epoch(),
            };
        };
        let request = Request {
            principal,
            act: Act::Image,
            channel: &subscription.channel,
            stream: subscription.stream,
        };
        self.compiled.verdict(&request)
    }

    /// How many pairs there would be with the image. It takes no memory.
    #[tactic(auto, unfolding(crate::specs::Pairs::pairs_of, crate::specs::SettingUp::with_image))]
    fn pairs_now_with_image(&self, wanted: &ImageWanted) -> usize
        requires { has_number self.now ≡ true }
        ensures { result ≡ length (pairs_of (with_image self.now wanted.now)) }
    {
        let place = self
            .streams
            .image_place_for(self.settings.arena_pages, wanted);
        self.readers.pair_count_with_image(
            &self.streams,
            &self.clients,
            &self.compiled.policy(),
            self.compiled.epoch(),
            self.next_number(),
            wanted,
            place.unwrap_or(0),
        )
    }

    /// How many there would be with it, then or later. It takes no memory.
    #[tactic(auto, unfolding(crate::specs::Pairs::prospects_of, crate::specs::SettingUp::with_image))]
    fn pairs_ever_with_image(&self, wanted: &ImageWanted) -> usize
        requires { has_number self.now ≡ true }
        ensures { result ≡ length (prospects_of (with_image self.now wanted.now)) }
    {
        let place = self
            .streams
            .image_place_for(self.settings.arena_pages, wanted);
        log_readers::prospect_count_with_image(
            &self.streams,
            &self.clients,
            self.compiled.given(),
            self.compiled.as_of(),
            self.compiled.epoch(),
            self.next_number(),
            wanted,
            place.unwrap_or(0),
        )
    }

    /// How many there would be with it, then or later. Where the policy stands for good, those that are kept are counted. It
    /// takes no memory.
    fn pairs_with_image(&self, wanted: &ImageWanted) -> usize
        requires { has_number self.now ≡ true }
        ensures { result ≡ length (prospects_of (with_image self.now wanted.now)) }
    {
        if self.is_settled() {
            return self.pairs_now_with_image(wanted);
        }
        self.pairs_ever_with_image(wanted)
    }

    /// Whether fewer images than may be of one source are of that publisher's address. It takes no memory.
    fn is_within_source(&self, wanted: &ImageWanted) -> bool
        ensures { result ≡ is_within_source self.now wanted.now }
    {
        images_from(self.streams.sources(), &wanted.address)
            < self.settings.images_per_source as usize
    }

    /// Whether there is room for one image more and for one of its source, a number for it, and room for its pairs. It takes
    /// no memory.
    #[tactic(auto, unfolding(crate::specs::Pairs::is_within_pairs))]
    fn has_room_for_setup(&self, wanted: &ImageWanted) -> bool
        ensures { result ≡ has_room_for_setup self.now wanted.now }
    {
        self.streams.has_room_for_image()
            && self.is_within_source(wanted)
            && self.has_number()
            && self.pairs_with_image(wanted) <= PAIRS
    }

    /// The place of the log, unless there is no room for it.
    #[tactic(auto, unfolding(crate::specs::SettingUp::room_for))]
    fn room_for(&self, wanted: &ImageWanted) -> Result<u64, SetupFault>
        ensures { result ≡ room_for self.now wanted.now }
    {
        if !self.has_room_for_setup(wanted) {
            return Err(SetupFault::Full);
        }
        match self
            .streams
            .image_place_for(self.settings.arena_pages, wanted)
        {
            Some(place) => Ok(place),
            None => Err(SetupFault::NoRoom),
        }
    }

    /// The place of the log, by the subscriptions that the image fits.
    fn allowed_for(&self, wanted: &ImageWanted) -> Result<u64, SetupFault>
        ensures { result ≡ allowed_for self.now wanted.now (fitting self.now wanted.now) }
    {
        // neither number nor place says what an image fits
        let image = self.streams.image(0, wanted, 0);
        let mut lowest = None;
        for subscription in self.streams.subscriptions() {
            if fits(&image, &subscription.wish()) {
                let verdict = self.verdict_for(subscription);
                if verdict.allow {
                    return self.room_for(wanted);
                }
                if lowest.is_none() {
                    lowest = Some(verdict);
                }
            }
        }
        match lowest {
            Some(verdict) => Err(SetupFault::Denied(verdict)),
            None => Err(SetupFault::NoSubscription),
        }
    }

    /// The place of the image's log, or why there is no image.
    #[tactic(auto, unfolding(crate::specs::SettingUp::setting_of))]
    fn setting(&self, wanted: &ImageWanted) -> Result<u64, SetupFault>
        ensures { result ≡ setting_of self.now wanted.now }
    {
        let there = self
            .streams
            .image_at(&wanted.channel, wanted.session, wanted.stream);
        if there.is_some() {
            return Err(SetupFault::Exists);
        }
        self.allowed_for(wanted)
    }

    /// The outcome where an image comes at that place, with the pairs that it brings.
    fn outcome_of_image(
        &self,
        alloc: Global,
        inputs: &Inputs,
        wanted: &ImageWanted,
        place: u64,
    ) -> Result<Outcome, AllocError>
        requires number { has_number self.now ≡ true }
        requires place { place_of_image self.now wanted.now ≡ Some place }
        ensures in_order { AreInOrder self.now.streams self.now.clients.rows self.now.last_number }
        ensures told { IfOk result (λ outcome. outcome ≡ outcome_opening self.now inputs.now (record (tells_answer (Imaged (self.now.last_number + 1))) { opens = Some (place_of (new_image self.now wanted.now)) }) (new_image self.now wanted.now)) }
    {
        let log = self.streams.image(self.next_number(), wanted, place);
        let mut told = Report::answered(alloc, Response::Imaged(log.number));
        told.opens = Some(LogPlace {
            source: log.number,
            place: log.place,
        });
        let mut come = Items::new(alloc);
        self.push_images_of(
            &mut told.replies,
            &mut told.decisions,
            &mut come,
            inputs.ends.as_slice(),
            &log,
            self.streams.subscriptions(),
        )?;
        Ok(renewal::come_alone(alloc, told, come))
    }

    /// What a SETUP reports, before what is reported of images.
    #[tactic(auto, unfolding(crate::specs::SettingUp::set_up, crate::specs::SettingUp::setting_of, crate::specs::Draft::answered))]
    pub(crate) fn tell_setup(
        &self,
        alloc: Global,
        local: &Address,
        from: &Address,
        setup: &Setup,
    ) -> Report
        ensures { result ≡ report_of (set_up self.now local.now from.now setup.now) }
    {
        let Some(join) = setup.join() else {
            return Report::answered(alloc, Response::Dropped(SetupFault::BadSetup));
        };
        let wanted = wanted_by(local, from, setup, &join);
        match self.setting(&wanted) {
            Ok(place) => {
                let source = self.next_number();
                let mut told = Report::answered(alloc, Response::Imaged(source));
                told.opens = Some(LogPlace { source, place });
                told
            }
            Err(fault) => Report::answered(alloc, Response::Dropped(fault)),
        }
    }

    /// The outcome of a SETUP.
    #[inline(never)]
    pub(crate) fn outcome_of_setup(
        &self,
        alloc: Global,
        now: u64,
        local: &Address,
        from: &Address,
        setup: &Setup,
        inputs: &Inputs,
    ) -> Result<Outcome, AllocError>
        ensures { IfOk result (λ outcome. outcome ≡ outcome_by self.now inputs.now (set_up (at_moment self.now now) local.now from.now setup.now)) }
    {
        let Some(join) = setup.join() else {
            let told = Report::answered(alloc, Response::Dropped(SetupFault::BadSetup));
            return renewal::keep_pairs(alloc, told);
        };
        let wanted = wanted_by(local, from, setup, &join);
        match self.setting(&wanted) {
            Ok(place) => self.outcome_of_image(alloc, inputs, &wanted, place),
            Err(fault) => {
                let told = Report::answered(alloc, Response::Dropped(fault));
                renewal::keep_pairs(alloc, told)
            }
        }
    }

    /// The image is there, under the next number.
    #[tactic(auto, unfolding(crate::specs::SettingUp::with_image))]
    fn put_image(&mut self, wanted: &ImageWanted, place: u64)
        requires number { has_number self.old ≡ true }
        requires room { has_room_for_image self.old.streams ≡ true }
        requires place { place_of_image self.old wanted.now ≡ Some place }
        ensures { self.new ≡ with_image self.old wanted.now }
    {
        let number = self.next_number();
        self.readers.add_image(
            &self.streams,
            &self.clients,
            &self.compiled.policy(),
            self.compiled.epoch(),
            number,
            wanted,
            place,
        );
        self.streams.add_image(number, wanted, place);
        self.last_number = number;
        self.all_read = false;
    }

    /// A SETUP came to `local` from `from`.
    #[tactic(auto, unfolding(crate::specs::SettingUp::set_up, crate::specs::SettingUp::setting_of, crate::specs::Draft::answered))]
    #[inline(never)]
    pub(crate) fn do_setup(&mut self, local: &Address, from: &Address, setup: &Setup)
        ensures { self.new ≡ (set_up self.old local.now from.now setup.now).after }
    {
        let Some(join) = setup.join() else {
            return;
        };
        let wanted = wanted_by(local, from, setup, &join);
        match self.setting(&wanted) {
            Ok(place) => self.put_image(&wanted, place),
            Err(_) => {}
        }
    }
}
