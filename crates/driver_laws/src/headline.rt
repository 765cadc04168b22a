//! What the driver promises, in four sentences: each is the sum of laws that are stated beside, on every list of events
//! (`driver_laws`), on every run of a driver (`driver_steps`) and on every run of a world (`driver_world`), whose registries
//! are what their events make of the opened one, and whose steps are those of a driver.

ghost use Rattle.driver_laws.specs.DatagramLaws.{DatagramsCarryTheLogsFrames};
ghost use Rattle.driver_laws.specs.FrameLaws.{FramesAreWhatWasPut};
ghost use Rattle.driver_laws.specs.LearningLaws.{AddressesComeAndGoOnlySo};
ghost use Rattle.driver_laws.specs.NewLogLaws.{NewLogsAreEmpty};
ghost use Rattle.driver_laws.specs.OlderLaws.{JoinsByAnyRegistryAreGrantedExactly, LooksByAnyRegistryAreShownExactly, NaksByAnyRegistryAreGrantedExactly, OffersByAnyRegistryAreGrantedExactly, PollsByAnyRegistryAreGrantedExactly, SendsByAnyRegistryAreGrantedExactly};
ghost use Rattle.driver_laws.specs.Headline.{ByThePolicyAtItsMoment, BytesComeOnlyFromTheLiveLog, DenialsNameTheirRule, GrantedExactly, HoldOfWorlds, ReloadsCloseExactly, StepsAreDecided};

use crate::acts::rules_ask_as_listed;
use crate::worlds::{
    runs_are_the_drivers_own, steps_go_by_their_registry, worlds_are_granted_exactly,
    worlds_are_served_from_the_live_log,
};
use crate::{
    cached_verdicts_are_right_until_the_next_bound, clients_come_exactly, clients_come_only,
    counters_and_terminations_are_granted_only, counters_are_granted_exactly,
    counters_are_shown_exactly, decisions_are_by_the_policy_in_force, denials_are_named,
    destinations_are_granted_exactly, destinations_are_granted_only, endpoints_are_sent_to,
    images_are_granted_exactly, images_come_by_setups, limits_count_what_is_ever_allowed,
    logs_close_exactly, logs_close_only, moments_take_and_give_exactly, newest_policy_is_in_force,
    numbers_are_never_drawn_again, policies_stand_at_their_moment,
    publications_are_granted_exactly, publications_are_granted_only, publications_are_unique,
    refused_events_take_only_what_the_moment_takes, registries_are_sound,
    registries_stay_between_bounds, reloads_close_exactly, setups_are_granted_exactly,
    subscriptions_are_granted_exactly, subscriptions_are_granted_only,
    terminations_are_granted_exactly, ticks_are_never_full,
};
use driver_steps::{
    addresses_are_learnt_exactly, bytes_come_from_the_live_log, logs_follow_the_registry,
    offers_are_granted_exactly, payloads_come_from_their_publisher, polls_are_granted_exactly,
    resends_come_from_the_live_log, runs_take_events, sends_are_granted_exactly,
};
use driver_world::{registries_were_newest, runs_are_of_the_driver};

/// A registry decides by the policy that is in force there, as it is at the greatest moment of the registry's events; a verdict that
/// was kept is right up to the next bound of a rule.
pub fn by_the_policy_at_its_moment()
    ensures { ByThePolicyAtItsMoment }
{
    newest_policy_is_in_force();
    policies_stand_at_their_moment();
    registries_stay_between_bounds();
    cached_verdicts_are_right_until_the_next_bound();
}

/// A well-formed request is granted only and exactly where the first matching rule of the policy in force at its step, at that
/// registry's moment, or else the default, allows its principal: a subscription, a publication, a destination, a counter, the end of the driver, an
/// image, an offer, a poll, a datagram to a destination, an address that a status message makes one, frames that are sent again, a
/// look at a counter. The laws on offers, polls, datagrams, such addresses, frames that are sent again and looks are on steps by
/// any registry that the run went through. Destinations, such addresses and clients come only so.
pub fn granted_exactly()
    ensures { GrantedExactly }
{
    by_the_policy_at_its_moment();
    subscriptions_are_granted_exactly();
    subscriptions_are_granted_only();
    publications_are_granted_exactly();
    publications_are_granted_only();
    destinations_are_granted_exactly();
    destinations_are_granted_only();
    endpoints_are_sent_to();
    clients_come_exactly();
    clients_come_only();
    counters_are_granted_exactly();
    terminations_are_granted_exactly();
    counters_and_terminations_are_granted_only();
    images_come_by_setups();
    setups_are_granted_exactly();
    images_are_granted_exactly();
    steps_are_decided();
    rules_ask_as_listed();
    worlds_are_granted_exactly();
    worlds_follow();
}

/// Each registry of a run is what its events left, and a run of a world is one of the driver, whose steps are its own: so what is
/// said of all lists of events, and of all runs of a driver, holds of worlds.
pub fn worlds_follow()
    ensures { HoldOfWorlds }
{
    runs_take_events();
    registries_were_newest();
    runs_are_of_the_driver();
    runs_are_the_drivers_own();
    steps_go_by_their_registry();
}

/// What is asked by a step, not by an event, is granted or denied by the verdict of the registry by which the step goes: a look
/// at a counter, an offer, a poll, a datagram to a destination, a status message by which an address becomes one, a NAK.
pub fn steps_are_decided()
    ensures { StepsAreDecided }
{
    counters_are_shown_exactly();
    looks_by_any_registry_are_shown_exactly();
    offers_are_granted_exactly();
    offers_by_any_registry_are_granted_exactly();
    polls_are_granted_exactly();
    polls_by_any_registry_are_granted_exactly();
    sends_are_granted_exactly();
    sends_by_any_registry_are_granted_exactly();
    addresses_are_learnt_exactly();
    joins_by_any_registry_are_granted_exactly();
    addresses_come_and_go_only_so();
    resends_come_from_the_live_log();
    naks_by_any_registry_are_granted_exactly();
}

/// An offer by any registry that the run went through goes on to the log that the client's registration is with, where that is
/// still open, exactly where the first rule of that registry's policy that matches, or the default, allows it; else the
/// verdict is answered and nothing changes. The log is one of frames that were appended: no number is drawn again.
pub fn offers_by_any_registry_are_granted_exactly()
    ensures { OffersByAnyRegistryAreGrantedExactly }
{}

/// A poll by any registry that the run went through is given the fragments from where the subscription stands, where that is the
/// client's own and reads the log by that registry and still has a position in it, exactly where the first rule of that
/// registry's policy that matches, or the default, allows it; else the verdict is answered, or that it is gone, and nothing
/// changes.
pub fn polls_by_any_registry_are_granted_exactly()
    ensures { PollsByAnyRegistryAreGrantedExactly }
{}

/// A turn of the sender by any registry that the run went through cuts the one datagram that is due of the publication's log,
/// where that is still open, and reports it for each destination that the publication has by that registry, with the verdict of
/// that registry's policy on its maker; or, where the publication learns its destinations, for each address that its log has
/// learnt and that is not past that registry's timeout, in the order in which they were learnt, with the verdict on the principal
/// that is bound to it.
pub fn sends_by_any_registry_are_granted_exactly()
    ensures { SendsByAnyRegistryAreGrantedExactly }
{}

/// A status message by any registry that the run went through, for the publication that has its session and stream there and learns
/// its destinations, where its log is still open, makes the address from which it came one of them exactly where the first rule of
/// that registry's policy that matches, or the default, allows the principal there to join; else that address is forgotten, and the
/// verdict is answered. At a 33rd address nothing changes. Where destinations are named, no policy is asked.
pub fn joins_by_any_registry_are_granted_exactly()
    ensures { JoinsByAnyRegistryAreGrantedExactly }
{}

/// Whichever step it is, by any registry that the run went through: an address that a log has learnt after it, and had not before,
/// came by such a status message of its publication that is allowed, at that moment. One that it has learnt no more went by one that
/// is denied, past that registry's timeout in a turn of the sender with that log, or with the log.
pub fn addresses_come_and_go_only_so()
    ensures { AddressesComeAndGoOnlySo }
{}

/// A NAK by any registry that the run went through goes on to the gate of the log of the publication that has its session and
/// stream there, where that is still open, exactly where the first rule of that registry's policy that matches, or the default,
/// allows the principal at the address that asks; else the verdict is answered and nothing changes. Nothing but a NAK is answered
/// by what is sent again, and that goes to who asks.
pub fn naks_by_any_registry_are_granted_exactly()
    ensures { NaksByAnyRegistryAreGrantedExactly }
{}

/// A look at counters by any registry that the run went through is answered exactly what that registry's policy shows the client:
/// the first rule of it that matches, or the default. Nothing is changed.
pub fn looks_by_any_registry_are_shown_exactly()
    ensures { LooksByAnyRegistryAreShownExactly }
{}

/// At the end of every run the frames of each live log of a publication are what was put into it, in that order, each once:
/// the frames of the message of each offer that was allowed by the registry by which it went and answered a position, and a pad
/// over the rest of the term for each that was answered that the term turned. A new log so has none.
pub fn frames_are_what_was_put()
    ensures { FramesAreWhatWasPut }
{}

/// Whatever a turn of the sender cuts at the end of a run, by any registry that the run went through, is a datagram of the log
/// that it asks for, which is open: consecutive frames from where the log's sender stands, each whole and at its place, of one
/// term, no more bytes than the MTU; or a SETUP or a heartbeat, whose fields are the log's. The sender stands after those frames
/// then. What a NAK is answered by carries exactly the frames of its log, which is open, whose ranges meet the range that the NAK
/// names, each once and in order. So it is in worlds.
pub fn datagrams_carry_the_logs_frames()
    ensures { DatagramsCarryTheLogsFrames }
{}

/// A log that was not there before a step and is there after it has no frame: a publication's log none of those that were ever
/// put into one, an image's map no entry. Whatever log is held for a publication's has zeros alone in its three terms, and
/// whatever bytes are zeros outside of the image's frames, as those are that `image_log::ImageLog::close` gives back, are zeros
/// alone. So it is in worlds.
pub fn new_logs_are_empty()
    ensures { NewLogsAreEmpty }
{}

/// Each denial names the first rule that matches, or the default where none does, and the number of the policy.
pub fn denials_name_their_rule()
    ensures { DenialsNameTheirRule }
{
    by_the_policy_at_its_moment();
    denials_are_named();
    decisions_are_by_the_policy_in_force();
    steps_are_decided();
    rules_ask_as_listed();
    worlds_follow();
}

/// A policy that is put in force closes exactly the images that it no longer allows, and their logs, and so does a moment at which
/// the policy in force decides otherwise; a reload, or another event, that is refused closes only what the moment closes.
pub fn a_reload_closes_exactly()
    ensures { ReloadsCloseExactly }
{
    reloads_close_exactly();
    by_the_policy_at_its_moment();
    moments_take_and_give_exactly();
    refused_events_take_only_what_the_moment_takes();
    limits_count_what_is_ever_allowed();
    ticks_are_never_full();
    logs_close_exactly();
    logs_close_only();
    logs_follow_the_registry();
    worlds_follow();
}

/// Bytes are polled, sent and sent again only from the live log that holds them, which shares no page with another; each was put
/// there by an offer that was allowed, or came from the log's publisher. A new log has no frame, and zeros alone. No number is
/// drawn again, so a log that an older registry names is the same log, or closed; and no two live publications share medium,
/// stream and session.
pub fn bytes_come_only_from_the_live_log()
    ensures { BytesComeOnlyFromTheLiveLog }
{
    bytes_come_from_the_live_log();
    payloads_come_from_their_publisher();
    resends_come_from_the_live_log();
    datagrams_carry_the_logs_frames();
    frames_are_what_was_put();
    new_logs_are_empty();
    logs_follow_the_registry();
    registries_are_sound();
    numbers_are_never_drawn_again();
    publications_are_unique();
    worlds_are_served_from_the_live_log();
    worlds_follow();
}
