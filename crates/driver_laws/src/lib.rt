//! What a driver promises: the four sentences of [`headline`], and the laws of which they are made, on the registry over
//! every list of events, and on [`worlds`]. The laws cite one table of [`acts`]. Each function does nothing, and its clause is
//! the law. The laws speak of `outcome_of` and `state_after`, which `Registry::step` meets, and of words that this crate's
//! `specs/` define by them. An event comes to the registry with its policy as it is at the event's moment, and by that it is
//! decided; what goes and comes is what the pairs before the event, at the moment before, and those after it differ in.
#![tactic(auto)]

pub mod acts;
pub mod headline;
pub mod worlds;

ghost use Rattle.driver_laws.specs.AttachingLaws.{ClientsComeExactly, ClientsComeOnly};
ghost use Rattle.driver_laws.specs.CacheLaws.{CachedVerdictsAreRightUntilTheNextBound};
ghost use Rattle.driver_laws.specs.ClosingLaws.{ClosedLogsWereThere, LogsCloseExactly, LogsCloseOnly};
ghost use Rattle.driver_laws.specs.CounterLaws.{CountersAreRemovedExactly, CountersAreRemovedOnly, CountersAreSetExactly, CountersAreSetOnly};
ghost use Rattle.driver_laws.specs.DecisionLaws.{DecisionsAreByThePolicyInForce};
ghost use Rattle.driver_laws.specs.DenialLaws.{DenialsAreNamed};
ghost use Rattle.driver_laws.specs.DestinationLaws.{DestinationsAreGrantedExactly, DestinationsAreGrantedOnly, DestinationsAreOfLivePublications, EndpointsAreSentTo};
ghost use Rattle.driver_laws.specs.GrantLaws.{CountersAreGrantedExactly, TerminationsAreGrantedExactly, CountersAndTerminationsAreGrantedOnly};
ghost use Rattle.driver_laws.specs.ImageLaws.{ImagesAreGrantedExactly, ImagesAreRead, NoImageIsUnread};
ghost use Rattle.driver_laws.specs.ImageTellingLaws.{ImagesAreToldExactly};
ghost use Rattle.driver_laws.specs.LeavingLaws.{ClientsGoExactly, ClientsGoOnly, RowsGoWithTheirClient};
ghost use Rattle.driver_laws.specs.LimitLaws.{LimitsAreKept, RoomIsLeftBelowTheLimits};
ghost use Rattle.driver_laws.specs.ListingLaws.{CountersAreShownExactly};
ghost use Rattle.driver_laws.specs.MomentLaws.{LimitsCountWhatIsEverAllowed, MomentsTakeAndGiveExactly, PoliciesStandAtTheirMoment, RegistriesStayBetweenBounds, TicksAreNeverFull};
ghost use Rattle.driver_laws.specs.NumberLaws.{LastNumbersNeverFall, ListsShareNoNumber, NewNumbersAreAboveTheLast, NumbersAreAtMostTheLast, NumbersAreNeverDrawnAgain, NumbersAreUnique};
ghost use Rattle.driver_laws.specs.OwnerLaws.{RegistrationsHaveTheirLogs, RowsHaveTheirClients};
ghost use Rattle.driver_laws.specs.PublishingLaws.{PublicationsAreGrantedExactly, PublicationsAreGrantedOnly, ImagesComeBySetups};
ghost use Rattle.driver_laws.specs.RefusalLaws.{RefusalsChangeNoMoreThanMoments, RefusedEventsTakeOnlyWhatTheMomentTakes};
ghost use Rattle.driver_laws.specs.ReloadLaws.{ReloadsCloseExactly, NewestPolicyIsInForce};
ghost use Rattle.driver_laws.specs.RemovalLaws.{SubscriptionsAreRemovedExactly, SubscriptionsAreRemovedOnly, RegistrationsAreRemovedExactly, RegistrationsAreRemovedOnly};
ghost use Rattle.driver_laws.specs.SettingLaws.{SetupsAreGrantedExactly};
ghost use Rattle.driver_laws.specs.SoundnessLaws.{RegistriesAreSound};
ghost use Rattle.driver_laws.specs.SubscribingLaws.{SubscriptionsAreGrantedExactly, SubscriptionsAreGrantedOnly};
ghost use Rattle.driver_laws.specs.UniqueImageLaws.{ImagesAreUnique};
ghost use Rattle.driver_laws.specs.UniquePublicationLaws.{PublicationsAreUnique};
ghost use Rattle.driver_laws.specs.WidthLaws.{PublicationsAreOf32Bits};

/// A client's well-formed request for a subscription is granted where the first rule that matches allows it, or where
/// none matches and the default does, and there is room; else it is refused, by the verdict or as full.
pub fn subscriptions_are_granted_exactly()
    ensures { SubscriptionsAreGrantedExactly }
{}

/// A subscription comes, and is reported, only where a well-formed request was allowed by the policy in force.
pub fn subscriptions_are_granted_only()
    ensures { SubscriptionsAreGrantedOnly }
{}

/// A client's well-formed request for a publication, exclusive or not, is granted where the first rule that matches allows
/// it, or where none matches and the default does, nothing of the same place or session contradicts it, and there is room
/// and a place for its log; else it is refused by the first of these that fails.
pub fn publications_are_granted_exactly()
    ensures { PublicationsAreGrantedExactly }
{}

/// A registration with a publication, and its log, come, and are reported, only where a well-formed request was allowed by
/// the policy in force.
pub fn publications_are_granted_only()
    ensures { PublicationsAreGrantedOnly }
{}

/// An image comes only by a SETUP, where a subscription that it fits reads it by the policy in force, and there is room and a
/// place for its log.
pub fn images_come_by_setups()
    ensures { ImagesComeBySetups }
{}

/// A SETUP makes an image, whose log opens at the least vacant place, exactly where it is well-formed and no image of its
/// endpoint, session and stream is there, a subscription that it fits reads it by the policy in force, there is room, and a
/// place is vacant; else it is dropped by the first of these that fails, and nothing changes but the moment, with what that
/// takes and brings. Where the policy denies it to each, the verdict is that for the one of the lowest number.
pub fn setups_are_granted_exactly()
    ensures { SetupsAreGrantedExactly }
{}

/// A subscription reads a log exactly where the two fit and the policy in force allows the image to the subscription's
/// client; what an event opens and closes of these is the difference that it makes.
pub fn images_are_granted_exactly()
    ensures { ImagesAreGrantedExactly }
{}

/// In every registry each image is read by some subscription.
pub fn images_are_read()
    ensures { ImagesAreRead }
{}

/// In every registry no image is unread: `Readers::unread` answers none.
pub fn no_image_is_unread()
    ensures { NoImageIsUnread }
{}

/// In every registry no two images are of one endpoint, session and stream, so that a search by these finds the only one.
pub fn images_are_unique()
    ensures { ImagesAreUnique }
{}

/// In every registry no two live publications, in use or lingering, share medium, stream and session; so a search by session and
/// stream for one over datagrams finds the only one.
pub fn publications_are_unique()
    ensures { PublicationsAreUnique }
{}

/// In every registry the session and the stream of each live publication, in use or lingering, are numbers of 32 bits, and so
/// is the term id at which its log begins, whatever bytes came as commands.
pub fn publications_are_of_32_bits()
    ensures { PublicationsAreOf32Bits }
{}

/// Of all replies to an event one for each pair that came, and no other, notifies the subscription's client of an image that is
/// available; and one for each pair that went, whose subscription did not, and no other, of one that is not.
pub fn images_are_told_exactly()
    ensures { ImagesAreToldExactly }
{}

/// A client's well-formed request for a counter is granted where the first rule that matches allows it, or where none
/// matches and the default does, and there is room; else it is refused, by the verdict or as full.
pub fn counters_are_granted_exactly()
    ensures { CountersAreGrantedExactly }
{}

/// A client's well-formed request that the driver end is granted where the first rule that matches allows it, or where
/// none matches and the default does; then all clients are gone, and all logs close. Else it is refused, by the verdict.
pub fn terminations_are_granted_exactly()
    ensures { TerminationsAreGrantedExactly }
{}

/// A counter comes, and the driver ends, only where a well-formed request for it was allowed by the policy in force.
pub fn counters_and_terminations_are_granted_only()
    ensures { CountersAndTerminationsAreGrantedOnly }
{}

/// A client is listed exactly the counters, publications and images that the policy in force shows it, and is answered the value
/// of one exactly where the policy shows that one; a denial names the least rule that matches, or the default where none does.
pub fn counters_are_shown_exactly()
    ensures { CountersAreShownExactly }
{}

/// A denial is answered only to a request that the policy in force denies, and names the least rule that matches, or the
/// default where none does. So does the verdict by which a SETUP is dropped as denied, which is that for the subscription of
/// the lowest number that its image fits; the policy in force denies the image to each that it fits.
pub fn denials_are_named()
    ensures { DenialsAreNamed }
{}

/// Each decision that an event reports is by the first rule that matches, or by the default where none does: that of the policy
/// in force on what the event's request asks, or that of the policy in force after the event on a pair that it takes away or
/// brings.
pub fn decisions_are_by_the_policy_in_force()
    ensures { DecisionsAreByThePolicyInForce }
{}

/// A client's well-formed request for a destination of its own publication is granted where the first rule that matches
/// allows it, or where none matches and the default does, destinations of that publication are named by hand, the address is
/// not there yet, and there is room; else nothing is added, and it is refused by the first of these that fails.
pub fn destinations_are_granted_exactly()
    ensures { DestinationsAreGrantedExactly }
{}

/// A destination comes only by such a request of a client that the policy in force allows, for that client's principal, or as
/// the one destination of a publication for an endpoint that is granted and makes its log, for the principal of the client that
/// asks for it.
pub fn destinations_are_granted_only()
    ensures { DestinationsAreGrantedOnly }
{}

/// A log that is made for an endpoint has that one destination after the event, for the principal of the client that asks.
pub fn endpoints_are_sent_to()
    ensures { EndpointsAreSentTo }
{}

/// In every registry each destination is of a live publication, their numbers rise up to the one that was drawn last, a
/// publication has at most 32 and no address twice, and all have at most 8,192; whatever destination comes later has a number
/// above that last one.
pub fn destinations_are_of_live_publications()
    ensures { DestinationsAreOfLivePublications }
{}

/// A client's request that a subscription go takes away the one of that number that is the client's own, and the images
/// that none reads any more, and nothing else; where it has none, nothing goes but what the moment takes, and the subscription is
/// unknown.
pub fn subscriptions_are_removed_exactly()
    ensures { SubscriptionsAreRemovedExactly }
{}

/// A subscription goes only where its own client asks for it, or goes itself: it was silent for too long, it closed, or
/// the driver was ended by a request that the policy in force allowed.
pub fn subscriptions_are_removed_only()
    ensures { SubscriptionsAreRemovedOnly }
{}

/// A client's request that its registration with a publication go takes away the one of that number that is the client's
/// own, and nothing else but what the moment takes; the log lingers from then on where nobody else is registered with it. Where the client has none,
/// nothing goes, and the publication is unknown.
pub fn registrations_are_removed_exactly()
    ensures { RegistrationsAreRemovedExactly }
{}

/// A registration goes only where its own client asks for it, or goes itself.
pub fn registrations_are_removed_only()
    ensures { RegistrationsAreRemovedOnly }
{}

/// A client's request that a counter go takes away the one of that number that is the client's own, and nothing else but what
/// the moment takes; where it has none, nothing goes, and the counter is unknown.
pub fn counters_are_removed_exactly()
    ensures { CountersAreRemovedExactly }
{}

/// A counter goes only where its own client asks for it, or goes itself.
pub fn counters_are_removed_only()
    ensures { CountersAreRemovedOnly }
{}

/// A client's request that a counter have a value sets the one of that number that is the client's own, and nothing else but
/// what the moment takes and brings changes; where it has none, nothing is set, and the counter is unknown.
pub fn counters_are_set_exactly()
    ensures { CountersAreSetExactly }
{}

/// A counter has the value that it had before an event, or the one to which its own client set it, unless it is new.
pub fn counters_are_set_only()
    ensures { CountersAreSetOnly }
{}

/// A client comes, under the next id, for the principal that the event names and at its moment, exactly where the driver was not
/// stopped and there is room; else nobody comes, as the driver was stopped or is full, and all stays but the moment, with what that
/// takes and brings.
pub fn clients_come_exactly()
    ensures { ClientsComeExactly }
{}

/// A client comes only so: each other that is there after an event was there before, under its id and for its principal.
pub fn clients_come_only()
    ensures { ClientsComeOnly }
{}

/// A client is not there after a tick at which nothing was heard of it for longer than the liveness, after its own request
/// that it close, and after a request that the driver end which the policy in force allowed.
pub fn clients_go_exactly()
    ensures { ClientsGoExactly }
{}

/// A client that is there stays, unless a tick finds that nothing was heard of it for too long, it closes itself, or the
/// driver is ended by a request that the policy in force allowed.
pub fn clients_go_only()
    ensures { ClientsGoOnly }
{}

/// After an event that takes a client away no registration, subscription or counter of it is there.
pub fn rows_go_with_their_client()
    ensures { RowsGoWithTheirClient }
{}

/// In a registry that was opened with sound settings a log closes, and is reported, at a tick at which it has lingered for
/// longer than it may, or which learns that the image is silent, where the driver is ended by a request that the policy in
/// force allowed, and where the event and its moment leave no subscription that reads the image.
pub fn logs_close_exactly()
    ensures { LogsCloseExactly }
{}

/// A log closes, and is reported, only so: else it is live after the event, whether it lingers by then or not.
pub fn logs_close_only()
    ensures { LogsCloseOnly }
{}

/// What an event reports to close are the places of exactly the logs that were live before it and are no more, each once.
pub fn closed_logs_were_there()
    ensures { ClosedLogsWereThere }
{}

/// A reload puts its policy in force under the next number and leaves all lists as they are, but for the images that none
/// reads any more, which close: the pairs go that the old policy allowed at the moment before and the new one does not at the
/// moment of the reload, and those come that it gains. A reload that is refused closes nothing but what the moment closes.
pub fn reloads_close_exactly()
    ensures { ReloadsCloseExactly }
{}

/// The policy in force, as its text has it, is that of the newest reload that was not refused, or the first one; nothing else
/// changes it.
pub fn newest_policy_is_in_force()
    ensures { NewestPolicyIsInForce }
{}

/// An event that grants nothing and closes no log sets the moment of the registry, to which its policy is fitted, and that of the
/// client that was heard of, and no more.
pub fn refusals_change_no_more_than_moments()
    ensures { RefusalsChangeNoMoreThanMoments }
{}

/// An event that is answered that it is refused, or whose first reply says so, takes and brings the pairs that the moment does, and
/// the images close that none reads then; beside the event's own answer only these are reported. So it is where an event only moves
/// time.
pub fn refused_events_take_only_what_the_moment_takes()
    ensures { RefusedEventsTakeOnlyWhatTheMomentTakes }
{}

/// In every registry the policy is what the text of the one in force makes of it at the greatest moment of the events so far, and
/// what it becomes later is what that text says.
pub fn policies_stand_at_their_moment()
    ensures { PoliciesStandAtTheirMoment }
{}

/// An event that comes before the next bound of a rule in force comes to the registry as it is: up to the bound, and not at it,
/// no moment takes or brings a pair.
pub fn registries_stay_between_bounds()
    ensures { RegistriesStayBetweenBounds }
{}

/// A verdict on an offer or a poll that a cache keeps is the policy's from the moment at which it was stored up to the next bound of a
/// rule after that, and not at it, as long as the policy is in force; what events come does not matter.
pub fn cached_verdicts_are_right_until_the_next_bound()
    ensures { CachedVerdictsAreRightUntilTheNextBound }
{}

/// A moment takes exactly the pairs that the policy allowed at the moment before and refuses at it, and brings exactly those that it
/// allows at it and refused before, as a reload does, and under the number that the policy has.
pub fn moments_take_and_give_exactly()
    ensures { MomentsTakeAndGiveExactly }
{}

/// The limit of pairs counts exactly those of a log and a subscription that fit and of which the policy in force allows the image to
/// the subscription's client at the registry's moment or at a later one.
pub fn limits_count_what_is_ever_allowed()
    ensures { LimitsCountWhatIsEverAllowed }
{}

/// However many pairs a moment brings, they are within the limit, as are those of all later moments, since what comes is asked
/// whether it is ever allowed: so a tick has no answer but that time has gone on.
pub fn ticks_are_never_full()
    ensures { TicksAreNeverFull }
{}

/// In a registry that was opened with sound settings, all logs have sound sizes, are numbered in the order in which they
/// came, and share no page, and each image begins at a sound position, whatever happened.
pub fn registries_are_sound()
    ensures { RegistriesAreSound }
{}

/// In every registry each registration, subscription and counter belongs to a client that is there.
pub fn rows_have_their_clients()
    ensures { RowsHaveTheirClients }
{}

/// In every registry the log that a registration names is that of a live publication, and does not linger.
pub fn registrations_have_their_logs()
    ensures { RegistrationsHaveTheirLogs }
{}

/// In every registry no number of a registration, a subscription, a counter or a log is above the one that was drawn last,
/// and no client's above that of the client that came last.
pub fn numbers_are_at_most_the_last()
    ensures { NumbersAreAtMostTheLast }
{}

/// In every registry no two rows of one list have one number: the numbers rise.
pub fn numbers_are_unique()
    ensures { NumbersAreUnique }
{}

/// In every registry no number is that of rows of two lists, of registrations, subscriptions, counters and logs, but for
/// one: the log of a publication has the number of the registration that made it, which is registered with that very log.
pub fn lists_share_no_number()
    ensures { ListsShareNoNumber }
{}

/// No event lowers the number that was drawn last, that of the client that came last, or that of the policy in force.
pub fn last_numbers_never_fall()
    ensures { LastNumbersNeverFall }
{}

/// A log, a registration, a subscription or a counter that was not there before an event has a number above the one that was
/// drawn last before it, a client one above that of the client that came last, and a policy one above that in force.
pub fn new_numbers_are_above_the_last()
    ensures { NewNumbersAreAboveTheLast }
{}

/// So it is over any later events: whatever they bring has numbers above all that were drawn before. No client, log,
/// registration, subscription, counter or policy is ever given the number of one that went.
pub fn numbers_are_never_drawn_again()
    ensures { NumbersAreNeverDrawnAgain }
{}

/// In every registry there are at most 64 clients, 256 publications and 512 images, 1,024 registrations with publications,
/// 512 subscriptions, 1,024 counters and 4,096 pairs, those counted that the policy allows at a later moment; and of one
/// source address at most as many images as the settings say.
pub fn limits_are_kept()
    ensures { LimitsAreKept }
{}

/// And none of these limits is kept too soon: there is room for one more, or for a policy, where the lists concerned are
/// below theirs (for a publication those of registrations and of publications, for a destination that of its publication,
/// for an image also the images of its source address), the pairs would stay within theirs at this moment and later, and a
/// number is left.
pub fn room_is_left_below_the_limits()
    ensures { RoomIsLeftBelowTheLimits }
{}
