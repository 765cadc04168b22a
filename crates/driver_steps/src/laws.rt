//! What holds over every run, each of whose steps goes by the newest registry or by an older one: each function does
//! nothing, and its clause is the law.

ghost use Rattle.driver_steps.specs.CarryingLaws.{PayloadsComeFromTheirPublisher};
ghost use Rattle.driver_steps.specs.JoinLaws.{AddressesAreLearntExactly};
ghost use Rattle.driver_steps.specs.ResendLaws.{ResendsComeFromTheLiveLog};
ghost use Rattle.driver_steps.specs.Laws.{BytesComeFromTheLiveLog, LogsFollowTheRegistry, OffersAreGrantedExactly, PoliciesStandAtTheirMoment, PollsAreGrantedExactly, RunsTakeEvents};
ghost use Rattle.driver_steps.specs.SendLaws.{SendsAreGrantedExactly};

use driver_core::policies_are_of_their_moment;

/// A run leaves the registry that its events leave, those apart that were refused memory: so what is said of all lists of
/// events holds of runs. Whatever comes next is answered by that registry, unless it is refused memory: an event by its
/// outcome, a look at the counters by what the client is shown of them.
pub fn runs_take_events()
    ensures { RunsTakeEvents }
{}

/// At the end of every run the policy in force is what its text makes of it at the registry's moment: each of its rules stands
/// exactly where that moment is one of its own. So where the other laws speak of the registry's policy, they speak of that
/// moment, whatever the moment of a step is.
pub fn policies_stand_at_their_moment()
    ensures { PoliciesStandAtTheirMoment }
{
    policies_are_of_their_moment();
}

/// At the end of every run each live publication and each image has its log and no other log is open, no two of them share
/// a page, and exactly the subscriptions read it that the registry's lists and the policy in force say. So a reload closes exactly the
/// images that are no longer allowed, in the logs too.
pub fn logs_follow_the_registry()
    ensures { LogsFollowTheRegistry }
{}

/// A client's offer by a registration of its own goes on to the log exactly where the first rule that matches allows it, or
/// where none matches and the default does; else it changes nothing and is answered by that verdict. Where the client has no such
/// registration, it changes nothing.
pub fn offers_are_granted_exactly()
    ensures { OffersAreGrantedExactly }
{}

/// A client's poll of a log that its own subscription reads is given the log's fragments exactly where the first rule that
/// matches allows it, or where none matches and the default does; else it changes nothing and is answered by that verdict. Where
/// the subscription does not read the log, or is another client's, it changes nothing.
pub fn polls_are_granted_exactly()
    ensures { PollsAreGrantedExactly }
{}

/// A turn of the sender with a publication over datagrams cuts the one datagram that is due of all frames ever appended, if
/// one is, and reports for each destination of the publication, in the order in which they were named: it goes there exactly
/// where the first rule that matches allows the destination's maker to send there, or where none matches and the default
/// does; else that verdict is reported. Where the publication learns its destinations, these are the addresses that its log has
/// learnt, in that order, without those that are past the timeout, which are forgotten, also where nothing is due; of each the
/// principal that is bound to it is asked for. The log moves on by what was cut, whoever gets it. Where there is no such
/// publication, nothing is changed.
pub fn sends_are_granted_exactly()
    ensures { SendsAreGrantedExactly }
{}

/// What a poll gives is what the next frames carry of the log that was asked for, which is open: from where the subscription
/// stood on, in their order, each once, as many as it asked for while there were some. Each fragment of a publication's log
/// was put into it by an offer that the policy allowed of the registry by which it went. It makes no difference by which
/// registry the poll goes.
pub fn bytes_come_from_the_live_log()
    ensures { BytesComeFromTheLiveLog }
{}

/// Each fragment that a poll gives of an image's log is what a frame holds that a datagram brought: a datagram that came
/// earlier in the run to the image's endpoint, of its session and stream, from the address at which its publisher is. So a
/// poll gives nothing that came from another address, by whichever registry it goes.
pub fn payloads_come_from_their_publisher()
    ensures { PayloadsComeFromTheirPublisher }
{}

/// Where a datagram is answered by datagrams that are sent again, it is a NAK, they go to the address that it is from, and the
/// first rule that matches lets the principal that is bound to that address have them, or where none matches the default
/// does. They are what it asks for of all frames of the publication of its session and stream, whose log is open. A NAK that
/// the policy denies changes nothing and is dropped by that verdict.
pub fn resends_come_from_the_live_log()
    ensures { ResendsComeFromTheLiveLog }
{}

/// A status message for a publication that learns its destinations makes the address from which it came one exactly where the
/// first rule that matches lets the principal that is bound to the address join, or where none matches the default does, and
/// fewer than 32 others were learnt, or it was learnt before. Where the policy denies it, the address is forgotten. At the end
/// of every run no log has learnt an address twice, or more than 32. An address goes by a denied status message from it, at a
/// turn of the sender past its timeout, or with its log, and in no other way: no other step changes which addresses a log has
/// learnt, in which order, or when each was heard of. A log begins without any. It makes no difference by which registry a
/// step goes.
pub fn addresses_are_learnt_exactly()
    ensures { AddressesAreLearntExactly }
{}
