ghost use Rattle.channel_uri.specs.Media.{media_number};
ghost use Rattle.compiled_policy.specs.Class.{class_of, is_in, is_over};
ghost use Rattle.policy_core.specs.Question.{question_of};
ghost use Rattle.std.specs.Prelude.{◌≡◌, ◌<◌};

use channel_uri::{Media, Pattern};
use policy_core::{Act, Request, Rule};

/// How many classes there are: 14 acts over 3 media.
pub(crate) const CLASSES: usize = 42;

fn number_of(media: Media) -> usize
    ensures { result ≡ media_number media }
{
    match media {
        Media::Udp => 0,
        Media::Ipc => 1,
        Media::Counter => 2,
    }
}

/// The pattern covers channels of this medium.
fn is_over(pattern: &Pattern, media: usize) -> bool
    ensures { result ≡ is_over pattern.now media }
{
    match pattern {
        Pattern::Any => true,
        Pattern::Of(own, _) => number_of(*own) == media,
    }
}

/// The rule may speak of what is asked in this class.
pub(crate) fn is_in(class: usize, rule: &Rule) -> bool
    requires { class < 42 }
    ensures { result ≡ is_in class rule.now }
{
    rule.acts.hold(Act::EVERY[class / 3]) && is_over(&rule.channel, class % 3)
}

/// The class of what is asked.
pub(crate) fn class_of(request: &Request<'_>) -> usize
    ensures value { result ≡ class_of (question_of request.now) }
    ensures small { result < 42 }
{
    3 * (request.act as usize) + number_of(request.channel.media())
}
