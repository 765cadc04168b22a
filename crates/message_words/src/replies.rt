//! Replies in words.

ghost use Rattle.message_words.specs.Replies.{available_line, code_name, error_line, ready_text, reply_line};
ghost use Rattle.std.specs.Prelude.{◌≡◌, IfOk};

use crate::key::Key;
use crate::shown::text_shown;
use byte_strings::Text;
use command_codec::{AvailableImage, ErrorCode, ErrorReply, PublicationReady, Reply};
use std::alloc::{AllocError, Global};

/// The name of an error code.
fn code_name(code: ErrorCode) -> &'static str
    ensures { result.now ≡ code_name code }
{
    match code {
        ErrorCode::InvalidChannel => "INVALID_CHANNEL",
        ErrorCode::UnknownSubscription => "UNKNOWN_SUBSCRIPTION",
        ErrorCode::UnknownPublication => "UNKNOWN_PUBLICATION",
        ErrorCode::UnknownCounter => "UNKNOWN_COUNTER",
        ErrorCode::UnknownCommandType => "UNKNOWN_COMMAND_TYPE_ID",
        ErrorCode::MalformedCommand => "MALFORMED_COMMAND",
        ErrorCode::Denied => "DENIED",
        ErrorCode::NoMemory => "NO_MEMORY",
        ErrorCode::Full => "FULL",
        ErrorCode::WrongClient => "WRONG_CLIENT",
        ErrorCode::Conflict => "CONFLICT",
        ErrorCode::NoRoom => "NO_ROOM",
    }
}

fn error_line(alloc: Global, reply: &ErrorReply) -> Result<Text, AllocError>
    ensures { IfOk result (λ line. line ≡ error_line reply.now) }
{
    let correlation = reply.correlation;
    let number = reply.code.number();
    let name = code_name(reply.code);
    let text = text_shown(alloc, Key::Text, Key::TextHex, reply.text.as_str())?;
    Ok(Text::from(format!(in alloc;
        "on-error correlation={correlation} code={number} {name} {text}"
    )?))
}

fn available_line(alloc: Global, reply: &AvailableImage) -> Result<Text, AllocError>
    ensures { IfOk result (λ line. line ≡ available_line reply.now) }
{
    let source = reply.source;
    let subscription = reply.subscription;
    let session = reply.session;
    let stream = reply.stream;
    let position = reply.position;
    let origin = text_shown(alloc, Key::Origin, Key::OriginHex, reply.origin.as_str())?;
    Ok(Text::from(format!(in alloc;
        "on-available-image source={source} subscription={subscription} session={session} stream={stream} position={position} {origin}"
    )?))
}

fn ready_text(alloc: Global, reply: PublicationReady) -> Result<Text, AllocError>
    ensures { IfOk result (λ text. text ≡ ready_text reply) }
{
    let PublicationReady {
        correlation,
        registration,
        session,
        stream,
    } = reply;
    Ok(Text::from(format!(in alloc;
        " correlation={correlation} registration={registration} session={session} stream={stream}"
    )?))
}

/// The line of a reply.
#[tactic(auto, unfolding(crate::specs::Replies::reply_line))]
pub fn reply_line(alloc: Global, reply: &Reply) -> Result<Text, AllocError>
    ensures { IfOk result (λ line. line ≡ reply_line reply.now) }
{
    match reply {
        Reply::Error(reply) => error_line(alloc, reply),
        Reply::AvailableImage(reply) => available_line(alloc, reply),
        Reply::PublicationReady(reply) => {
            let text = ready_text(alloc, *reply)?;
            Ok(Text::from(format!(in alloc; "on-publication-ready{text}")?))
        }
        Reply::ExclusivePublicationReady(reply) => {
            let text = ready_text(alloc, *reply)?;
            Ok(Text::from(format!(in alloc; "on-exclusive-publication-ready{text}")?))
        }
        Reply::OperationSuccess(reply) => {
            let correlation = reply.correlation;
            Ok(Text::from(format!(in alloc; "on-operation-success correlation={correlation}")?))
        }
        Reply::UnavailableImage(reply) => {
            let source = reply.source;
            let subscription = reply.subscription;
            let stream = reply.stream;
            Ok(Text::from(format!(in alloc;
                "on-unavailable-image source={source} subscription={subscription} stream={stream}"
            )?))
        }
        Reply::SubscriptionReady(reply) => {
            let correlation = reply.correlation;
            let registration = reply.registration;
            Ok(Text::from(format!(in alloc;
                "on-subscription-ready correlation={correlation} registration={registration}"
            )?))
        }
        Reply::CounterReady(reply) => {
            let correlation = reply.correlation;
            let registration = reply.registration;
            Ok(Text::from(format!(in alloc;
                "on-counter-ready correlation={correlation} registration={registration}"
            )?))
        }
        Reply::UnavailableCounter(reply) => {
            let registration = reply.registration;
            Ok(Text::from(format!(in alloc; "on-unavailable-counter registration={registration}")?))
        }
        Reply::ClientTimeout(reply) => {
            let client = reply.client;
            Ok(Text::from(format!(in alloc; "on-client-timeout client={client}")?))
        }
    }
}
