ghost use Rattle.command_codec.specs.Reply.{reply_bytes};
ghost use Rattle.driver_core.specs.Replies.{code_for, refusal_text, layout_of};
ghost use Rattle.std.specs.Prelude.{◌≡◌, ◌∷◌, [], IfOk};

use crate::state::refusal::Refusal;
use crate::state::source_identity::SourceIdentity;
use byte_strings::{Bytes, Items, Text};
use command_codec::{
    AvailableImage, ClientTimeout, CounterReady, ErrorCode, ErrorReply, OperationSuccess,
    PublicationReady, SubscriptionReady, UnavailableCounter, UnavailableImage,
};
use std::alloc::{AllocError, Global};

/// What is answered or reported to a client. A denial keeps its verdict: it becomes a text only where the reply is written.
#[derive(Clone, Copy, Debug, PartialEq, Eq)]
pub enum Reply {
    /// The command of this correlation id is refused.
    Error {
        correlation: u64,
        refusal: Refusal,
    },
    /// The command of this correlation id is done.
    OperationSuccess {
        correlation: u64,
    },
    /// The publication stands, under this registration id.
    PublicationReady {
        correlation: u64,
        registration: u64,
        session: i32,
        stream: i32,
    },
    /// The exclusive publication stands, under this registration id.
    ExclusivePublicationReady {
        correlation: u64,
        registration: u64,
        session: i32,
        stream: i32,
    },
    /// The subscription stands, under this registration id.
    SubscriptionReady {
        correlation: u64,
        registration: u64,
    },
    /// The subscription reads the log of this source from this position on.
    AvailableImage {
        source: u64,
        subscription: u64,
        session: i32,
        stream: i32,
        position: u64,
        /// How it has that log.
        identity: SourceIdentity,
    },
    /// The subscription does not read the log of this source any more.
    UnavailableImage {
        source: u64,
        subscription: u64,
        stream: i32,
    },
    /// The counter stands, under this registration number.
    CounterReady {
        correlation: u64,
        registration: u64,
    },
    /// The counter of this registration number is gone.
    UnavailableCounter {
        registration: u64,
    },
    /// Nothing was heard of the client of this id for too long, and it is gone.
    ClientTimeout {
        client: u64,
    },
}

/// A reply with the client over whose handle it goes.
#[derive(Clone, Copy, Debug, PartialEq, Eq)]
pub struct Message {
    pub client: u64,
    pub reply: Reply,
}

impl Message {
    /// The message as the only one.
    pub(crate) fn alone(self, alloc: Global) -> Result<Items<Message>, AllocError>
        ensures { IfOk result (λ messages. messages ≡ self ∷ []) }
    {
        let mut messages = Items::new(alloc);
        messages.push(self)?;
        Ok(messages)
    }
}

impl Refusal {
    /// The code by which clients know the refusal.
    #[tactic(auto, unfolding(crate::specs::Replies::code_for))]
    pub fn code(&self) -> ErrorCode
        ensures { result ≡ code_for self.now }
    {
        match self {
            Refusal::UnknownCommandType => ErrorCode::UnknownCommandType,
            Refusal::MalformedCommand => ErrorCode::MalformedCommand,
            Refusal::WrongClient => ErrorCode::WrongClient,
            Refusal::InvalidChannel => ErrorCode::InvalidChannel,
            Refusal::UnknownSubscription => ErrorCode::UnknownSubscription,
            Refusal::UnknownPublication => ErrorCode::UnknownPublication,
            Refusal::UnknownCounter => ErrorCode::UnknownCounter,
            Refusal::Denied(_) => ErrorCode::Denied,
            Refusal::Conflict => ErrorCode::Conflict,
            Refusal::Full => ErrorCode::Full,
            Refusal::NoRoom => ErrorCode::NoRoom,
        }
    }

    /// The refusal in words: the code's, or for a denial the verdict's.
    #[tactic(auto, unfolding(crate::specs::Replies::refusal_text))]
    pub fn text(&self, alloc: Global) -> Result<Text, AllocError>
        ensures { IfOk result (λ text. text ≡ refusal_text self.now) }
    {
        match self {
            Refusal::Denied(verdict) => verdict.text(alloc),
            _ => Text::new(alloc, self.code().text().unwrap_or("")),
        }
    }
}

impl Reply {
    /// The reply as it is laid out.
    #[tactic(auto, unfolding(crate::specs::Replies::layout_of))]
    fn layout(&self, alloc: Global) -> Result<command_codec::Reply, AllocError>
        ensures { IfOk result (λ reply. reply ≡ layout_of self.now) }
    {
        match self {
            Reply::Error {
                correlation,
                refusal,
            } => {
                let text = refusal.text(alloc)?;
                Ok(command_codec::Reply::Error(ErrorReply {
                    correlation: *correlation,
                    code: refusal.code(),
                    text,
                }))
            }
            Reply::OperationSuccess { correlation } => {
                Ok(command_codec::Reply::OperationSuccess(OperationSuccess {
                    correlation: *correlation,
                }))
            }
            Reply::PublicationReady {
                correlation,
                registration,
                session,
                stream,
            } => Ok(command_codec::Reply::PublicationReady(PublicationReady {
                correlation: *correlation,
                registration: *registration,
                session: *session,
                stream: *stream,
            })),
            Reply::ExclusivePublicationReady {
                correlation,
                registration,
                session,
                stream,
            } => Ok(command_codec::Reply::ExclusivePublicationReady(PublicationReady {
                correlation: *correlation,
                registration: *registration,
                session: *session,
                stream: *stream,
            })),
            Reply::AvailableImage {
                source,
                subscription,
                session,
                stream,
                position,
                identity,
            } => Ok(command_codec::Reply::AvailableImage(AvailableImage {
                source: *source,
                subscription: *subscription,
                session: *session,
                stream: *stream,
                position: *position,
                origin: identity.text(alloc)?,
            })),
            Reply::UnavailableImage {
                source,
                subscription,
                stream,
            } => Ok(command_codec::Reply::UnavailableImage(UnavailableImage {
                source: *source,
                subscription: *subscription,
                stream: *stream,
            })),
            Reply::SubscriptionReady {
                correlation,
                registration,
            } => Ok(command_codec::Reply::SubscriptionReady(SubscriptionReady {
                correlation: *correlation,
                registration: *registration,
            })),
            Reply::CounterReady {
                correlation,
                registration,
            } => Ok(command_codec::Reply::CounterReady(CounterReady {
                correlation: *correlation,
                registration: *registration,
            })),
            Reply::UnavailableCounter { registration } => Ok(
                command_codec::Reply::UnavailableCounter(UnavailableCounter {
                    registration: *registration,
                }),
            ),
            Reply::ClientTimeout { client } => {
                Ok(command_codec::Reply::ClientTimeout(ClientTimeout { client: *client }))
            }
        }
    }

    /// The bytes that the client gets.
    pub fn bytes(&self, alloc: Global) -> Result<Bytes, AllocError>
        ensures { IfOk result (λ bytes. bytes ≡ reply_bytes (layout_of self.now)) }
    {
        self.layout(alloc)?.write(alloc)
    }
}
