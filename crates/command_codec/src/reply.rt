ghost use Rattle.std.specs.Prelude.{◌≡◌, ◌++◌, false, IfOk, OnOk};
ghost use Rattle.command_codec.specs.Gives.{Gives, takes_memory};

use crate::available_image::AvailableImage;
use crate::client_timeout::ClientTimeout;
use crate::counter_ready::CounterReady;
use crate::error_reply::ErrorReply;
use crate::fault::CommandFault;
use crate::fields;
use crate::operation_success::OperationSuccess;
use crate::publication_ready::PublicationReady;
use crate::subscription_ready::SubscriptionReady;
use crate::unavailable_counter::UnavailableCounter;
use crate::unavailable_image::UnavailableImage;
use byte_strings::Bytes;
use std::alloc::{AllocError, Global};

/// What the driver answers or reports to a client.
#[derive(Debug, PartialEq, Eq, Drop)]
pub enum Reply {
    Error(ErrorReply),
    AvailableImage(AvailableImage),
    PublicationReady(PublicationReady),
    OperationSuccess(OperationSuccess),
    UnavailableImage(UnavailableImage),
    ExclusivePublicationReady(PublicationReady),
    SubscriptionReady(SubscriptionReady),
    CounterReady(CounterReady),
    UnavailableCounter(UnavailableCounter),
    ClientTimeout(ClientTimeout),
}

/// The types of replies that have a number here.
#[derive(Clone, Copy)]
enum Kind {
    Error,
    AvailableImage,
    PublicationReady,
    OperationSuccess,
    UnavailableImage,
    ExclusivePublicationReady,
    SubscriptionReady,
    CounterReady,
    UnavailableCounter,
    ClientTimeout,
}

impl Kind {
    ghost use Rattle.command_codec.specs.Reply.{reply_fields_of, reply_has_text, reply_kind_of};

    #[tactic(auto, unfolding(crate::specs::Reply::reply_kind_of, crate::specs::Reply::reply_number))]
    fn from_number(number: u32) -> Result<Kind, CommandFault>
        ensures { result ≡ reply_kind_of number }
    {
        match number {
            0x0F01 => Ok(Kind::Error),
            0x0F02 => Ok(Kind::AvailableImage),
            0x0F03 => Ok(Kind::PublicationReady),
            0x0F04 => Ok(Kind::OperationSuccess),
            0x0F05 => Ok(Kind::UnavailableImage),
            0x0F06 => Ok(Kind::ExclusivePublicationReady),
            0x0F07 => Ok(Kind::SubscriptionReady),
            0x0F08 => Ok(Kind::CounterReady),
            0x0F09 => Ok(Kind::UnavailableCounter),
            0x0F0A => Ok(Kind::ClientTimeout),
            _ => Err(CommandFault::Unknown),
        }
    }

    #[tactic(auto, unfolding(crate::specs::Reply::reply_fields_of))]
    fn read(self, alloc: Global, bytes: &[u8]) -> Result<Reply, CommandFault>
        ensures exact { Gives result (reply_fields_of self bytes.now) }
        ensures without_memory { takes_memory reply_has_text (reply_fields_of self bytes.now) ≡ false
            → result ≡ reply_fields_of self bytes.now }
    {
        match self {
            Kind::Error => Ok(Reply::Error(ErrorReply::read(alloc, bytes)?)),
            Kind::AvailableImage => Ok(Reply::AvailableImage(AvailableImage::read(alloc, bytes)?)),
            Kind::PublicationReady => Ok(Reply::PublicationReady(PublicationReady::read(bytes)?)),
            Kind::OperationSuccess => Ok(Reply::OperationSuccess(OperationSuccess::read(bytes)?)),
            Kind::UnavailableImage => Ok(Reply::UnavailableImage(UnavailableImage::read(bytes)?)),
            Kind::ExclusivePublicationReady => Ok(Reply::ExclusivePublicationReady(
                PublicationReady::read(bytes)?,
            )),
            Kind::SubscriptionReady => Ok(Reply::SubscriptionReady(SubscriptionReady::read(
                bytes,
            )?)),
            Kind::CounterReady => Ok(Reply::CounterReady(CounterReady::read(bytes)?)),
            Kind::UnavailableCounter => Ok(Reply::UnavailableCounter(UnavailableCounter::read(
                bytes,
            )?)),
            Kind::ClientTimeout => Ok(Reply::ClientTimeout(ClientTimeout::read(bytes)?)),
        }
    }
}

impl Reply {
    ghost use Rattle.command_codec.specs.Reply.{reply_bytes, reply_fields_bytes, reply_has_text, reply_kind_in, reply_number, reply_of};

    /// The reply that the bytes are. Its type is looked at first, so a type that is not known is `Unknown` whatever
    /// follows it. Memory is taken for a text, and only once all of the bytes are found sound.
    #[tactic(auto, unfolding(crate::specs::Reply::reply_of))]
    pub fn read(alloc: Global, bytes: &[u8]) -> Result<Reply, CommandFault>
        ensures exact { Gives result (reply_of bytes.now) }
        ensures without_memory { takes_memory reply_has_text (reply_of bytes.now) ≡ false
            → result ≡ reply_of bytes.now }
    {
        let (number, rest) = fields::u32_at(bytes)?;
        let kind = Kind::from_number(number)?;
        kind.read(alloc, rest)
    }

    #[tactic(auto, unfolding(crate::specs::Reply::reply_number))]
    fn type_number(&self) -> u32
        ensures { result ≡ reply_number (reply_kind_in self.now) }
    {
        match self {
            Reply::Error(_) => 0x0F01,
            Reply::AvailableImage(_) => 0x0F02,
            Reply::PublicationReady(_) => 0x0F03,
            Reply::OperationSuccess(_) => 0x0F04,
            Reply::UnavailableImage(_) => 0x0F05,
            Reply::ExclusivePublicationReady(_) => 0x0F06,
            Reply::SubscriptionReady(_) => 0x0F07,
            Reply::CounterReady(_) => 0x0F08,
            Reply::UnavailableCounter(_) => 0x0F09,
            Reply::ClientTimeout(_) => 0x0F0A,
        }
    }

    #[tactic(auto, unfolding(crate::specs::Reply::reply_fields_bytes))]
    fn put(&self, out: &mut Vec<u8>) -> Result<(), AllocError>
        ensures { OnOk result (out.new.items ≡ out.old.items ++ reply_fields_bytes self.now) }
    {
        match self {
            Reply::Error(fields) => fields.put(out),
            Reply::AvailableImage(fields) => fields.put(out),
            Reply::PublicationReady(fields) => fields.put(out),
            Reply::OperationSuccess(fields) => fields.put(out),
            Reply::UnavailableImage(fields) => fields.put(out),
            Reply::ExclusivePublicationReady(fields) => fields.put(out),
            Reply::SubscriptionReady(fields) => fields.put(out),
            Reply::CounterReady(fields) => fields.put(out),
            Reply::UnavailableCounter(fields) => fields.put(out),
            Reply::ClientTimeout(fields) => fields.put(out),
        }
    }

    /// The bytes of the reply. They are read again as the same reply if its texts are ASCII and shorter than 2^31
    /// bytes. (Of a longer text's length the lowest four bytes are written.)
    #[tactic(auto, unfolding(crate::specs::Reply::reply_bytes))]
    pub fn write(&self, alloc: Global) -> Result<Bytes, AllocError>
        ensures { IfOk result (λ bytes. bytes ≡ reply_bytes self.now) }
    {
        let mut out = Vec::new(alloc);
        fields::put_u32(&mut out, self.type_number())?;
        self.put(&mut out)?;
        Ok(Bytes::from(out))
    }

    /// Another reply that is the same.
    pub fn copy(&self, alloc: Global) -> Result<Reply, AllocError>
        ensures { IfOk result (λ copy. copy ≡ self.now) }
    {
        Ok(match self {
            Reply::Error(fields) => Reply::Error(fields.copy(alloc)?),
            Reply::AvailableImage(fields) => Reply::AvailableImage(fields.copy(alloc)?),
            Reply::PublicationReady(fields) => Reply::PublicationReady(*fields),
            Reply::OperationSuccess(fields) => Reply::OperationSuccess(*fields),
            Reply::UnavailableImage(fields) => Reply::UnavailableImage(*fields),
            Reply::ExclusivePublicationReady(fields) => Reply::ExclusivePublicationReady(*fields),
            Reply::SubscriptionReady(fields) => Reply::SubscriptionReady(*fields),
            Reply::CounterReady(fields) => Reply::CounterReady(*fields),
            Reply::UnavailableCounter(fields) => Reply::UnavailableCounter(*fields),
            Reply::ClientTimeout(fields) => Reply::ClientTimeout(*fields),
        })
    }
}
