//! A reply, as a record.

ghost use Rattle.driver_service.specs.Calls.{Writes};
ghost use Rattle.served_clients.specs.Telling.{TellsMail, lack_text, mail_bytes, reply_text};
ghost use Rattle.std.specs.Prelude.{◌≡◌, ◌++◌, IfOk, OnOk, Some};

use crate::polling::append;
use byte_strings::{Bytes, Text};
use command_codec::{ErrorCode, ErrorReply};
use driver_service::{Reason, Refusal};
use media_driver::{ClientReply, DriverNaming, Mail};
use service_records::Answer;
use std::alloc::{AllocError, Global};

/// The bytes of the reply that says that memory ran out.
fn lack(alloc: Global, correlation: u64) -> Result<Bytes, AllocError>
    ensures { IfOk result (λ bytes. bytes ≡ lack_text correlation) }
{
    let text = Text::new(alloc, "no memory")?;
    let reply = command_codec::Reply::Error(ErrorReply {
        correlation,
        code: ErrorCode::NoMemory,
        text,
    });
    reply.write(alloc)
}

/// The bytes of a reply.
fn bytes_of(alloc: Global, reply: &ClientReply) -> Result<Bytes, AllocError>
    ensures { IfOk result (λ bytes. bytes ≡ reply_text reply.now) }
{
    match reply {
        ClientReply::Of(reply) => reply.bytes(alloc),
        ClientReply::NoMemory { correlation } => lack(alloc, *correlation),
    }
}

/// The record of a mail.
fn put_mail<N: DriverNaming>(
    alloc: Global,
    mail: &Mail<N>,
    out: &mut Vec<u8>,
) -> Result<(), AllocError>
    ensures { OnOk result (out.new.items ≡ out.old.items ++ mail_bytes mail.now) }
{
    let reply = mail.reply();
    let bytes = bytes_of(alloc, &reply)?;
    let fields = Answer::Reply { lost: mail.lost() };
    fields.put(bytes.as_slice(), out)
}

/// Appends the record of a mail, or nothing where there is no memory for it.
fn tell_one<N: DriverNaming>(
    alloc: Global,
    mail: &Mail<N>,
    scratch: &mut Vec<u8>,
    out: &mut Vec<u8>,
) -> Result<bool, Refusal>
    ensures { Writes out.old.items out.new.items (λ bytes. TellsMail (Some mail.now) bytes result) }
{
    scratch.clear();
    if put_mail(alloc, mail, scratch).is_err() {
        return Err(Refusal::Because(Reason::NoMemory));
    }
    append(scratch.as_slice(), out)?;
    Ok(true)
}

/// Tells of the next mail, if there is one: whether its record stands at the end of `out` now.
pub(crate) fn tell_mail<N: DriverNaming>(
    alloc: Global,
    mail: &Option<Mail<N>>,
    scratch: &mut Vec<u8>,
    out: &mut Vec<u8>,
) -> Result<bool, Refusal>
    ensures { Writes out.old.items out.new.items (λ bytes. TellsMail mail.now bytes result) }
{
    match mail {
        Some(mail) => tell_one(alloc, mail, scratch, out),
        None => Ok(false),
    }
}
