//! The requests of a client.

ghost use Rattle.service_records.specs.Gives.{Equals};
ghost use Rattle.service_records.specs.Request.{command_in, decisions_in, fields_bytes, image_positions_in, kind_number, list_in, mail_in, offer_in, poll_all_in, poll_in, publication_positions_in, reload_in, request_body, request_bytes, request_in, request_of, status_in, stop_in, value_in};
ghost use Rattle.std.specs.Prelude.{◌≡◌, ◌≤◌, ◌++◌, length, OnOk};

use crate::fault::RecordFault;
use crate::fields;
use std::alloc::AllocError;

/// What a client asks for.
#[derive(Clone, Copy, Debug, PartialEq, Eq)]
pub enum Request {
    /// A command of the project, whose bytes are the tail.
    Command,
    /// A message, which is the tail, for the log of a registration. It says how many refusals of offers the client has seen, and how many
    /// milliseconds the message may wait.
    Offer {
        seen: u32,
        wait: u32,
        registration: u64,
    },
    /// Up to so many fragments of a log, by a subscription, or none after so many milliseconds.
    Poll {
        limit: u32,
        wait: u32,
        subscription: u64,
        source: u64,
    },
    /// The replies that are there, or none after so many milliseconds.
    Mail {
        wait: u32,
    },
    /// The counters that the client may see.
    List,
    /// The value of a counter.
    Value {
        number: u64,
    },
    /// Of an operator: the driver stops.
    Stop,
    /// Of an operator: the policy's file is read again.
    Reload,
    /// Of an operator: a line for each connection.
    Status,
    /// Up to so many fragments of each of the logs whose pairs are the tail, or none after so many milliseconds.
    PollAll {
        limit: u32,
        wait: u32,
    },
    /// How far a publication of the client's has come.
    PublicationPositions {
        registration: u64,
    },
    /// How far a subscription of the client's has come with a log.
    ImagePositions {
        subscription: u64,
        source: u64,
    },
    /// Of an operator: what was decided, from a number on, which counts decisions from 0. Of `choice` 1 says denials alone, which have
    /// numbers of their own, and 2 as JSON.
    Decisions {
        from: u64,
        choice: u32,
    },
}

fn command(bytes: &[u8]) -> Result<(Request, &[u8]), RecordFault>
    ensures { Equals (λ x. (x.0, x.1.now)) result (command_in bytes.now) }
{
    Ok((Request::Command, bytes))
}

fn offer(bytes: &[u8]) -> Result<(Request, &[u8]), RecordFault>
    ensures { Equals (λ x. (x.0, x.1.now)) result (offer_in bytes.now) }
{
    let (seen, rest) = fields::u32_at(bytes)?;
    let (wait, rest) = fields::u32_at(rest)?;
    let (registration, rest) = fields::u64_at(rest)?;
    Ok((
        Request::Offer {
            seen,
            wait,
            registration,
        },
        rest,
    ))
}

fn poll(bytes: &[u8]) -> Result<(Request, &[u8]), RecordFault>
    ensures { Equals (λ x. (x.0, x.1.now)) result (poll_in bytes.now) }
{
    let (limit, rest) = fields::u32_at(bytes)?;
    let (wait, rest) = fields::u32_at(rest)?;
    let (subscription, rest) = fields::u64_at(rest)?;
    let (source, rest) = fields::u64_at(rest)?;
    fields::end(rest)?;
    Ok((
        Request::Poll {
            limit,
            wait,
            subscription,
            source,
        },
        &[],
    ))
}

fn mail(bytes: &[u8]) -> Result<(Request, &[u8]), RecordFault>
    ensures { Equals (λ x. (x.0, x.1.now)) result (mail_in bytes.now) }
{
    let (wait, rest) = fields::u32_at(bytes)?;
    fields::end(rest)?;
    Ok((Request::Mail { wait }, &[]))
}

fn list(bytes: &[u8]) -> Result<(Request, &[u8]), RecordFault>
    ensures { Equals (λ x. (x.0, x.1.now)) result (list_in bytes.now) }
{
    fields::end(bytes)?;
    Ok((Request::List, &[]))
}

fn value(bytes: &[u8]) -> Result<(Request, &[u8]), RecordFault>
    ensures { Equals (λ x. (x.0, x.1.now)) result (value_in bytes.now) }
{
    let (number, rest) = fields::u64_at(bytes)?;
    fields::end(rest)?;
    Ok((Request::Value { number }, &[]))
}

fn stop(bytes: &[u8]) -> Result<(Request, &[u8]), RecordFault>
    ensures { Equals (λ x. (x.0, x.1.now)) result (stop_in bytes.now) }
{
    fields::end(bytes)?;
    Ok((Request::Stop, &[]))
}

fn reload(bytes: &[u8]) -> Result<(Request, &[u8]), RecordFault>
    ensures { Equals (λ x. (x.0, x.1.now)) result (reload_in bytes.now) }
{
    fields::end(bytes)?;
    Ok((Request::Reload, &[]))
}

fn status(bytes: &[u8]) -> Result<(Request, &[u8]), RecordFault>
    ensures { Equals (λ x. (x.0, x.1.now)) result (status_in bytes.now) }
{
    fields::end(bytes)?;
    Ok((Request::Status, &[]))
}

fn poll_all(bytes: &[u8]) -> Result<(Request, &[u8]), RecordFault>
    ensures { Equals (λ x. (x.0, x.1.now)) result (poll_all_in bytes.now) }
{
    let (limit, rest) = fields::u32_at(bytes)?;
    let (wait, rest) = fields::u32_at(rest)?;
    fields::pairs(rest)?;
    Ok((Request::PollAll { limit, wait }, rest))
}

fn publication_positions(bytes: &[u8]) -> Result<(Request, &[u8]), RecordFault>
    ensures { Equals (λ x. (x.0, x.1.now)) result (publication_positions_in bytes.now) }
{
    let (registration, rest) = fields::u64_at(bytes)?;
    fields::end(rest)?;
    Ok((Request::PublicationPositions { registration }, &[]))
}

fn image_positions(bytes: &[u8]) -> Result<(Request, &[u8]), RecordFault>
    ensures { Equals (λ x. (x.0, x.1.now)) result (image_positions_in bytes.now) }
{
    let (subscription, rest) = fields::u64_at(bytes)?;
    let (source, rest) = fields::u64_at(rest)?;
    fields::end(rest)?;
    Ok((
        Request::ImagePositions {
            subscription,
            source,
        },
        &[],
    ))
}

fn decisions(bytes: &[u8]) -> Result<(Request, &[u8]), RecordFault>
    ensures { Equals (λ x. (x.0, x.1.now)) result (decisions_in bytes.now) }
{
    let (from, rest) = fields::u64_at(bytes)?;
    let (choice, rest) = fields::u32_at(rest)?;
    fields::end(rest)?;
    Ok((Request::Decisions { from, choice }, &[]))
}

#[tactic(auto, unfolding(crate::specs::Request::request_in))]
fn read_fields(kind: u32, bytes: &[u8]) -> Result<(Request, &[u8]), RecordFault>
    ensures { Equals (λ x. (x.0, x.1.now)) result (request_in kind bytes.now) }
{
    match kind {
        1 => command(bytes),
        2 => offer(bytes),
        3 => poll(bytes),
        4 => mail(bytes),
        5 => list(bytes),
        6 => value(bytes),
        7 => stop(bytes),
        8 => reload(bytes),
        9 => status(bytes),
        10 => poll_all(bytes),
        11 => publication_positions(bytes),
        12 => image_positions(bytes),
        13 => decisions(bytes),
        _ => Err(RecordFault::Unknown),
    }
}

impl Request {
    /// The record that the bytes are, and its tail.
    ///
    /// # Errors
    /// `Unknown` where its kind is none of these, whatever follows; else `Malformed`.
    #[tactic(auto, unfolding(crate::specs::Request::request_of))]
    pub fn read(bytes: &[u8]) -> Result<(Request, &[u8]), RecordFault>
        ensures { Equals (λ x. (x.0, x.1.now)) result (request_of bytes.now) }
    {
        let (kind, rest) = fields::u32_at(bytes)?;
        read_fields(kind, rest)
    }

    #[tactic(auto, unfolding(crate::specs::Request::kind_number))]
    fn kind(&self) -> u32
        ensures { result ≡ kind_number self.now }
    {
        match self {
            Request::Command => 1,
            Request::Offer { .. } => 2,
            Request::Poll { .. } => 3,
            Request::Mail { .. } => 4,
            Request::List => 5,
            Request::Value { .. } => 6,
            Request::Stop => 7,
            Request::Reload => 8,
            Request::Status => 9,
            Request::PollAll { .. } => 10,
            Request::PublicationPositions { .. } => 11,
            Request::ImagePositions { .. } => 12,
            Request::Decisions { .. } => 13,
        }
    }

    #[tactic(auto, unfolding(crate::specs::Request::fields_bytes))]
    fn put_fields(&self, out: &mut Vec<u8>) -> Result<(), AllocError>
        ensures { OnOk result (out.new.items ≡ out.old.items ++ fields_bytes self.now) }
    {
        match self {
            Request::Command => Ok(()),
            Request::Offer {
                seen,
                wait,
                registration,
            } => {
                fields::put_u32(out, *seen)?;
                fields::put_u32(out, *wait)?;
                fields::put_u64(out, *registration)
            }
            Request::Poll {
                limit,
                wait,
                subscription,
                source,
            } => {
                fields::put_u32(out, *limit)?;
                fields::put_u32(out, *wait)?;
                fields::put_u64(out, *subscription)?;
                fields::put_u64(out, *source)
            }
            Request::Mail { wait } => { fields::put_u32(out, *wait) }
            Request::List => Ok(()),
            Request::Value { number } => { fields::put_u64(out, *number) }
            Request::Stop => Ok(()),
            Request::Reload => Ok(()),
            Request::Status => Ok(()),
            Request::PollAll { limit, wait } => {
                fields::put_u32(out, *limit)?;
                fields::put_u32(out, *wait)
            }
            Request::PublicationPositions { registration } => {
                fields::put_u64(out, *registration)
            }
            Request::ImagePositions {
                subscription,
                source,
            } => {
                fields::put_u64(out, *subscription)?;
                fields::put_u64(out, *source)
            }
            Request::Decisions { from, choice } => {
                fields::put_u64(out, *from)?;
                fields::put_u32(out, *choice)
            }
        }
    }

    #[tactic(auto, unfolding(crate::specs::Request::fields_bytes, crate::specs::Fields::number_bytes))]
    fn size(&self) -> usize
        ensures is { result ≡ length (fields_bytes self.now) }
        ensures few { result ≤ 24 }
    {
        match self {
            Request::Command => 0,
            Request::Offer { .. } => 16,
            Request::Poll { .. } => 24,
            Request::Mail { .. } => 4,
            Request::List => 0,
            Request::Value { .. } => 8,
            Request::Stop => 0,
            Request::Reload => 0,
            Request::Status => 0,
            Request::PollAll { .. } => 8,
            Request::PublicationPositions { .. } => 8,
            Request::ImagePositions { .. } => 16,
            Request::Decisions { .. } => 12,
        }
    }

    /// How long the record is without its length, as far as a `u64` says it.
    #[tactic(auto, unfolding(crate::specs::Request::request_body), using(crate::proofs::FieldLemmas::length_of_body))]
    fn room(&self, tail: &[u8]) -> usize
        ensures { result ≡ length (request_body self.now tail.now) }
    {
        4 + self.size() + tail.len()
    }

    /// Writes the record, with its length before it, at the end. A record whose kind has no tail is given an empty one.
    ///
    /// # Errors
    /// There is no memory. Then bytes of it may stand at the end.
    #[tactic(auto, unfolding(crate::specs::Request::request_bytes, crate::specs::Request::request_body))]
    pub fn put(&self, tail: &[u8], out: &mut Vec<u8>) -> Result<(), AllocError>
        ensures { OnOk result (out.new.items ≡ out.old.items ++ request_bytes self.now tail.now) }
    {
        fields::put_size(out, self.room(tail))?;
        fields::put_u32(out, self.kind())?;
        self.put_fields(out)?;
        out.extend_from_slice(tail)
    }
}
