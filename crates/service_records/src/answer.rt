//! The answers of the driver.

ghost use Rattle.service_records.specs.Gives.{Equals};
ghost use Rattle.service_records.specs.Answer.{answer_body, answer_bytes, answer_in, answer_of, bye_in, done_in, fields_bytes, fragment_in, image_positions_in, kind_number, line_in, part_in, part_refused_in, publication_positions_in, refused_in, reply_in, row_in, taken_in, value_in, welcome_in};
ghost use Rattle.std.specs.Prelude.{◌≡◌, ◌≤◌, ◌++◌, length, OnOk};

use crate::fault::RecordFault;
use crate::fields;
use std::alloc::AllocError;

/// What a client is answered.
#[derive(Clone, Copy, Debug, PartialEq, Eq)]
pub enum Answer {
    /// The first record: which records these are, for whom the client acts, by which id the driver knows it, and how long it may be
    /// silent, in nanoseconds.
    Welcome {
        version: u32,
        principal: u32,
        client: u64,
        liveness: u64,
    },
    /// A reply, whose bytes are the tail, and how many were lost before it.
    Reply {
        lost: u64,
    },
    /// An offer was taken: the position after it.
    Taken {
        position: u64,
    },
    /// A request was refused. The tail says why, in words.
    Refused {
        code: i32,
    },
    /// A fragment, whose bytes are the tail, the position after it, and its flags.
    Fragment {
        position: u64,
        flags: u32,
    },
    /// The request was done, and that many records answer it.
    Done {
        count: u32,
    },
    /// A counter. Its label is the tail.
    Row {
        number: u64,
        type_id: i32,
        value: i64,
    },
    /// The value of a counter.
    Value {
        value: i64,
    },
    /// The last record: the connection ends. The tail says why, in words.
    Bye {
        code: i32,
    },
    /// A line of text, which is the tail.
    Line,
    /// Of several logs, that in this place, from 0 on, gave what follows.
    Part {
        place: u32,
    },
    /// The log of the last such place is refused. The tail says why, in words.
    PartRefused {
        code: i32,
    },
    /// How far a publication has come: the position after its last frame, the one from which on no offer is taken, the one up to
    /// which frames were sent, and the least up to which the receivers have taken them that are heard. Of `flags` 1 says that
    /// somebody takes what is offered, and 2 that a receiver is heard.
    PublicationPositions {
        position: u64,
        limit: u64,
        sent: u64,
        consumed: u64,
        flags: u32,
    },
    /// How far a subscription has come with a log: the position at which the stream is joined, the one up to which it was read,
    /// and the one up to which it is there without a gap.
    ImagePositions {
        joined: u64,
        position: u64,
        received: u64,
    },
}

fn welcome(bytes: &[u8]) -> Result<(Answer, &[u8]), RecordFault>
    ensures { Equals (λ x. (x.0, x.1.now)) result (welcome_in bytes.now) }
{
    let (version, rest) = fields::u32_at(bytes)?;
    let (principal, rest) = fields::u32_at(rest)?;
    let (client, rest) = fields::u64_at(rest)?;
    let (liveness, rest) = fields::u64_at(rest)?;
    fields::end(rest)?;
    Ok((
        Answer::Welcome {
            version,
            principal,
            client,
            liveness,
        },
        &[],
    ))
}

fn reply(bytes: &[u8]) -> Result<(Answer, &[u8]), RecordFault>
    ensures { Equals (λ x. (x.0, x.1.now)) result (reply_in bytes.now) }
{
    let (lost, rest) = fields::u64_at(bytes)?;
    Ok((Answer::Reply { lost }, rest))
}

fn taken(bytes: &[u8]) -> Result<(Answer, &[u8]), RecordFault>
    ensures { Equals (λ x. (x.0, x.1.now)) result (taken_in bytes.now) }
{
    let (position, rest) = fields::u64_at(bytes)?;
    fields::end(rest)?;
    Ok((Answer::Taken { position }, &[]))
}

fn refused(bytes: &[u8]) -> Result<(Answer, &[u8]), RecordFault>
    ensures { Equals (λ x. (x.0, x.1.now)) result (refused_in bytes.now) }
{
    let (code, rest) = fields::i32_at(bytes)?;
    Ok((Answer::Refused { code }, rest))
}

fn fragment(bytes: &[u8]) -> Result<(Answer, &[u8]), RecordFault>
    ensures { Equals (λ x. (x.0, x.1.now)) result (fragment_in bytes.now) }
{
    let (position, rest) = fields::u64_at(bytes)?;
    let (flags, rest) = fields::u32_at(rest)?;
    Ok((Answer::Fragment { position, flags }, rest))
}

fn done(bytes: &[u8]) -> Result<(Answer, &[u8]), RecordFault>
    ensures { Equals (λ x. (x.0, x.1.now)) result (done_in bytes.now) }
{
    let (count, rest) = fields::u32_at(bytes)?;
    fields::end(rest)?;
    Ok((Answer::Done { count }, &[]))
}

fn row(bytes: &[u8]) -> Result<(Answer, &[u8]), RecordFault>
    ensures { Equals (λ x. (x.0, x.1.now)) result (row_in bytes.now) }
{
    let (number, rest) = fields::u64_at(bytes)?;
    let (type_id, rest) = fields::i32_at(rest)?;
    let (value, rest) = fields::i64_at(rest)?;
    Ok((
        Answer::Row {
            number,
            type_id,
            value,
        },
        rest,
    ))
}

fn value(bytes: &[u8]) -> Result<(Answer, &[u8]), RecordFault>
    ensures { Equals (λ x. (x.0, x.1.now)) result (value_in bytes.now) }
{
    let (value, rest) = fields::i64_at(bytes)?;
    fields::end(rest)?;
    Ok((Answer::Value { value }, &[]))
}

fn bye(bytes: &[u8]) -> Result<(Answer, &[u8]), RecordFault>
    ensures { Equals (λ x. (x.0, x.1.now)) result (bye_in bytes.now) }
{
    let (code, rest) = fields::i32_at(bytes)?;
    Ok((Answer::Bye { code }, rest))
}

fn line(bytes: &[u8]) -> Result<(Answer, &[u8]), RecordFault>
    ensures { Equals (λ x. (x.0, x.1.now)) result (line_in bytes.now) }
{
    Ok((Answer::Line, bytes))
}

fn part(bytes: &[u8]) -> Result<(Answer, &[u8]), RecordFault>
    ensures { Equals (λ x. (x.0, x.1.now)) result (part_in bytes.now) }
{
    let (place, rest) = fields::u32_at(bytes)?;
    fields::end(rest)?;
    Ok((Answer::Part { place }, &[]))
}

fn part_refused(bytes: &[u8]) -> Result<(Answer, &[u8]), RecordFault>
    ensures { Equals (λ x. (x.0, x.1.now)) result (part_refused_in bytes.now) }
{
    let (code, rest) = fields::i32_at(bytes)?;
    Ok((Answer::PartRefused { code }, rest))
}

fn publication_positions(bytes: &[u8]) -> Result<(Answer, &[u8]), RecordFault>
    ensures { Equals (λ x. (x.0, x.1.now)) result (publication_positions_in bytes.now) }
{
    let (position, rest) = fields::u64_at(bytes)?;
    let (limit, rest) = fields::u64_at(rest)?;
    let (sent, rest) = fields::u64_at(rest)?;
    let (consumed, rest) = fields::u64_at(rest)?;
    let (flags, rest) = fields::u32_at(rest)?;
    fields::end(rest)?;
    Ok((
        Answer::PublicationPositions {
            position,
            limit,
            sent,
            consumed,
            flags,
        },
        &[],
    ))
}

fn image_positions(bytes: &[u8]) -> Result<(Answer, &[u8]), RecordFault>
    ensures { Equals (λ x. (x.0, x.1.now)) result (image_positions_in bytes.now) }
{
    let (joined, rest) = fields::u64_at(bytes)?;
    let (position, rest) = fields::u64_at(rest)?;
    let (received, rest) = fields::u64_at(rest)?;
    fields::end(rest)?;
    Ok((
        Answer::ImagePositions {
            joined,
            position,
            received,
        },
        &[],
    ))
}

#[tactic(auto, unfolding(crate::specs::Answer::answer_in))]
fn read_fields(kind: u32, bytes: &[u8]) -> Result<(Answer, &[u8]), RecordFault>
    ensures { Equals (λ x. (x.0, x.1.now)) result (answer_in kind bytes.now) }
{
    match kind {
        0x101 => welcome(bytes),
        0x102 => reply(bytes),
        0x103 => taken(bytes),
        0x104 => refused(bytes),
        0x105 => fragment(bytes),
        0x106 => done(bytes),
        0x107 => row(bytes),
        0x108 => value(bytes),
        0x109 => bye(bytes),
        0x10a => line(bytes),
        0x10b => part(bytes),
        0x10c => part_refused(bytes),
        0x10d => publication_positions(bytes),
        0x10e => image_positions(bytes),
        _ => Err(RecordFault::Unknown),
    }
}

impl Answer {
    /// The record that the bytes are, and its tail.
    ///
    /// # Errors
    /// `Unknown` where its kind is none of these, whatever follows; else `Malformed`.
    #[tactic(auto, unfolding(crate::specs::Answer::answer_of))]
    pub fn read(bytes: &[u8]) -> Result<(Answer, &[u8]), RecordFault>
        ensures { Equals (λ x. (x.0, x.1.now)) result (answer_of bytes.now) }
    {
        let (kind, rest) = fields::u32_at(bytes)?;
        read_fields(kind, rest)
    }

    #[tactic(auto, unfolding(crate::specs::Answer::kind_number))]
    fn kind(&self) -> u32
        ensures { result ≡ kind_number self.now }
    {
        match self {
            Answer::Welcome { .. } => 0x101,
            Answer::Reply { .. } => 0x102,
            Answer::Taken { .. } => 0x103,
            Answer::Refused { .. } => 0x104,
            Answer::Fragment { .. } => 0x105,
            Answer::Done { .. } => 0x106,
            Answer::Row { .. } => 0x107,
            Answer::Value { .. } => 0x108,
            Answer::Bye { .. } => 0x109,
            Answer::Line => 0x10a,
            Answer::Part { .. } => 0x10b,
            Answer::PartRefused { .. } => 0x10c,
            Answer::PublicationPositions { .. } => 0x10d,
            Answer::ImagePositions { .. } => 0x10e,
        }
    }

    #[tactic(auto, unfolding(crate::specs::Answer::fields_bytes))]
    fn put_fields(&self, out: &mut Vec<u8>) -> Result<(), AllocError>
        ensures { OnOk result (out.new.items ≡ out.old.items ++ fields_bytes self.now) }
    {
        match self {
            Answer::Welcome {
                version,
                principal,
                client,
                liveness,
            } => {
                fields::put_u32(out, *version)?;
                fields::put_u32(out, *principal)?;
                fields::put_u64(out, *client)?;
                fields::put_u64(out, *liveness)
            }
            Answer::Reply { lost } => { fields::put_u64(out, *lost) }
            Answer::Taken { position } => { fields::put_u64(out, *position) }
            Answer::Refused { code } => { fields::put_i32(out, *code) }
            Answer::Fragment { position, flags } => {
                fields::put_u64(out, *position)?;
                fields::put_u32(out, *flags)
            }
            Answer::Done { count } => { fields::put_u32(out, *count) }
            Answer::Row {
                number,
                type_id,
                value,
            } => {
                fields::put_u64(out, *number)?;
                fields::put_i32(out, *type_id)?;
                fields::put_i64(out, *value)
            }
            Answer::Value { value } => { fields::put_i64(out, *value) }
            Answer::Bye { code } => { fields::put_i32(out, *code) }
            Answer::Line => Ok(()),
            Answer::Part { place } => { fields::put_u32(out, *place) }
            Answer::PartRefused { code } => { fields::put_i32(out, *code) }
            Answer::PublicationPositions {
                position,
                limit,
                sent,
                consumed,
                flags,
            } => {
                fields::put_u64(out, *position)?;
                fields::put_u64(out, *limit)?;
                fields::put_u64(out, *sent)?;
                fields::put_u64(out, *consumed)?;
                fields::put_u32(out, *flags)
            }
            Answer::ImagePositions {
                joined,
                position,
                received,
            } => {
                fields::put_u64(out, *joined)?;
                fields::put_u64(out, *position)?;
                fields::put_u64(out, *received)
            }
        }
    }

    #[tactic(auto, unfolding(crate::specs::Answer::fields_bytes, crate::specs::Fields::number_bytes))]
    fn size(&self) -> usize
        ensures is { result ≡ length (fields_bytes self.now) }
        ensures few { result ≤ 36 }
    {
        match self {
            Answer::Welcome { .. } => 24,
            Answer::Reply { .. } => 8,
            Answer::Taken { .. } => 8,
            Answer::Refused { .. } => 4,
            Answer::Fragment { .. } => 12,
            Answer::Done { .. } => 4,
            Answer::Row { .. } => 20,
            Answer::Value { .. } => 8,
            Answer::Bye { .. } => 4,
            Answer::Line => 0,
            Answer::Part { .. } => 4,
            Answer::PartRefused { .. } => 4,
            Answer::PublicationPositions { .. } => 36,
            Answer::ImagePositions { .. } => 24,
        }
    }

    /// How long the record is without its length, as far as a `u64` says it.
    #[tactic(auto, unfolding(crate::specs::Answer::answer_body), using(crate::proofs::FieldLemmas::length_of_body))]
    fn room(&self, tail: &[u8]) -> usize
        ensures { result ≡ length (answer_body self.now tail.now) }
    {
        4 + self.size() + tail.len()
    }

    /// Writes the record, with its length before it, at the end. A record whose kind has no tail is given an empty one.
    ///
    /// # Errors
    /// There is no memory. Then bytes of it may stand at the end.
    #[tactic(auto, unfolding(crate::specs::Answer::answer_bytes, crate::specs::Answer::answer_body))]
    pub fn put(&self, tail: &[u8], out: &mut Vec<u8>) -> Result<(), AllocError>
        ensures { OnOk result (out.new.items ≡ out.old.items ++ answer_bytes self.now tail.now) }
    {
        fields::put_size(out, self.room(tail))?;
        fields::put_u32(out, self.kind())?;
        self.put_fields(out)?;
        out.extend_from_slice(tail)
    }
}
