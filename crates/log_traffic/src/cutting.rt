//! The next datagram of a publication's log.

ghost use Rattle.frame_codec.specs.Setup.{setup_bytes};
ghost use Rattle.log_traffic.specs.Cutting.{CanPass, IsCut, IsNext, SomeDue, beat_flags, beat_of, passed, setup_at};
ghost use Rattle.std.specs.Prelude.{◌≡◌, IfOk, OnErr};
ghost use Rattle.term_log.specs.Ident.{IsIdent, place_at};
ghost use Rattle.term_log.specs.Whole.{Carries};

use frame_codec::{Flags, Header, Setup, TermPlace, term_of, write_beat, write_setup};
use std::alloc::{AllocError, Global};
use term_log::{Ident, LogKind, TermLog};

/// What a sender cuts next.
#[derive(Clone, Copy, Debug, PartialEq, Eq)]
pub enum DatagramKind {
    /// It announces the stream to receivers, and says where it stands.
    Setup,
    /// Frames of one term.
    Frames,
    /// Its position, without data.
    Heartbeat,
}

/// How often a sender says what.
#[derive(Clone, Copy, Debug, PartialEq, Eq)]
pub struct Pace {
    /// For how long a log is connected after a status message, in nanoseconds.
    pub connection_timeout: u64,
    /// How far SETUPs are apart where nobody is connected, in nanoseconds.
    pub setup_interval: u64,
    /// How long after the datagram before it a heartbeat is due, in nanoseconds.
    pub heartbeat_interval: u64,
}

/// By what a log moves on once a datagram of it was cut.
#[derive(Clone, Copy, Debug, PartialEq, Eq)]
pub struct Cut {
    /// What was cut.
    pub kind: DatagramKind,
    /// How many positions its frames take: 0 where it has none.
    pub span: u64,
}

/// The next datagram of a log.
#[derive(Debug, Drop)]
pub struct Next {
    /// Its bytes, in no more room than they need.
    pub bytes: Vec<u8>,
    /// By what the log moves on, once it is cut.
    pub cut: Cut,
}

/// A heartbeat of a publication that lingers says that the stream has ended.
const LAST_BEATS: Flags = Flags { bits: 0xE0 };

/// The SETUP of a sender that stands at a position.
fn setup_at(ident: &Ident, position: u64) -> Setup
    requires { IsIdent ident.now }
    ensures { result ≡ setup_at ident.now position }
{
    let (active_term_id, term_offset) = term_of(ident.initial_term, position, ident.term_length);
    Setup {
        flags: Flags::NONE,
        term_offset,
        session_id: ident.session,
        stream_id: ident.stream,
        initial_term_id: ident.initial_term,
        active_term_id,
        term_length: ident.term_length as i32,
        mtu: ident.mtu as i32,
        ttl: 0,
    }
}

/// Where in the stream a position is.
fn place_at(ident: &Ident, position: u64) -> TermPlace
    requires { IsIdent ident.now }
    ensures { result ≡ place_at ident.now position }
{
    let (term_id, term_offset) = term_of(ident.initial_term, position, ident.term_length);
    TermPlace {
        session_id: ident.session,
        stream_id: ident.stream,
        term_id,
        term_offset,
    }
}

/// The flags of heartbeats.
fn beat_flags(lingers: bool) -> Flags
    ensures { result ≡ beat_flags lingers }
{
    if lingers {
        LAST_BEATS
    } else {
        Flags::UNFRAGMENTED
    }
}

/// The SETUP of the log.
#[inline(never)]
fn setup_copy(log: &TermLog, alloc: Global) -> Result<Vec<u8>, AllocError>
    ensures { IfOk result (λ copy. copy.items ≡ setup_bytes (setup_at log.now.kept.ident log.now.sender.position)) }
{
    let setup = setup_at(&log.ident(), log.sender_position());
    let mut copy = Vec::from_elem(alloc, 0u8, Setup::SIZE)?;
    write_setup(copy.as_mut_slice(), &setup);
    Ok(copy)
}

/// A heartbeat of the log.
#[inline(never)]
fn beat_copy(log: &TermLog, alloc: Global, lingers: bool) -> Result<Vec<u8>, AllocError>
    ensures { IfOk result (λ copy. copy.items ≡ beat_of lingers log.now.kept.ident log.now.sender.position) }
{
    let place = place_at(&log.ident(), log.sender_position());
    let mut copy = Vec::from_elem(alloc, 0u8, Header::SIZE)?;
    write_beat(copy.as_mut_slice(), beat_flags(lingers), &place);
    Ok(copy)
}

/// The next datagram of a log at the moment `now`, in nanoseconds, if one is due: the first of a SETUP, where one was asked
/// for, or where nobody is connected and the last one is past its interval; frames from the sender's position on that the
/// MTU and its limit admit; a heartbeat, where the last datagram is past its interval. What never was is past. Heartbeats of
/// a publication that lingers say so. Nothing is changed: [`pass`] moves the log on.
///
/// # Errors
/// There is no memory for the bytes. Where nothing is due it takes none.
#[inline(always)]
pub fn next_datagram(
    log: &TermLog,
    alloc: Global,
    now: u64,
    pace: &Pace,
    lingers: bool,
) -> Result<Option<Next>, AllocError>
    requires { log.now.kept.ident.kind ≡ LogKind.Udp }
    ensures next { IfOk result (λ next. IsNext pace.now now lingers log.now next) }
    ensures passes { IfOk result (λ next. CanPass log.now next) }
    ensures without_memory { OnErr result (SomeDue pace.now now log.now) }
{
    let position = log.sender_position();
    if log.setup_due(now, pace.connection_timeout, pace.setup_interval) {
        let bytes = setup_copy(log, alloc)?;
        return Ok(Some(Next {
            bytes,
            cut: Cut {
                kind: DatagramKind::Setup,
                span: 0,
            },
        }));
    }
    let frames = log.frames_from(position, log.send_budget() as usize);
    let (bytes, span) = frames.bytes_and_span();
    if !bytes.is_empty() {
        let bytes = Vec::from_slice(alloc, bytes)?;
        return Ok(Some(Next {
            bytes,
            cut: Cut {
                kind: DatagramKind::Frames,
                span,
            },
        }));
    }
    if log.heartbeat_due(now, pace.heartbeat_interval) {
        let bytes = beat_copy(log, alloc, lingers)?;
        return Ok(Some(Next {
            bytes,
            cut: Cut {
                kind: DatagramKind::Heartbeat,
                span: 0,
            },
        }));
    }
    Ok(None)
}

/// The log moves on by a datagram that was cut at the moment `now`, in nanoseconds, as [`next_datagram`] gave it, whoever gets
/// it: the sender stands after its frames, the moments of SETUP and datagram are noted, and a SETUP answers all who asked
/// for one.
#[inline(always)]
pub fn pass(log: &mut TermLog, now: u64, cut: &Cut)
    requires { IsCut log.old cut.now }
    ensures whole { Carries log.old log.new (passed now cut.now.kind) }
    ensures kept { log.new.kept ≡ log.old.kept }
{
    match cut.kind {
        DatagramKind::Setup => log.setup_sent(now),
        DatagramKind::Frames => {
            log.sent(log.sender_position() + cut.span);
            log.datagram_sent(now);
        }
        DatagramKind::Heartbeat => log.datagram_sent(now),
    }
}
