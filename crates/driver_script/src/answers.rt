ghost use Rattle.std.specs.Prelude.{Some};

use driver_core::{Address, Astray, SetupFault};
use driver_world::{Cause, Insert, Offered};
use frame_codec::Flags;
use policy_core::{Decision, Verdict};
use policy_text::PolicyFault;
use std::fmt;
use std::fmt::Display;

/// Bytes in lower-case hexadecimal, two digits for each; `-` where there are none.
#[derive(Clone, Copy)]
struct Hex<'a>(&'a [u8]);

impl fmt::Display for Hex<'_> {
    ghost use Rattle.driver_script.specs.Answers.{hex_text};

    ghost output = { λ hex. Some (hex_text hex.0.now) };

    fn fmt<W: fmt::Write>(&self, f: &mut fmt::Formatter<W>) -> fmt::Result {
        let bytes = self.0;
        if bytes.is_empty() {
            return f.write_str("-");
        }
        for byte in bytes {
            let byte = *byte;
            write!(f, "{byte:02x}")?;
        }
        Ok(())
    }
}

/// What became of an offer: the position, or the code of what stood against it.
#[derive(Clone, Copy)]
struct OfferCode(Offered);

impl fmt::Display for OfferCode {
    ghost use Rattle.driver_script.specs.Answers.{offered_text};

    ghost output = { λ code. Some (offered_text code.0) };

    fn fmt<W: fmt::Write>(&self, f: &mut fmt::Formatter<W>) -> fmt::Result {
        match self.0 {
            Offered::At(position) => write!(f, "{position}"),
            Offered::NotConnected => f.write_str("-1"),
            Offered::BackPressured => f.write_str("-2"),
            Offered::AdminAction => f.write_str("-3"),
            Offered::Closed => f.write_str("-4"),
            Offered::MaxPositionExceeded => f.write_str("-5"),
            Offered::TooLong => f.write_str("too long"),
        }
    }
}

/// A line of a word and a number; the word with what stands between them.
#[derive(Clone, Copy)]
struct Numbered<'a>(&'a str, u64);

impl fmt::Display for Numbered<'_> {
    ghost use Rattle.driver_script.specs.Answers.{numbered_line};

    ghost output = { λ line. Some (numbered_line line.0.now line.1) };

    fn fmt<W: fmt::Write>(&self, f: &mut fmt::Formatter<W>) -> fmt::Result {
        let word = self.0;
        let number = self.1;
        writeln!(f, "{word}{number}")
    }
}

/// The line of a policy whose text is refused.
#[derive(Clone, Copy)]
struct RefusalLine(PolicyFault);

impl fmt::Display for RefusalLine {
    ghost use Rattle.driver_script.specs.Answers.{refusal_line};

    ghost output = { λ line. Some (refusal_line line.0) };

    fn fmt<W: fmt::Write>(&self, f: &mut fmt::Formatter<W>) -> fmt::Result {
        let fault = self.0;
        writeln!(f, "policy refused: {fault}")
    }
}

/// The line of an offer.
#[derive(Clone, Copy)]
struct OfferLine(Offered);

impl fmt::Display for OfferLine {
    ghost use Rattle.driver_script.specs.Answers.{offer_line};

    ghost output = { λ line. Some (offer_line line.0) };

    fn fmt<W: fmt::Write>(&self, f: &mut fmt::Formatter<W>) -> fmt::Result {
        let code = OfferCode(self.0);
        writeln!(f, "offer {code}")
    }
}

/// The line of a counter's value.
#[derive(Clone, Copy)]
struct ValueLine(i64);

impl fmt::Display for ValueLine {
    ghost use Rattle.driver_script.specs.Answers.{value_line};

    ghost output = { λ line. Some (value_line line.0) };

    fn fmt<W: fmt::Write>(&self, f: &mut fmt::Formatter<W>) -> fmt::Result {
        let value = self.0;
        writeln!(f, "value {value}")
    }
}

/// The line of what a policy decided.
#[derive(Clone, Copy)]
struct DenialLine(Verdict);

impl fmt::Display for DenialLine {
    ghost use Rattle.driver_script.specs.Answers.{denial_line};

    ghost output = { λ line. Some (denial_line line.0) };

    fn fmt<W: fmt::Write>(&self, f: &mut fmt::Formatter<W>) -> fmt::Result {
        let verdict = self.0;
        writeln!(f, "{verdict}")
    }
}

/// Why a SETUP makes no image.
#[derive(Clone, Copy)]
struct SetupCause(SetupFault);

impl fmt::Display for SetupCause {
    ghost use Rattle.driver_script.specs.Answers.{cause_text};

    ghost output = { λ cause. Some (cause_text cause.0) };

    fn fmt<W: fmt::Write>(&self, f: &mut fmt::Formatter<W>) -> fmt::Result {
        match self.0 {
            SetupFault::BadSetup => f.write_str("bad-setup"),
            SetupFault::Exists => f.write_str("exists"),
            SetupFault::NoSubscription => f.write_str("no-subscription"),
            SetupFault::Denied(verdict) => verdict.fmt(f),
            SetupFault::Full => f.write_str("full"),
            SetupFault::NoRoom => f.write_str("no-room"),
        }
    }
}

/// Why a datagram is for no log.
#[derive(Clone, Copy)]
struct AstrayWord(Astray);

impl fmt::Display for AstrayWord {
    ghost use Rattle.driver_script.specs.Answers.{astray_word};

    ghost output = { λ word. Some (astray_word word.0) };

    fn fmt<W: fmt::Write>(&self, f: &mut fmt::Formatter<W>) -> fmt::Result {
        f.write_str(match self.0 {
            Astray::NoStream => "no-stream",
            Astray::Stranger => "stranger",
        })
    }
}

/// Why a datagram is dropped.
#[derive(Clone, Copy)]
struct Drop(Cause);

impl fmt::Display for Drop {
    ghost use Rattle.driver_script.specs.Answers.{drop_text};

    ghost output = { λ why. Some (drop_text why.0) };

    fn fmt<W: fmt::Write>(&self, f: &mut fmt::Formatter<W>) -> fmt::Result {
        match self.0 {
            Cause::Unread(fault) => fault.fmt(f),
            Cause::Astray(why) => AstrayWord(why).fmt(f),
            Cause::Denied(verdict) => verdict.fmt(f),
            Cause::Full => f.write_str("full"),
            Cause::Empty => f.write_str("empty"),
            Cause::OutOfWindow => f.write_str("out-of-window"),
            Cause::Lingering => f.write_str("lingering"),
            Cause::Busy => f.write_str("busy"),
        }
    }
}

/// The word for a frame, after a space.
#[derive(Clone, Copy)]
pub struct InsertWord(pub Insert);

impl fmt::Display for InsertWord {
    ghost use Rattle.driver_script.specs.Answers.{word_behind};

    ghost output = { λ word. Some (word_behind word.0) };

    fn fmt<W: fmt::Write>(&self, f: &mut fmt::Formatter<W>) -> fmt::Result {
        f.write_str(match self.0 {
            Insert::Taken => " taken",
            Insert::Repeat => " repeat",
            Insert::Overlap => " overlap",
            Insert::Below => " below",
            Insert::Beyond => " beyond",
        })
    }
}

/// The line of a datagram that is dropped.
#[derive(Clone, Copy)]
struct DroppedLine(Cause);

impl fmt::Display for DroppedLine {
    ghost use Rattle.driver_script.specs.Answers.{dropped_line};

    ghost output = { λ line. Some (dropped_line line.0) };

    fn fmt<W: fmt::Write>(&self, f: &mut fmt::Formatter<W>) -> fmt::Result {
        let why = Drop(self.0);
        writeln!(f, "dropped {why}")
    }
}

/// The line of a SETUP that makes no image, and is dropped.
#[derive(Clone, Copy)]
struct UnimagedLine(SetupFault);

impl fmt::Display for UnimagedLine {
    ghost use Rattle.driver_script.specs.Answers.{unimaged_line};

    ghost output = { λ line. Some (unimaged_line line.0) };

    fn fmt<W: fmt::Write>(&self, f: &mut fmt::Formatter<W>) -> fmt::Result {
        let why = SetupCause(self.0);
        writeln!(f, "dropped {why}")
    }
}

/// The line of a datagram that is sent.
#[derive(Clone, Copy)]
struct SentLine<'a> {
    to: Address,
    bytes: &'a [u8],
}

impl fmt::Display for SentLine<'_> {
    ghost use Rattle.driver_script.specs.Answers.{sent_line};

    ghost output = { λ line. Some (sent_line line.to line.bytes.now) };

    fn fmt<W: fmt::Write>(&self, f: &mut fmt::Formatter<W>) -> fmt::Result {
        let to = self.to;
        let bytes = Hex(self.bytes);
        writeln!(f, "sent {to} {bytes}")
    }
}

/// The line of an address to which a datagram is not sent.
#[derive(Clone, Copy)]
struct WithheldLine {
    to: Address,
    verdict: Verdict,
}

impl fmt::Display for WithheldLine {
    ghost use Rattle.driver_script.specs.Answers.{withheld_line};

    ghost output = { λ line. Some (withheld_line line.to line.verdict) };

    fn fmt<W: fmt::Write>(&self, f: &mut fmt::Formatter<W>) -> fmt::Result {
        let to = self.to;
        let verdict = self.verdict;
        writeln!(f, "withheld {to} {verdict}")
    }
}

/// The line above the decisions of an actor.
#[derive(Clone, Copy)]
struct AuditLine {
    count: u64,
    dropped: u64,
}

impl fmt::Display for AuditLine {
    ghost use Rattle.driver_script.specs.Answers.{audit_line};

    ghost output = { λ line. Some (audit_line line.count line.dropped) };

    fn fmt<W: fmt::Write>(&self, f: &mut fmt::Formatter<W>) -> fmt::Result {
        let count = self.count;
        let dropped = self.dropped;
        writeln!(f, "audit {count} dropped {dropped}")
    }
}

/// The line of a decision.
#[derive(Clone, Copy)]
struct DecisionLine(Decision);

impl fmt::Display for DecisionLine {
    ghost use Rattle.driver_script.specs.Answers.{decision_line};

    ghost output = { λ line. Some (decision_line line.0) };

    fn fmt<W: fmt::Write>(&self, f: &mut fmt::Formatter<W>) -> fmt::Result {
        let principal = self.0.principal;
        let act = self.0.act.name();
        let stream = self.0.stream;
        let verdict = self.0.verdict;
        writeln!(f, "decision {principal} {act} {stream} {verdict}")
    }
}

/// The line that says which line is bad.
#[derive(Clone, Copy)]
struct BadLine(u64);

impl fmt::Display for BadLine {
    ghost use Rattle.driver_script.specs.Answers.{bad_line};

    ghost output = { λ line. Some (bad_line line.0) };

    fn fmt<W: fmt::Write>(&self, f: &mut fmt::Formatter<W>) -> fmt::Result {
        let number = self.0;
        writeln!(f, "line {number}: bad line")
    }
}

/// The line of a reply.
#[derive(Clone, Copy)]
struct ReplyLine<'a> {
    client: u64,
    bytes: &'a [u8],
}

impl fmt::Display for ReplyLine<'_> {
    ghost use Rattle.driver_script.specs.Answers.{reply_text};

    ghost output = { λ line. Some (reply_text line.client line.bytes.now) };

    fn fmt<W: fmt::Write>(&self, f: &mut fmt::Formatter<W>) -> fmt::Result {
        let client = self.client;
        let bytes = Hex(self.bytes);
        writeln!(f, "reply {client} {bytes}")
    }
}

/// The line of a fragment.
#[derive(Clone, Copy)]
struct FragmentLine<'a> {
    position: u64,
    flags: Flags,
    payload: &'a [u8],
}

impl fmt::Display for FragmentLine<'_> {
    ghost use Rattle.driver_script.specs.Answers.{fragment_line};

    ghost output = { λ line. Some (fragment_line line.position line.flags line.payload.now) };

    fn fmt<W: fmt::Write>(&self, f: &mut fmt::Formatter<W>) -> fmt::Result {
        let position = self.position;
        let flags = [self.flags.bits];
        let flags = Hex(&flags);
        let payload = Hex(self.payload);
        writeln!(f, "fragment {position} {flags} {payload}")
    }
}

/// The line of a counter.
#[derive(Clone, Copy)]
struct CounterLine<'a> {
    number: u64,
    type_id: i32,
    value: i64,
    label: &'a [u8],
}

impl fmt::Display for CounterLine<'_> {
    ghost use Rattle.driver_script.specs.Answers.{counter_line};

    ghost output = { λ line. Some (counter_line line.number line.type_id line.value line.label.now) };

    fn fmt<W: fmt::Write>(&self, f: &mut fmt::Formatter<W>) -> fmt::Result {
        let number = self.number;
        let type_id = self.type_id;
        let value = self.value;
        let label = Hex(self.label);
        writeln!(f, "counter {number} {type_id} {value} {label}")
    }
}

/// One line of an answer.
#[derive(Clone, Copy)]
pub enum AnswerLine<'a> {
    /// A client of this id is attached.
    Attached(u64),
    /// A limit of the driver would be broken.
    Full,
    /// The driver takes no clients any more.
    Stopped,
    /// The policy is in force, under this number.
    PolicyInForce(u64),
    /// A limit of the driver would be broken under the policy, which is not in force.
    PolicyFull,
    /// An image comes, by its source number.
    Setup(u64),
    /// A SETUP makes no image, and is dropped.
    Unimaged(SetupFault),
    /// A datagram is dropped.
    Dropped(Cause),
    /// A heartbeat came to its image.
    Beat,
    /// A publication may be sent up to this position.
    Status(u64),
    /// A SETUP is asked for.
    Elicit,
    /// A datagram is sent.
    Sent {
        to: Address,
        bytes: &'a [u8],
    },
    /// A datagram is not sent to a destination, by this verdict.
    Withheld {
        to: Address,
        verdict: Verdict,
    },
    /// The text is no policy, and the one before stays in force.
    PolicyRefused(PolicyFault),
    /// This client gets a reply.
    Reply {
        client: u64,
        bytes: &'a [u8],
    },
    /// What became of the message that was offered.
    Offer(Offered),
    /// A poll gives so many fragments.
    Poll(u64),
    /// One of these fragments.
    Fragment {
        /// The position after its frame.
        position: u64,
        flags: Flags,
        payload: &'a [u8],
    },
    /// The client's subscription does not read that log.
    Gone,
    /// A client may see so many counters.
    List(u64),
    /// One of these counters.
    Counter {
        number: u64,
        type_id: i32,
        value: i64,
        label: &'a [u8],
    },
    /// The value of the counter that was asked for.
    Value(i64),
    /// The policy does not allow that, by this verdict.
    Denied(Verdict),
    /// There is no counter of that number.
    UnknownCounter,
    /// The client is not attached.
    WrongClient,
    /// So many decisions of an actor are shown, and so many came before them.
    Audit {
        count: u64,
        dropped: u64,
    },
    /// One of these decisions.
    Decided(Decision),
    /// There was no memory for the step, which changed nothing.
    NoMemory,
    /// The line of this number is no line of a script, and ends it.
    BadLine(u64),
}

impl fmt::Display for AnswerLine<'_> {
    ghost use Rattle.driver_script.specs.Answers.{line_text};

    ghost output = { λ line. Some (line_text line) };

    #[tactic(auto, unfolding(crate::specs::Answers::line_text))]
    fn fmt<W: fmt::Write>(&self, f: &mut fmt::Formatter<W>) -> fmt::Result {
        match *self {
            AnswerLine::Attached(client) => Numbered("attached ", client).fmt(f),
            AnswerLine::Full => f.write_str("full\n"),
            AnswerLine::Stopped => f.write_str("stopped\n"),
            AnswerLine::PolicyInForce(epoch) => Numbered("policy ", epoch).fmt(f),
            AnswerLine::PolicyFull => f.write_str("policy refused: full\n"),
            AnswerLine::Setup(source) => Numbered("setup ", source).fmt(f),
            AnswerLine::Unimaged(why) => UnimagedLine(why).fmt(f),
            AnswerLine::Dropped(why) => DroppedLine(why).fmt(f),
            AnswerLine::Beat => f.write_str("beat\n"),
            AnswerLine::Status(position) => Numbered("status ", position).fmt(f),
            AnswerLine::Elicit => f.write_str("elicit\n"),
            AnswerLine::Sent { to, bytes } => SentLine { to, bytes }.fmt(f),
            AnswerLine::Withheld { to, verdict } => WithheldLine { to, verdict }.fmt(f),
            AnswerLine::PolicyRefused(fault) => RefusalLine(fault).fmt(f),
            AnswerLine::Reply { client, bytes } => ReplyLine { client, bytes }.fmt(f),
            AnswerLine::Offer(offered) => OfferLine(offered).fmt(f),
            AnswerLine::Poll(count) => Numbered("poll ", count).fmt(f),
            AnswerLine::Fragment {
                position,
                flags,
                payload,
            } => FragmentLine {
                position,
                flags,
                payload,
            }
            .fmt(f),
            AnswerLine::Gone => f.write_str("gone\n"),
            AnswerLine::List(count) => Numbered("list ", count).fmt(f),
            AnswerLine::Counter {
                number,
                type_id,
                value,
                label,
            } => CounterLine {
                number,
                type_id,
                value,
                label,
            }
            .fmt(f),
            AnswerLine::Value(value) => ValueLine(value).fmt(f),
            AnswerLine::Denied(verdict) => DenialLine(verdict).fmt(f),
            AnswerLine::UnknownCounter => f.write_str("unknown counter\n"),
            AnswerLine::WrongClient => f.write_str("wrong client\n"),
            AnswerLine::Audit { count, dropped } => AuditLine { count, dropped }.fmt(f),
            AnswerLine::Decided(decision) => DecisionLine(decision).fmt(f),
            AnswerLine::NoMemory => f.write_str("no memory\n"),
            AnswerLine::BadLine(number) => BadLine(number).fmt(f),
        }
    }
}
