use crate::ends::{Choppy, LineFeeds};
use crate::play::is_shown;
use driver_core::{Address, Astray, SetupFault};
use driver_script::answers::AnswerLine;
use driver_script::output::write_whole;
use driver_script::{MayFail, RunFault, read_input};
use driver_world::{Cause, Offered};
use frame_codec::{BadPacket, Flags};
use policy_core::Verdict;
use policy_text::PolicyFault;
use script_lines::line::{Line, read_line};
use std::alloc::Global;
use std::io;

/// How many bytes are read of a reader of so many line feeds, which fails after them or ends.
fn count_read(alloc: Global, left: usize, fails: bool) -> Result<usize, RunFault> {
    match read_input(alloc, &mut MayFail(LineFeeds { left, fails })) {
        Ok(input) => Ok(input.len()),
        Err(fault) => Err(fault),
    }
}

/// Line feeds, whether the reader fails after them, what is read, and whether that is so.
type Read = (usize, bool, Result<usize, RunFault>, bool);

static READ: [Read; 9] = [
    (0, false, Ok(0), true),
    (10_000, false, Ok(10_000), true),
    (16_777_216, false, Ok(16_777_216), true),
    (0, true, Err(RunFault::Read), true),
    (10_000, true, Err(RunFault::Read), true),
    (16_777_217, false, Err(RunFault::TooLong), true),
    (16_777_217, true, Err(RunFault::TooLong), true),
    (10_000, false, Ok(9_999), false),
    (0, true, Err(RunFault::TooLong), false),
];

fn are_read(alloc: Global, rows: &[Read]) -> bool {
    for &(left, fails, wanted, so) in rows {
        if (count_read(alloc, left, fails) == wanted) != so {
            return false;
        }
    }
    true
}

#[test]
fn a_script_is_read_whole_or_refused_by_name(rt: HostRuntime) {
    assert!(rt; are_read(rt.alloc(), &READ));
}

const ATTACHED: &[u8] = b"attached 1\n";

/// Whether a writer with ample room takes a text as these bytes, and nothing after it.
fn is_written(alloc: Global, text: &[u8], wanted: &[u8]) -> bool {
    let mut ample = MayFail(Choppy::new(alloc, 100, true));
    (write_whole(&mut ample, text) == Ok(()))
        & (write_whole(&mut ample, b"") == Ok(()))
        & (ample.0.taken.as_slice() == wanted)
}

/// Whether a writer with room for seven bytes has those of a text.
fn has_seven(alloc: Global, text: &[u8], front: &[u8], fails: bool) -> bool {
    let mut short = MayFail(Choppy::new(alloc, 7, fails));
    (write_whole(&mut short, text) == Err(RunFault::Write)) & (short.0.taken.as_slice() == front)
}

/// What a writer with room for seven bytes has of the text, whether it fails then, and whether that is so.
static FRONTS: [(&[u8], bool, bool); 3] = [
    (b"attache", false, true),
    (b"attache", true, true),
    (b"attach", true, false),
];

fn have_seven(alloc: Global, rows: &[(&[u8], bool, bool)]) -> bool {
    for &(front, fails, wanted) in rows {
        if has_seven(alloc, ATTACHED, front, fails) != wanted {
            return false;
        }
    }
    true
}

#[test]
fn a_text_is_written_whole_or_a_front_of_it(rt: HostRuntime) {
    let whole = is_written(rt.alloc(), ATTACHED, ATTACHED)
        & !is_written(rt.alloc(), ATTACHED, b"attached 2\n");
    let none = write_whole(&mut io::sink(), ATTACHED).is_ok();
    assert!(rt; whole & none & have_seven(rt.alloc(), &FRONTS));
}

/// Whether the line is none of a script.
fn is_bad(alloc: Global, line: &[u8]) -> bool {
    let read = read_line(alloc, line);
    let is_bad = matches!(&read, Ok(Line::Bad));
    drop(read);
    is_bad
}

/// Whether none of these is a line of a script.
fn are_bad(alloc: Global, lines: &[&[u8]]) -> bool {
    for &line in lines {
        if !is_bad(alloc, line) {
            return false;
        }
    }
    true
}

static BAD_HEX: [&[u8]; 14] = [
    b"cmd 10 1 ",
    b"cmd 10 1 0",
    b"cmd 10 1 000",
    b"cmd 10 1 0g",
    b"cmd 10 1 0A",
    b"cmd 10 1 _00",
    b"cmd 10 1 00_",
    b"cmd 10 1 0_0",
    b"cmd 10 1 00_0_00",
    b"cmd 10 1 -00",
    b"cmd 10 1 --",
    b"cmd 10 1 00-",
    b"cmd 10 1 _",
    b"cmd 10 1 +0",
];

static BAD: [&[u8]; 76] = [
    b" ",
    b".",
    b"policy ",
    b"policy x",
    b" policy",
    b"Policy",
    b"principal",
    b"principal alice",
    b"principal  7",
    b"principal alice 4294967296",
    b"principal alice -7",
    b"principal alice 7 ",
    b"principal alice 7 8",
    b"attach",
    b"attach 0",
    b"attach 0 ",
    b"attach  0 7",
    b"attach 0  7",
    b"attach 0 7 ",
    b"attach 0 7 8",
    b"attach\t0 7",
    b"attach 0 7\r",
    b"attach +0 7",
    b"attach 0 +7",
    b"attach 0x0 7",
    b"attach 18446744073709551616 7",
    b"attach 0 4294967296",
    b"cmd 0 1",
    b"cmd 0 1 - -",
    b"cmd 0 -1 -",
    b"cmd 18446744073709551616 1 -",
    b"set",
    b"set mtu",
    b"set mtu 1408 ",
    b"set mtu 1408 1",
    b"tick",
    b"tick -1",
    b"tick 18446744073709551616",
    b"tick 0 1",
    b"list",
    b"list 0",
    b"list 0 x",
    b"list 0 18446744073709551616",
    b"list 0 1 2",
    b"value 0 1",
    b"value 0 1 -",
    b"value 0 1 18446744073709551616",
    b"value 0 1 2 3",
    b"offer 0 1 2",
    b"offer 0 1 2 ",
    b"offer 0 1 2 0",
    b"offer 0 1 2 - -",
    b"offer 0 1 x -",
    b"offer 0 18446744073709551616 2 -",
    b"offer 0 1 18446744073709551616 -",
    b"poll 0 1 2 3",
    b"poll 0 1 2 3 4 5",
    b"poll 0 1 2 3 -4",
    b"poll 0 1 2 3 4294967296",
    b"poll 0 1 2 18446744073709551616 4",
    b"poll 0 1 18446744073709551616 3 4",
    b"Tick 0",
    b"peer",
    b"peer 127.0.0.1:50001",
    b"peer 127.0.0.1 1",
    b"peer localhost:50001 1",
    b"peer 224.0.0.1:50001 1",
    b"peer 127.0.0.1:50001 4294967296",
    b"peer 127.0.0.1:50001 1 2",
    b"image",
    b"image 0",
    b"image 0 -1",
    b"image 0 18446744073709551616",
    b"image 0 1 2",
    b"# \xc3\xa9",
    b"principal \xff 1",
];

static ONE_GOOD: [&[u8]; 2] = [b"tick", b"tick 5"];

#[test]
fn other_lines_are_bad(rt: HostRuntime) {
    let bad = are_bad(rt.alloc(), &BAD) & are_bad(rt.alloc(), &BAD_HEX);
    assert!(rt; bad & !are_bad(rt.alloc(), &ONE_GOOD));
}

/// Whether each answer is written as the text after it, or not, as its row says.
fn are_shown(alloc: Global, rows: &[(AnswerLine<'_>, &str, bool)]) -> bool {
    for (line, text, wanted) in rows {
        if is_shown(alloc, line, text) != *wanted {
            return false;
        }
    }
    true
}

const HERE: Address = Address {
    octets: [127, 0, 0, 1],
    port: 40_123,
};

static ANSWERS: [(AnswerLine<'static>, &str, bool); 49] = [
    (AnswerLine::Attached(1), "attached 1\n", true),
    (AnswerLine::Full, "full\n", true),
    (AnswerLine::Stopped, "stopped\n", true),
    (AnswerLine::PolicyInForce(2), "policy 2\n", true),
    (AnswerLine::PolicyFull, "policy refused: full\n", true),
    (AnswerLine::Setup(2), "setup 2\n", true),
    (AnswerLine::Beat, "beat\n", true),
    (AnswerLine::Status(32_768), "status 32768\n", true),
    (AnswerLine::Elicit, "elicit\n", true),
    (
        AnswerLine::Sent {
            to: HERE,
            bytes: b"\x00\x1f\xff",
        },
        "sent 127.0.0.1:40123 001fff\n",
        true,
    ),
    (
        AnswerLine::Sent {
            to: HERE,
            bytes: b"",
        },
        "sent 127.0.0.1:40123 -\n",
        true,
    ),
    (
        AnswerLine::Dropped(Cause::Denied(Verdict {
            allow: false,
            rule: None,
            epoch: 1,
        })),
        "dropped denied by default in policy 1\n",
        true,
    ),
    (AnswerLine::Dropped(Cause::Full), "dropped full\n", true),
    (AnswerLine::Dropped(Cause::Empty), "dropped empty\n", true),
    (
        AnswerLine::Dropped(Cause::OutOfWindow),
        "dropped out-of-window\n",
        true,
    ),
    (
        AnswerLine::Dropped(Cause::Lingering),
        "dropped lingering\n",
        true,
    ),
    (AnswerLine::Dropped(Cause::Busy), "dropped busy\n", true),
    (
        AnswerLine::Dropped(Cause::Astray(Astray::NoStream)),
        "dropped no-stream\n",
        true,
    ),
    (
        AnswerLine::Dropped(Cause::Astray(Astray::Stranger)),
        "dropped stranger\n",
        true,
    ),
    (
        AnswerLine::Dropped(Cause::Unread(BadPacket::Unaligned)),
        "dropped unaligned\n",
        true,
    ),
    (
        AnswerLine::Unimaged(SetupFault::BadSetup),
        "dropped bad-setup\n",
        true,
    ),
    (
        AnswerLine::Unimaged(SetupFault::Exists),
        "dropped exists\n",
        true,
    ),
    (
        AnswerLine::Unimaged(SetupFault::NoSubscription),
        "dropped no-subscription\n",
        true,
    ),
    (
        AnswerLine::Unimaged(SetupFault::Full),
        "dropped full\n",
        true,
    ),
    (
        AnswerLine::Unimaged(SetupFault::NoRoom),
        "dropped no-room\n",
        true,
    ),
    (
        AnswerLine::PolicyRefused(PolicyFault::BadRange { rule: 3 }),
        "policy refused: rule 3: bad range\n",
        true,
    ),
    (
        AnswerLine::Reply {
            client: 12,
            bytes: b"\x00\x1f\xff",
        },
        "reply 12 001fff\n",
        true,
    ),
    (
        AnswerLine::Reply {
            client: 0,
            bytes: b"",
        },
        "reply 0 -\n",
        true,
    ),
    (
        AnswerLine::Offer(Offered::At(18_446_744_073_709_551_615)),
        "offer 18446744073709551615\n",
        true,
    ),
    (AnswerLine::Offer(Offered::NotConnected), "offer -1\n", true),
    (
        AnswerLine::Offer(Offered::BackPressured),
        "offer -2\n",
        true,
    ),
    (AnswerLine::Offer(Offered::AdminAction), "offer -3\n", true),
    (AnswerLine::Offer(Offered::Closed), "offer -4\n", true),
    (
        AnswerLine::Offer(Offered::MaxPositionExceeded),
        "offer -5\n",
        true,
    ),
    (
        AnswerLine::Offer(Offered::TooLong),
        "offer too long\n",
        true,
    ),
    (AnswerLine::Poll(0), "poll 0\n", true),
    (
        AnswerLine::Fragment {
            position: 96,
            flags: Flags { bits: 0x0a },
            payload: b"\x00\x1f\xff",
        },
        "fragment 96 0a 001fff\n",
        true,
    ),
    (
        AnswerLine::Fragment {
            position: 32,
            flags: Flags::UNFRAGMENTED,
            payload: b"",
        },
        "fragment 32 c0 -\n",
        true,
    ),
    (AnswerLine::Gone, "gone\n", true),
    (AnswerLine::List(0), "list 0\n", true),
    (
        AnswerLine::Counter {
            number: 2,
            type_id: -2_147_483_648,
            value: -9_223_372_036_854_775_808,
            label: b"b\x7f",
        },
        "counter 2 -2147483648 -9223372036854775808 627f\n",
        true,
    ),
    (
        AnswerLine::Counter {
            number: 18_446_744_073_709_551_615,
            type_id: 100,
            value: 0,
            label: b"",
        },
        "counter 18446744073709551615 100 0 -\n",
        true,
    ),
    (AnswerLine::Value(-1), "value -1\n", true),
    (
        AnswerLine::Denied(Verdict {
            allow: false,
            rule: Some(3),
            epoch: 2,
        }),
        "denied by rule 3 in policy 2\n",
        true,
    ),
    (AnswerLine::UnknownCounter, "unknown counter\n", true),
    (AnswerLine::WrongClient, "wrong client\n", true),
    (AnswerLine::NoMemory, "no memory\n", true),
    (
        AnswerLine::BadLine(18_446_744_073_709_551_615),
        "line 18446744073709551615: bad line\n",
        true,
    ),
    (AnswerLine::Poll(0), "poll 1\n", false),
];

/// Why a script was not run to its end, and its text.
static RUN_FAULTS: [(RunFault, &str); 4] = [
    (RunFault::Read, "read failed"),
    (RunFault::TooLong, "too long"),
    (RunFault::Write, "write failed"),
    (RunFault::NoMemory, "no memory"),
];

fn are_called(alloc: Global, rows: &[(RunFault, &str)]) -> bool {
    for (fault, text) in rows {
        if !is_shown(alloc, fault, text) {
            return false;
        }
    }
    true
}

#[test]
fn answers_are_written(rt: HostRuntime) {
    assert!(rt; are_shown(rt.alloc(), &ANSWERS) & are_called(rt.alloc(), &RUN_FAULTS));
}
