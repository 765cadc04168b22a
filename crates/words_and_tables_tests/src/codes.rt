use command_codec::ErrorCode;

/// A code, its number, its text, and whether it has them.
type Row = (ErrorCode, i32, Option<&'static str>, bool);

static CODES: [Row; 13] = [
    (ErrorCode::InvalidChannel, 1, Some("invalid channel"), true),
    (
        ErrorCode::UnknownSubscription,
        2,
        Some("unknown subscription"),
        true,
    ),
    (
        ErrorCode::UnknownPublication,
        3,
        Some("unknown publication"),
        true,
    ),
    (ErrorCode::UnknownCounter, 5, Some("unknown counter"), true),
    (
        ErrorCode::UnknownCommandType,
        6,
        Some("unknown command type"),
        true,
    ),
    (
        ErrorCode::MalformedCommand,
        7,
        Some("malformed command"),
        true,
    ),
    (ErrorCode::Denied, 1001, None, true),
    (ErrorCode::NoMemory, 1002, Some("no memory"), true),
    (ErrorCode::Full, 1003, Some("full"), true),
    (ErrorCode::WrongClient, 1004, Some("wrong client"), true),
    (ErrorCode::Conflict, 1005, Some("conflict"), true),
    (ErrorCode::NoRoom, 1006, Some("no room"), true),
    (ErrorCode::Full, 1003, Some("fall"), false),
];

/// Whether the code has this number and this text.
fn is_called(code: ErrorCode, number: i32, text: Option<&str>) -> bool {
    code.number() == number && ErrorCode::from_number(number) == Some(code) && code.text() == text
}

fn are_called(codes: &[Row]) -> bool {
    for &(code, number, text, wanted) in codes {
        if is_called(code, number, text) != wanted {
            return false;
        }
    }
    true
}

/// Whether no code has one of these numbers.
fn are_no_codes(numbers: &[i32]) -> bool {
    for &number in numbers {
        if ErrorCode::from_number(number).is_some() {
            return false;
        }
    }
    true
}

static NO_CODES: [i32; 6] = [-1, 0, 4, 8, 1000, 1007];

static ONE_CODE: [i32; 2] = [4, 5];

#[test]
fn codes_have_numbers_and_texts(rt: HostRuntime) {
    let no_codes = are_no_codes(&NO_CODES) & !are_no_codes(&ONE_CODE);
    assert!(rt; no_codes & are_called(&CODES));
}
