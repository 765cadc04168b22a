ghost use Rattle.door_names.specs.Names.{go_on, is_name, is_one, is_path, may_follow};
ghost use Rattle.std.specs.Prelude.{◌≡◌};

/// Whether a byte may stand after another one in a path: it is no control byte, begins no part as a `.` does, stands beside no
/// other `.` as a `.`, and ends no empty part as a `/` does.
fn may_follow(before: u8, byte: u8) -> bool
    ensures { result ≡ may_follow before byte }
{
    match byte {
        b'.' => before != b'/' && before != b'.',
        b'/' => before != b'/',
        _ => byte >= b' ' && byte != 0x7f,
    }
}

/// Whether so much of a path may stand after that byte, as its end.
fn go_on(before: u8, text: &[u8]) -> bool
    ensures { result ≡ go_on before text.now }
{
    let mut last = before;
    for byte in text {
        if !may_follow(last, *byte) {
            return false;
        }
        last = *byte;
    }
    last != b'/'
}

/// Whether the text has one part alone.
fn is_one(text: &str) -> bool
    ensures { result ≡ is_one text.now }
{
    text.bytes().all(|byte| byte != b'/')
}

/// Whether the text can name a door, whose socket has that name: it is not empty, has no `/`, no `..` and no control byte, and
/// begins with no `.`.
pub fn is_name(text: &str) -> bool
    ensures { result ≡ is_name text.now }
{
    is_one(text) && go_on(b'/', text.as_bytes())
}

/// Whether the text can be the path of a door's socket: after a `/` that it may begin with, its parts are such names, with one
/// `/` between them.
pub fn is_path(text: &str) -> bool
    ensures { result ≡ is_path text.now }
{
    match text.as_bytes() {
        [b'/', rest @ ..] => go_on(b'/', rest),
        all => go_on(b'/', all),
    }
}
