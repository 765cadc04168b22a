ghost use Rattle.channel_uri.specs.Pattern.{front_of};
ghost use Rattle.channel_uri.specs.Pieces.{first_piece};
ghost use Rattle.channel_uri.specs.Syntax.{halves};
ghost use Rattle.policy_tools.specs.Wider.{key_of, pairs_in, value_wider};
ghost use Rattle.std.specs.List.{starts_with};
ghost use Rattle.std.specs.Prelude.{◌≡◌, nat_eq, option_copied};

/// What stands before a final `*`.
pub(crate) fn front_of(wanted: &str) -> Option<&str>
    ensures { option_copied result ≡ front_of wanted.now }
{
    wanted.strip_suffix("*")
}

/// Whether the text begins with that front.
pub(crate) fn begins_with(text: &str, front: &str) -> bool
    ensures { result ≡ starts_with nat_eq text.now front.now }
{
    text.starts_with(front)
}

/// Whether each value that fits the narrow one also fits the wide one.
pub fn value_wider(wide: &str, narrow: &str) -> bool
    ensures { result ≡ value_wider wide.now narrow.now }
{
    if wide == narrow {
        return true;
    }
    let Some(front) = front_of(wide) else {
        return false;
    };
    match front_of(narrow) {
        Some(other) => begins_with(other, front),
        None => begins_with(narrow, front),
    }
}

/// The key of a piece of a pattern's text.
pub fn key_of(piece: &str) -> &str
    ensures { result.now ≡ key_of piece.now }
{
    match piece.split_once('=') {
        Some((key, _value)) => key,
        None => piece,
    }
}

/// The first piece, and the text after its `|`, where there is one.
pub fn first_piece(text: &str) -> (&str, Option<&str>)
    ensures { (result.0.now, option_copied result.1) ≡ first_piece text.now }
{
    match text.split_once('|') {
        Some((piece, rest)) => (piece, Some(rest)),
        None => (text, None),
    }
}

/// The text after the `?`, where there is one.
fn after_mark(text: &str) -> Option<&str>
    ensures { option_copied result ≡ (halves text.now).1 }
{
    match text.split_once('?') {
        Some((_media, pairs)) => Some(pairs),
        None => None,
    }
}

/// The text of the pairs of a pattern's text, where there is a `?`.
pub fn pairs_in(text: &str) -> Option<&str>
    ensures { option_copied result ≡ pairs_in text.now }
{
    match text.strip_prefix("aeron:") {
        Some(rest) => after_mark(rest),
        None => None,
    }
}
