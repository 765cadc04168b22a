ghost use Rattle.channel_uri.specs.Fault.{Equals};
ghost use Rattle.channel_uri.specs.Pieces.{PutsPiece, first_piece};
ghost use Rattle.channel_uri.specs.Syntax.{cut, before_end, address_read, value_read, unspied, behind_scheme, halves, pair_of, keys_of};
ghost use Rattle.channel_uri.specs.Table.{nothing_stored};
ghost use Rattle.std.specs.Option.{option_map};
ghost use Rattle.std.specs.Prelude.{◌≡◌, ◌+◌, ◌<◌, ◌≤◌, ◌++◌, IfSome, IfOk, length, option_copied};

use crate::error::UriError;
use crate::keys::Keys;
use crate::table::Table;

/// What stands before and after the first `mark`.
pub(crate) fn cut(text: &str, mark: char) -> Option<(&str, &str)>
    requires { mark < 128 }
    ensures { option_map (λ sides. (sides.0.now, sides.1.now)) result ≡ cut mark text.now }
{
    text.split_once(mark)
}

/// What stands before this ending.
pub(crate) fn before_end<'a>(end: &str, text: &'a str) -> Option<&'a str>
    ensures { option_copied result ≡ before_end end.now text.now }
{
    text.strip_suffix(end)
}

/// Whether the text asks for a spy, and what follows that prefix.
pub(crate) fn unspied(text: &str) -> (bool, &str)
    ensures parts { (result.0, result.1.now) ≡ unspied text.now }
    ensures shorter { length result.1.now ≤ length text.now }
{
    match text.strip_prefix("aeron-spy:") {
        Some(rest) => (true, rest),
        None => (false, text),
    }
}

/// What follows the scheme.
pub(crate) fn behind_scheme(text: &str) -> Result<&str, UriError>
    ensures rest { Equals (λ rest. rest.now) result (behind_scheme text.now) }
    ensures shorter { IfOk result (λ rest. length rest.now ≤ length text.now) }
{
    match text.strip_prefix("aeron:") {
        Some(rest) => Ok(rest),
        None => Err(UriError::NoScheme),
    }
}

/// The word of the medium, and the text of the pairs where there is a `?`.
pub(crate) fn halves(text: &str) -> (&str, Option<&str>)
    ensures parts { (result.0.now, option_copied result.1) ≡ halves text.now }
    ensures shorter { IfSome result.1 (λ pairs. length pairs.now ≤ length text.now) }
{
    match cut(text, '?') {
        Some((media, pairs)) => (media, Some(pairs)),
        None => (text, None),
    }
}

/// The key and the value of one piece.
fn pair_of(piece: &str) -> Result<(&str, &str), UriError>
    ensures { Equals (λ pair. (pair.0.now, pair.1.now)) result (pair_of piece.now) }
{
    let Some((key, value)) = cut(piece, '=') else {
        if piece.is_empty() {
            return Err(UriError::EmptyKey);
        }
        return Err(UriError::KeyWithoutValue);
    };
    if key.is_empty() {
        return Err(UriError::EmptyKey);
    }
    Ok((key, value))
}

/// An address as it is kept, in two parts: `localhost:` at its head is read as `127.0.0.1:`.
fn address_read(value: &str) -> (&'static str, &str)
    ensures { result.0.now ++ result.1.now ≡ address_read value.now }
{
    match value.strip_prefix("localhost:") {
        Some(rest) => ("127.0.0.1:", rest),
        None => ("", value),
    }
}

/// The value that is kept for a key, in two parts.
fn value_read<'a>(key: &str, value: &'a str) -> (&'static str, &'a str)
    ensures { result.0.now ++ result.1.now ≡ value_read key.now value.now }
{
    if key == "endpoint" {
        return address_read(value);
    }
    if key == "control" {
        return address_read(value);
    }
    ("", value)
}

/// The first piece, and the text after the `|` that follows it, where there is one.
fn first_piece(text: &str) -> (&str, Option<&str>)
    ensures { (result.0.now, option_copied result.1) ≡ first_piece text.now }
{
    match cut(text, '|') {
        Some((piece, rest)) => (piece, Some(rest)),
        None => (text, None),
    }
}

/// Puts the pair that the piece is among the others.
fn put_piece(table: &mut Table, piece: &str) -> Result<(), UriError>
    requires text_fits { table.old.used + length piece.now ≤ 1024 }
    requires span_fits { length table.old.pairs < 342 }
    ensures { PutsPiece table.old piece.now table.new result }
{
    let (key, value) = pair_of(piece)?;
    let (head, rest) = value_read(key, value);
    table.put(key, head, rest);
    Ok(())
}

/// Puts the keys of the text after the `?` into a table that has none yet; there are none where there is no `?`.
#[tactic(auto, unfolding(crate::specs::Syntax::keys_of))]
pub(crate) fn put_keys(table: &mut Table, text: Option<&str>) -> Result<(), UriError>
    requires fits { IfSome text (λ some. length some.now ≤ 1024) }
    requires none { table.old ≡ nothing_stored }
    ensures { Equals (λ _. table.new.pairs) result (keys_of (option_copied text.entry)) }
{
    let mut rest = text;
    while let Some(text) = rest {
        let (piece, behind) = first_piece(text);
        put_piece(table, piece)?;
        rest = behind;
    }
    Ok(())
}

/// The keys of the text after the `?`; none where there is no `?`.
pub(crate) fn keys_of(text: Option<&str>) -> Result<Keys, UriError>
    requires { IfSome text (λ some. length some.now ≤ 1024) }
    ensures { Equals (λ keys. keys) result (keys_of (option_copied text.entry)) }
{
    let mut table = Table::new();
    put_keys(&mut table, text)?;
    Ok(Keys::of(table))
}
