ghost use Rattle.message_words.specs.Given.{Equals, after, given, gives, is_known, unknown_at, value_in};
ghost use Rattle.std.specs.Option.{option_copied};
ghost use Rattle.std.specs.Prelude.{◌≡◌, ◌<◌, IfSome, length, position};

use crate::fault::WordFault;
use crate::key::Key;
use byte_strings::Text;

/// What stands after this front, where it stands there.
fn after<'a>(front: &str, text: &'a str) -> Option<&'a str>
    ensures { option_copied result ≡ after front.now text.now }
{
    text.strip_prefix(front)
}

/// The value that a word gives to a key.
fn value_in<'a>(key: Key, word: &'a str) -> Option<&'a str>
    ensures { option_copied result ≡ value_in key word.now }
{
    match after(key.text(), word) {
        Some(rest) => after("=", rest),
        None => None,
    }
}

/// Whether a word gives a value to a key.
fn gives(key: Key, word: &str) -> bool
    ensures { result ≡ gives key word.now }
{
    match value_in(key, word) {
        Some(_) => true,
        None => false,
    }
}

/// The place of the first word that gives a value to a key.
fn place_of(key: Key, words: &[Text]) -> Option<usize>
    ensures place { result ≡ position (λ word. gives key word) words.now }
    ensures within { IfSome result (λ at. at < length words.now) }
{
    words.iter().position(|word| gives(key, word.as_str()))
}

/// The value of a key, which has one at most.
#[tactic(auto, unfolding(crate::specs::Given::given))]
pub(crate) fn given(key: Key, words: &[Text]) -> Result<Option<&str>, WordFault>
    ensures { Equals (λ value. option_copied value) result (given key words.now) }
{
    let Some(at) = place_of(key, words) else {
        return Ok(None);
    };
    let (_, rest) = words.split_at(at);
    match rest.split_first() {
        None => Ok(None),
        Some((word, later)) => match place_of(key, later) {
            None => Ok(value_in(key, word.as_str())),
            Some(_) => Err(WordFault::Twice(key)),
        },
    }
}

/// Whether a word gives a value to one of these keys.
fn is_known(keys: &[Key], word: &str) -> bool
    ensures { result ≡ is_known keys.now word.now }
{
    keys.iter().any(|key| gives(*key, word))
}

/// The place of the first word that gives no value to one of these keys.
#[tactic(auto, unfolding(crate::specs::Given::unknown_at))]
pub(crate) fn unknown_at(keys: &[Key], words: &[Text]) -> Option<usize>
    ensures place { result ≡ unknown_at keys.now words.now }
    ensures within { IfSome result (λ at. at < length words.now) }
{
    words.iter().position(|word| !is_known(keys, word.as_str()))
}
