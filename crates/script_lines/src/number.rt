ghost use Rattle.channel_uri.specs.Number.{below, decimal_of};
ghost use Rattle.std.specs.Prelude.{◌≡◌, ◌^◌};
ghost use Rattle.std.specs.Char.{is_ascii_digit};
ghost use Rattle.std.specs.List.{list_all};

/// Whether there are digits alone, as `parse` also takes a sign.
fn are_digits(word: &str) -> bool
    ensures { result ≡ list_all is_ascii_digit word.now }
{
    word.bytes().all(|b| b.is_ascii_digit())
}

/// The number that the word is in decimal.
#[tactic(auto, unfolding(channel_uri::specs::Number::decimal_of))]
pub(crate) fn number(word: &str) -> Option<u64>
    ensures { result ≡ below (2 ^ 64) (decimal_of word.now) }
{
    if word.is_empty() {
        return None;
    }
    if !are_digits(word) {
        return None;
    }
    word.parse::<u64>().ok()
}

/// The number that the word is in decimal, of at most 32 bits.
pub(crate) fn small_number(word: &str) -> Option<u32>
    ensures { result ≡ below (2 ^ 32) (decimal_of word.now) }
{
    let number = number(word)?;
    u32::try_from(number).ok()
}
