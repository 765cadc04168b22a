//! Decimals, as a line of a file has them.

ghost use Rattle.channel_uri.specs.Number.{below, decimal_of};
ghost use Rattle.std.specs.Char.{is_ascii_digit};
ghost use Rattle.std.specs.List.{list_all};
ghost use Rattle.std.specs.Prelude.{◌≡◌, ◌^◌};

/// Whether there are digits alone, as `parse` also takes a sign.
fn are_digits(text: &str) -> bool
    ensures { result ≡ list_all is_ascii_digit text.now }
{
    text.bytes().all(|b| b.is_ascii_digit())
}

/// The number of 64 bits that the text is in decimal.
#[tactic(auto, unfolding(channel_uri::specs::Number::decimal_of))]
fn number(text: &str) -> Option<u64>
    ensures { result ≡ below (2 ^ 64) (decimal_of text.now) }
{
    if text.is_empty() {
        return None;
    }
    if !are_digits(text) {
        return None;
    }
    text.parse::<u64>().ok()
}

/// The number of 32 bits that the text is in decimal.
pub(crate) fn small_number(text: &str) -> Option<u32>
    ensures { result ≡ below (2 ^ 32) (decimal_of text.now) }
{
    let number = number(text)?;
    u32::try_from(number).ok()
}
