ghost use Rattle.channel_uri.specs.Number.{below, decimal_of};
ghost use Rattle.std.specs.Char.{is_ascii_digit};
ghost use Rattle.std.specs.List.{list_all};
ghost use Rattle.std.specs.Prelude.{◌≡◌, ◌^◌};

/// Sizes and durations are below this.
pub(crate) const LIMIT: u64 = 1 << 63;

/// Whether there are digits alone, as `parse` also takes a sign.
fn are_digits(text: &str) -> bool
    ensures { result ≡ list_all is_ascii_digit text.now }
{
    text.bytes().all(|b| b.is_ascii_digit())
}

/// The number that the text is in decimal, where it has 64 bits at most.
#[tactic(auto, unfolding(channel_uri::specs::Number::decimal_of))]
fn number(text: &str) -> Option<u64>
    ensures { result ≡ below (2 ^ 64) (decimal_of text.now) }
{
    if text.is_empty() {
        return None;
    }
    if !are_digits(text) {
        return None;
    }
    text.parse::<u64>().ok()
}

/// The number that the text is in decimal, where it is below 2^63.
pub(crate) fn number_in(text: &str) -> Option<u64>
    ensures { result ≡ below (2 ^ 63) (decimal_of text.now) }
{
    let number = number(text)?;
    if number < LIMIT { Some(number) } else { None }
}
