ghost use Rattle.channel_uri.specs.Fault.{Equals};
ghost use Rattle.channel_uri.specs.Pattern.{pattern_of, pattern_media_of, front_of, value_fits, is_fit, all_fit, covers};
ghost use Rattle.std.specs.List.{starts_with};
ghost use Rattle.std.specs.Prelude.{◌≡◌, nat_eq, option_copied};

use crate::channel::Channel;
use crate::error::UriError;
use crate::keys::Keys;
use crate::media::Media;
use crate::syntax;

/// Which channels a rule of a policy means.
#[derive(Debug, Drop)]
pub enum Pattern {
    /// Every channel.
    Any,
    /// The channels of this medium that have each of these keys with a value that fits.
    Of(Media, Keys),
}

/// The medium of a pattern's text.
fn media_of(word: &str) -> Result<Media, UriError>
    ensures { Equals (λ media. media) result (pattern_media_of word.now) }
{
    if word == "udp" {
        return Ok(Media::Udp);
    }
    if word == "ipc" {
        return Ok(Media::Ipc);
    }
    if word == "counter" {
        return Ok(Media::Counter);
    }
    Err(UriError::BadMedia)
}

/// What stands before a final `*`.
fn front_of(wanted: &str) -> Option<&str>
    ensures { option_copied result ≡ front_of wanted.now }
{
    syntax::before_end("*", wanted)
}

/// The value is the wanted one, or begins with what stands before the wanted one's final `*`.
fn value_fits(wanted: &str, value: &str) -> bool
    ensures { result ≡ value_fits wanted.now value.now }
{
    if wanted == value {
        return true;
    }
    match front_of(wanted) {
        Some(front) => begins_with(value, front),
        None => false,
    }
}

fn begins_with(value: &str, front: &str) -> bool
    ensures { result ≡ starts_with nat_eq value.now front.now }
{
    value.starts_with(front)
}

/// The channel has this key, with a value that fits.
fn is_fit(wanted: &str, value: Option<&str>) -> bool
    ensures { result ≡ is_fit wanted.now (option_copied value.entry) }
{
    match value {
        Some(value) => value_fits(wanted, value),
        None => false,
    }
}

/// Each wanted key is a key of the channel, with a value that fits.
fn all_fit(wanted: &Keys, keys: &Keys) -> bool
    ensures { result ≡ all_fit wanted.now keys.now }
{
    for at in 0..wanted.len() {
        let (key, value) = wanted.at(at);
        if !is_fit(value, keys.get(key)) {
            return false;
        }
    }
    true
}

impl Pattern {
    /// Reads a pattern: `*`, or `aeron:` and a medium, with pairs by the syntax of channels. Values are not checked;
    /// in `endpoint` and `control` a leading `localhost:` is read as `127.0.0.1:`. It takes no memory.
    ///
    /// # Errors
    /// The first fault of the text, from the left; [`UriError::TooLong`] is looked at first.
    #[tactic(auto, unfolding(crate::specs::Pattern::pattern_of))]
    pub fn parse(text: &str) -> Result<Pattern, UriError>
        ensures { Equals (λ pattern. pattern) result (pattern_of text.now) }
    {
        if text.len() > 1024 {
            return Err(UriError::TooLong);
        }
        if text == "*" {
            return Ok(Pattern::Any);
        }
        let rest = syntax::behind_scheme(text)?;
        let (word, pairs) = syntax::halves(rest);
        let media = media_of(word)?;
        let keys = syntax::keys_of(pairs)?;
        Ok(Pattern::Of(media, keys))
    }

    /// Whether a rule with this pattern means `channel`. It does not matter whether the channel asks for a spy.
    #[tactic(auto, unfolding(crate::specs::Pattern::covers))]
    pub fn covers(&self, channel: &Channel) -> bool
        ensures { result ≡ covers self.now channel.now }
    {
        match self {
            Pattern::Any => true,
            Pattern::Of(media, wanted) => media.same(channel.media())
                && all_fit(wanted, channel.keys()),
        }
    }

    /// Becomes equal to another pattern. It takes no memory.
    pub fn set_from(&mut self, other: &Pattern)
        ensures { self.new ≡ other.now }
    {
        match (self, other) {
            (Pattern::Of(media, keys), Pattern::Of(of, those)) => {
                *media = *of;
                keys.set_from(those);
            }
            (pattern, _) => *pattern = other.copy(),
        }
    }

    /// Another pattern, equal to this one. It takes no memory.
    pub fn copy(&self) -> Pattern
        ensures { result ≡ self.now }
    {
        match self {
            Pattern::Any => Pattern::Any,
            Pattern::Of(media, keys) => Pattern::Of(*media, keys.copy()),
        }
    }
}
