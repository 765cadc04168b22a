use crate::examples::end_of;
use crate::warning::Doubt;
use byte_strings::Text;
use channel_uri::{Channel, Key, Keys, Media, UriError};
use policy_core::Rule;
use policy_faults::nearest;
use policy_tools::value_wider;
use std::alloc::{AllocError, Global};

/// A key of a rule's pattern, with the value that a channel has to have.
#[derive(Clone, Copy)]
pub(crate) struct Wanted<'a> {
    pub media: Media,
    pub key: &'a str,
    pub value: &'a str,
    /// Whether the pattern speaks of channels that lead to their `control`.
    pub by_control: bool,
}

/// Whether the text ends with a digit.
fn ends_with_digit(text: &str) -> bool {
    match text.as_bytes().last() {
        Some(byte) => *byte >= b'0' && *byte <= b'9',
        None => false,
    }
}

/// Whether a beginning of the key's values ends inside a number. A port may be cut, since a range of ports has no other
/// form.
fn is_cut(key: Key, front: &str) -> bool {
    match key {
        Key::Endpoint | Key::Control => ends_with_digit(front) && !front.contains(':'),
        Key::Mtu | Key::TermLength | Key::SessionId | Key::Linger => ends_with_digit(front),
        _ => false,
    }
}

/// Whether a pattern of these keys speaks of channels that lead to their `control`: those of publications that learn their
/// destinations.
pub(crate) fn is_by_control(keys: &Keys) -> bool {
    match keys.get("control-mode") {
        Some(mode) => value_wider(mode, "dynamic") && !value_wider(mode, "manual"),
        None => keys.get("endpoint").is_none(),
    }
}

impl Wanted<'_> {
    /// Whether a channel that does the same may leave the key out, or write its value otherwise. An address has one text, and
    /// over ipc no key has an effect on where a channel leads.
    fn is_evaded(&self) -> bool {
        match Key::from_text(self.key) {
            Some(Key::Endpoint | Key::ControlMode) => self.media == Media::Ipc,
            Some(Key::Control) => self.media == Media::Ipc || !self.by_control,
            _ => true,
        }
    }

    /// Why no channel has exactly this value.
    fn fault(&self, alloc: Global) -> Result<Option<UriError>, AllocError> {
        let (key, value) = (self.key, self.value);
        let text = format!(in alloc; "aeron:udp?{key}={value}")?;
        match Channel::parse(text.as_str()) {
            Ok(_) => Ok(None),
            Err(error) => Ok(Some(error)),
        }
    }

    /// What is doubtful of a beginning.
    fn beginning(&self, alloc: Global, key: Key, front: &str) -> Result<Option<Doubt>, AllocError> {
        let looked_at = match key {
            Key::Endpoint | Key::Control | Key::ControlMode => true,
            _ => false,
        };
        if looked_at && end_of(alloc, self.key, front)?.is_none() {
            return Ok(Some(Doubt::NoSuchBeginning(key, Text::new(alloc, self.value)?)));
        }
        if is_cut(key, front) {
            return Ok(Some(Doubt::CutNumber(key, Text::new(alloc, self.value)?)));
        }
        Ok(None)
    }

    /// What is doubtful of the value.
    fn value(&self, alloc: Global, key: Key) -> Result<Option<Doubt>, AllocError> {
        let is_served = match key {
            Key::Interface | Key::Tags => false,
            _ => true,
        };
        if is_served && let Some(front) = self.value.strip_suffix("*") {
            return self.beginning(alloc, key, front);
        }
        match self.fault(alloc)? {
            Some(error) => Ok(Some(Doubt::NoSuchValue(key, Text::new(alloc, self.value)?, error))),
            None => Ok(None),
        }
    }

    /// What is doubtful of the key and its value.
    pub fn doubt(&self, alloc: Global) -> Result<Option<Doubt>, AllocError> {
        if let Some(key) = Key::from_text(self.key) {
            return self.value(alloc, key);
        }
        let known = [
            "endpoint",
            "control",
            "mtu",
            "term-length",
            "session-id",
            "linger",
            "control-mode",
        ];
        let meant = nearest(alloc, self.key, &known)?;
        let doubt = Doubt::UnusedKey(Text::new(alloc, self.key)?, meant);
        Ok(Some(doubt))
    }

    /// What is doubtful of a rule that denies by the key.
    pub fn denial(&self, alloc: Global, rule: &Rule) -> Result<Option<Doubt>, AllocError> {
        if rule.allow || !self.is_evaded() {
            return Ok(None);
        }
        Ok(Some(Doubt::Evaded(Text::new(alloc, self.key)?)))
    }
}
