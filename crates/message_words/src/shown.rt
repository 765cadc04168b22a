//! Commands in words.

ghost use Rattle.hex.specs.Hex.{encode_lower};
ghost use Rattle.message_words.specs.Shown.{body_fields, body_name, channel_field, command_line, counter_fields, destination_fields, field_text, fields_text, is_bare, is_plain, publication_fields, removal_fields, subscription_fields, text_field, token_fields, value_fields};
ghost use Rattle.std.specs.List.{list_all};
ghost use Rattle.std.specs.Prelude.{◌≡◌, IfOk};

use crate::key::Key;
use crate::name::CommandName;
use byte_strings::Text;
use command_codec::{
    AddCounter, AddPublication, AddSubscription, Body, Command, Destination, Removal, SetCounter,
    TerminateDriver,
};
use std::alloc::{AllocError, Global};

/// A byte that can stand between two `'`.
fn is_plain(byte: u8) -> bool
    ensures { result ≡ is_plain byte }
{
    match byte {
        b'\'' => false,
        b' '..=b'~' => true,
        _ => false,
    }
}

/// A byte that a shell takes as it is.
fn is_bare(byte: u8) -> bool
    ensures { result ≡ is_bare byte }
{
    match byte {
        b','..=b':' => true,
        b'A'..=b'Z' => true,
        b'a'..=b'z' => true,
        b'=' => true,
        b'_' => true,
        _ => false,
    }
}

fn are_plain(bytes: &[u8]) -> bool
    ensures { result ≡ list_all is_plain bytes.now }
{
    bytes.iter().all(|byte| is_plain(*byte))
}

fn are_bare(bytes: &[u8]) -> bool
    ensures { result ≡ list_all is_bare bytes.now }
{
    bytes.iter().all(|byte| is_bare(*byte))
}

/// Bytes in hexadecimal.
pub(crate) fn hex_of(alloc: Global, bytes: &[u8]) -> Result<Text, AllocError>
    ensures { IfOk result (λ text. text ≡ encode_lower bytes.now) }
{
    Ok(Text::from(hex::encode(alloc, bytes)?))
}

/// A text under its key, for a shell; in hexadecimal where it is not plain.
pub(crate) fn text_shown(
    alloc: Global,
    key: Key,
    hex_key: Key,
    text: &str,
) -> Result<Text, AllocError>
    ensures { IfOk result (λ shown. shown ≡ field_text (text_field key hex_key text.now)) }
{
    if !are_plain(text.as_bytes()) {
        let digits = hex_of(alloc, text.as_bytes())?;
        return Ok(Text::from(format!(in alloc; "{hex_key}={digits}")?));
    }
    if are_bare(text.as_bytes()) {
        return Ok(Text::from(format!(in alloc; "{key}={text}")?));
    }
    Ok(Text::from(format!(in alloc; "{key}='{text}'")?))
}

fn channel_shown(alloc: Global, channel: &Text) -> Result<Text, AllocError>
    ensures { IfOk result (λ shown. shown ≡ field_text (channel_field channel.now)) }
{
    text_shown(alloc, Key::Channel, Key::ChannelHex, channel.as_str())
}

/// The name of a command.
fn name_of(body: &Body) -> CommandName
    ensures { result ≡ body_name body.now }
{
    match body {
        Body::AddPublication(_) => CommandName::AddPublication,
        Body::RemovePublication(_) => CommandName::RemovePublication,
        Body::AddExclusivePublication(_) => CommandName::AddExclusivePublication,
        Body::AddSubscription(_) => CommandName::AddSubscription,
        Body::RemoveSubscription(_) => CommandName::RemoveSubscription,
        Body::ClientKeepalive => CommandName::ClientKeepalive,
        Body::AddDestination(_) => CommandName::AddDestination,
        Body::RemoveDestination(_) => CommandName::RemoveDestination,
        Body::AddCounter(_) => CommandName::AddCounter,
        Body::RemoveCounter(_) => CommandName::RemoveCounter,
        Body::ClientClose => CommandName::ClientClose,
        Body::TerminateDriver(_) => CommandName::TerminateDriver,
        Body::SetCounter(_) => CommandName::SetCounter,
    }
}

fn removal_shown(alloc: Global, fields: &Removal) -> Result<Text, AllocError>
    ensures { IfOk result (λ shown. shown ≡ fields_text (removal_fields fields.now)) }
{
    let registration = fields.registration;
    Ok(Text::from(format!(in alloc; " registration={registration}")?))
}

fn publication_shown(alloc: Global, fields: &AddPublication) -> Result<Text, AllocError>
    ensures { IfOk result (λ shown. shown ≡ fields_text (publication_fields fields.now)) }
{
    let stream = fields.stream;
    let channel = channel_shown(alloc, &fields.channel)?;
    Ok(Text::from(format!(in alloc; " stream={stream} {channel}")?))
}

fn subscription_shown(alloc: Global, fields: &AddSubscription) -> Result<Text, AllocError>
    ensures { IfOk result (λ shown. shown ≡ fields_text (subscription_fields fields.now)) }
{
    let registration = fields.registration_correlation;
    let stream = fields.stream;
    let channel = channel_shown(alloc, &fields.channel)?;
    Ok(Text::from(format!(in alloc;
        " registration-correlation={registration} stream={stream} {channel}"
    )?))
}

fn destination_shown(alloc: Global, fields: &Destination) -> Result<Text, AllocError>
    ensures { IfOk result (λ shown. shown ≡ fields_text (destination_fields fields.now)) }
{
    let registration = fields.registration;
    let channel = channel_shown(alloc, &fields.channel)?;
    Ok(Text::from(format!(in alloc; " registration={registration} {channel}")?))
}

fn counter_shown(alloc: Global, fields: &AddCounter) -> Result<Text, AllocError>
    ensures { IfOk result (λ shown. shown ≡ fields_text (counter_fields fields.now)) }
{
    let type_id = fields.type_id;
    let key = hex_of(alloc, fields.key.as_slice())?;
    let label = text_shown(alloc, Key::Label, Key::LabelHex, fields.label.as_str())?;
    Ok(Text::from(format!(in alloc; " type-id={type_id} key={key} {label}")?))
}

fn token_shown(alloc: Global, fields: &TerminateDriver) -> Result<Text, AllocError>
    ensures { IfOk result (λ shown. shown ≡ fields_text (token_fields fields.now)) }
{
    let token = hex_of(alloc, fields.token.as_slice())?;
    Ok(Text::from(format!(in alloc; " token={token}")?))
}

fn value_shown(alloc: Global, fields: &SetCounter) -> Result<Text, AllocError>
    ensures { IfOk result (λ shown. shown ≡ fields_text (value_fields fields.now)) }
{
    let registration = fields.registration;
    let value = fields.value;
    Ok(Text::from(format!(in alloc; " registration={registration} value={value}")?))
}

/// The fields of what a command asks for.
fn body_shown(alloc: Global, body: &Body) -> Result<Text, AllocError>
    ensures { IfOk result (λ shown. shown ≡ fields_text (body_fields body.now)) }
{
    match body {
        Body::AddPublication(fields) => publication_shown(alloc, fields),
        Body::RemovePublication(fields) => removal_shown(alloc, fields),
        Body::AddExclusivePublication(fields) => publication_shown(alloc, fields),
        Body::AddSubscription(fields) => subscription_shown(alloc, fields),
        Body::RemoveSubscription(fields) => removal_shown(alloc, fields),
        Body::ClientKeepalive => Text::new(alloc, ""),
        Body::AddDestination(fields) => destination_shown(alloc, fields),
        Body::RemoveDestination(fields) => destination_shown(alloc, fields),
        Body::AddCounter(fields) => counter_shown(alloc, fields),
        Body::RemoveCounter(fields) => removal_shown(alloc, fields),
        Body::ClientClose => Text::new(alloc, ""),
        Body::TerminateDriver(fields) => token_shown(alloc, fields),
        Body::SetCounter(fields) => value_shown(alloc, fields),
    }
}

/// The line that a shell reads as the words of a command.
#[tactic(auto, unfolding(crate::specs::Shown::command_line))]
pub fn command_line(alloc: Global, command: &Command) -> Result<Text, AllocError>
    ensures { IfOk result (λ line. line ≡ command_line command.now) }
{
    let name = name_of(&command.body).text();
    let client = command.client;
    let correlation = command.correlation;
    let body = body_shown(alloc, &command.body)?;
    Ok(Text::from(format!(in alloc; "{name} client={client} correlation={correlation}{body}")?))
}
