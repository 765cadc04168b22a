//! The fields of commands among words.

ghost use Rattle.message_words.specs.Commands.{add_counter_in, add_publication_in, add_subscription_in, body_in, channel_at, command_in, destination_in, removal_in, set_counter_in, terminate_driver_in};
ghost use Rattle.message_words.specs.Given.{Gives};
ghost use Rattle.std.specs.Prelude.{◌≡◌};

use crate::fault::WordFault;
use crate::key::Key;
use crate::name::CommandName;
use crate::values::{bytes_at, integer_at, long_at, number_at, number_or, text_at};
use byte_strings::{ShortBytes, ShortText, Text};
use command_codec::{
    AddCounter, AddPublication, AddSubscription, Body, Command, Destination, Removal, SetCounter,
    TerminateDriver,
};
use std::alloc::Global;

/// The greatest length of a channel, in bytes.
const LONGEST: usize = 0x7FFF_FFFF;

/// The greatest length of a counter's key, in bytes.
const LONGEST_KEY: usize = 112;

/// The greatest length of a counter's label, in bytes.
const LONGEST_LABEL: usize = 380;

/// The greatest length of a token, in bytes.
const LONGEST_TOKEN: usize = 1024;

fn channel_at(alloc: Global, words: &[Text]) -> Result<Text, WordFault>
    ensures { Gives result (channel_at words.now) }
{
    text_at(alloc, LONGEST, Key::Channel, Key::ChannelHex, words)
}

fn add_publication(alloc: Global, words: &[Text]) -> Result<AddPublication, WordFault>
    ensures { Gives result (add_publication_in words.now) }
{
    let stream = integer_at(Key::Stream, words)?;
    let channel = channel_at(alloc, words)?;
    Ok(AddPublication { stream, channel })
}

fn removal(words: &[Text]) -> Result<Removal, WordFault>
    ensures { result ≡ removal_in words.now }
{
    let registration = number_at(Key::Registration, words)?;
    Ok(Removal { registration })
}

fn add_subscription(alloc: Global, words: &[Text]) -> Result<AddSubscription, WordFault>
    ensures { Gives result (add_subscription_in words.now) }
{
    let registration_correlation = number_or(Key::RegistrationCorrelation, 0, words)?;
    let stream = integer_at(Key::Stream, words)?;
    let channel = channel_at(alloc, words)?;
    Ok(AddSubscription {
        registration_correlation,
        stream,
        channel,
    })
}

fn destination(alloc: Global, words: &[Text]) -> Result<Destination, WordFault>
    ensures { Gives result (destination_in words.now) }
{
    let registration = number_at(Key::Registration, words)?;
    let channel = channel_at(alloc, words)?;
    Ok(Destination {
        registration,
        channel,
    })
}

fn add_counter(alloc: Global, words: &[Text]) -> Result<AddCounter, WordFault>
    ensures { Gives result (add_counter_in words.now) }
{
    let type_id = integer_at(Key::TypeId, words)?;
    let key = bytes_at(alloc, LONGEST_KEY, Key::CounterKey, words)?;
    let label = text_at(alloc, LONGEST_LABEL, Key::Label, Key::LabelHex, words)?;
    Ok(AddCounter {
        type_id,
        key: ShortBytes::new(key.as_slice()),
        label: ShortText::new(label.as_str()),
    })
}

fn terminate_driver(alloc: Global, words: &[Text]) -> Result<TerminateDriver, WordFault>
    ensures { Gives result (terminate_driver_in words.now) }
{
    let token = bytes_at(alloc, LONGEST_TOKEN, Key::Token, words)?;
    Ok(TerminateDriver { token })
}

fn set_counter(words: &[Text]) -> Result<SetCounter, WordFault>
    ensures { result ≡ set_counter_in words.now }
{
    let registration = number_at(Key::Registration, words)?;
    let value = long_at(Key::Value, words)?;
    Ok(SetCounter {
        registration,
        value,
    })
}

/// What a command asks for.
#[tactic(auto, unfolding(crate::specs::Commands::body_in))]
fn body(alloc: Global, name: CommandName, words: &[Text]) -> Result<Body, WordFault>
    ensures { Gives result (body_in name words.now) }
{
    match name {
        CommandName::AddPublication => Ok(Body::AddPublication(add_publication(alloc, words)?)),
        CommandName::RemovePublication => Ok(Body::RemovePublication(removal(words)?)),
        CommandName::AddExclusivePublication => Ok(Body::AddExclusivePublication(add_publication(
            alloc, words,
        )?)),
        CommandName::AddSubscription => Ok(Body::AddSubscription(add_subscription(alloc, words)?)),
        CommandName::RemoveSubscription => Ok(Body::RemoveSubscription(removal(words)?)),
        CommandName::ClientKeepalive => Ok(Body::ClientKeepalive),
        CommandName::AddDestination => Ok(Body::AddDestination(destination(alloc, words)?)),
        CommandName::RemoveDestination => Ok(Body::RemoveDestination(destination(alloc, words)?)),
        CommandName::AddCounter => Ok(Body::AddCounter(add_counter(alloc, words)?)),
        CommandName::RemoveCounter => Ok(Body::RemoveCounter(removal(words)?)),
        CommandName::ClientClose => Ok(Body::ClientClose),
        CommandName::TerminateDriver => Ok(Body::TerminateDriver(terminate_driver(alloc, words)?)),
        CommandName::SetCounter => Ok(Body::SetCounter(set_counter(words)?)),
    }
}

/// The command of that name whose fields these words give.
#[tactic(auto, unfolding(crate::specs::Commands::command_in))]
pub(crate) fn command(
    alloc: Global,
    name: CommandName,
    words: &[Text],
) -> Result<Command, WordFault>
    ensures { Gives result (command_in name words.now) }
{
    let client = number_at(Key::Client, words)?;
    let correlation = number_at(Key::Correlation, words)?;
    let body = body(alloc, name, words)?;
    Ok(Command {
        client,
        correlation,
        body,
    })
}
