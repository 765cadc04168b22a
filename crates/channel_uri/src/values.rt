ghost use Rattle.channel_uri.specs.Values.{fault_at, fault_of, first_fault, mode_fault, unless};
ghost use Rattle.std.specs.Prelude.{◌≡◌};

use crate::address::address_of;
use crate::error::UriError;
use crate::key::Key;
use crate::keys::Keys;
use crate::quantity::{linger_of, mtu_of, term_length_of};
use crate::session::session_id_of;

/// A value is bad unless it is good.
fn unless(key: Key, good: bool) -> Option<UriError>
    ensures { result ≡ unless key good }
{
    if good {
        None
    } else {
        Some(UriError::BadValue(key))
    }
}

/// What is wrong with a control mode.
fn mode_fault(mode: &str) -> Option<UriError>
    ensures { result ≡ mode_fault mode.now }
{
    if mode == "manual" {
        return None;
    }
    if mode == "dynamic" {
        return None;
    }
    if mode == "response" {
        return Some(UriError::NotServed(Key::ControlMode));
    }
    Some(UriError::BadValue(Key::ControlMode))
}

/// What is wrong with this value of a key that has a rule.
fn fault_at(key: Key, value: &str) -> Option<UriError>
    ensures { result ≡ fault_at key value.now }
{
    match key {
        Key::Endpoint => unless(key, address_of(value).is_some()),
        Key::Control => unless(key, address_of(value).is_some()),
        Key::Mtu => unless(key, mtu_of(value).is_some()),
        Key::TermLength => unless(key, term_length_of(value).is_some()),
        Key::SessionId => unless(key, session_id_of(value).is_some()),
        Key::Linger => unless(key, linger_of(value).is_some()),
        Key::ControlMode => mode_fault(value),
        Key::Interface => Some(UriError::NotServed(Key::Interface)),
        Key::Tags => Some(UriError::NotServed(Key::Tags)),
    }
}

/// What is wrong with a pair.
#[tactic(auto, unfolding(crate::specs::Values::fault_of))]
pub(crate) fn fault_of(key: &str, value: &str) -> Option<UriError>
    ensures { result ≡ fault_of (key.now, value.now) }
{
    fault_at(Key::from_text(key)?, value)
}

/// The fault of the first pair that has one, in the byte order of the keys.
pub(crate) fn first_fault(keys: &Keys) -> Option<UriError>
    ensures { result ≡ first_fault keys.now }
{
    for at in 0..keys.len() {
        let (key, value) = keys.at(at);
        let fault = fault_of(key, value);
        if fault.is_some() {
            return fault;
        }
    }
    None
}
