//! Where the logs of a registry are, and where its subscriptions and its publications take datagrams.

ghost use Rattle.driver_core.specs.SendRequests.{is_sent};
ghost use Rattle.media_agents.specs.Finding.{Adds, AddsIf, AreControls, AreEndpoints, control_in, endpoint_in, image_in, images_of, log_at, publications_of, with_image};
ghost use Rattle.std.specs.Prelude.{◌≡◌, ◌++◌, ◌∷◌, [], Contains, MatchBool, if◌then◌else◌, take};

use crate::slots::LogAt;
use channel_uri::{Address, Media, Place, address_of};
use driver_core::Registry;
use rows::Rows;
use stream_registry::{LogRow, Subscription};

/// An image: where its log is, and the address at which it reads.
#[derive(Clone, Copy, Debug, PartialEq, Eq)]
pub struct ImageAt {
    pub log: LogAt,
    pub endpoint: Address,
}

/// Puts one after the others, where there is room.
pub(crate) fn add<T: Drop, const N: usize>(rows: &mut Rows<T, N>, one: T)
    ensures { rows.new ≡ take N (rows.old ++ one ∷ []) }
{
    if rows.len() >= N {
        return;
    }
    rows.push(one);
}

/// The log of a row joins the others, if it is that of a publication over datagrams.
fn add_publication(row: &LogRow, logs: &mut Rows<LogAt, 256>)
    ensures { logs.new ≡ (if is_sent row.now then take 256 (logs.old ++ log_at row.now ∷ []) else logs.old) }
{
    if row.is_published() && row.channel.media() == Media::Udp {
        add(logs, LogAt::of(row));
    }
}

/// The image that a row is, if it is one.
fn image_in(row: &LogRow) -> Option<ImageAt>
    ensures { result ≡ image_in row.now }
{
    if row.is_published() {
        return None;
    }
    let endpoint = row.channel.endpoint()?;
    Some(ImageAt {
        log: LogAt::of(row),
        endpoint,
    })
}

/// The image that a row is joins the others, if it is one.
fn add_image(row: &LogRow, images: &mut Rows<ImageAt, 512>)
    ensures { images.new ≡ with_image (image_in row.now) images.old }
{
    match image_in(row) {
        Some(image) => add(images, image),
        None => {}
    }
}

/// The logs of publications over datagrams, by their numbers.
pub(crate) fn list_publications(registry: &Registry, logs: &mut Rows<LogAt, 256>)
    ensures { logs.new ≡ publications_of registry.now }
{
    logs.clear();
    for row in registry.sources() {
        add_publication(row, logs);
    }
}

/// The images, by their numbers.
pub(crate) fn list_images(registry: &Registry, images: &mut Rows<ImageAt, 512>)
    ensures { images.new ≡ images_of registry.now }
{
    images.clear();
    for row in registry.sources() {
        add_image(row, images);
    }
}

/// Where a subscription takes datagrams. A spy takes none: it reads the publication itself.
#[tactic(auto, unfolding(driver_core::specs::Directing::target_address))]
fn endpoint_of(subscription: &Subscription) -> Option<Address>
    ensures { result ≡ endpoint_in subscription.now }
{
    let channel = &subscription.channel;
    if !channel.is_spy() && channel.media() == Media::Udp {
        channel.endpoint()
    } else {
        None
    }
}

/// Whether the address is among these.
fn is_among(endpoints: &[Address], endpoint: &Address) -> bool
    ensures { MatchBool result (Contains endpoints.now endpoint.now) (Contains endpoints.now endpoint.now → ⊥) }
{
    endpoints.contains(endpoint)
}

/// An address joins the others, if it is not among them yet and there is room for it.
fn add_endpoint(endpoints: &mut Rows<Address, 512>, endpoint: Address)
    ensures { Adds endpoints.old endpoint endpoints.new }
{
    if is_among(endpoints.as_slice(), &endpoint) || endpoints.len() >= 512 {
        return;
    }
    endpoints.push(endpoint);
}

/// Where a subscription takes datagrams joins the others.
fn add_endpoint_of(subscription: &Subscription, endpoints: &mut Rows<Address, 512>)
    ensures { AddsIf (endpoint_in subscription.now) endpoints.old endpoints.new }
{
    match endpoint_of(subscription) {
        Some(endpoint) => add_endpoint(endpoints, endpoint),
        None => {}
    }
}

/// Where subscriptions take datagrams, each address once.
pub(crate) fn list_endpoints(registry: &Registry, endpoints: &mut Rows<Address, 512>)
    ensures { AreEndpoints registry.now endpoints.new }
{
    endpoints.clear();
    for subscription in registry.subscriptions() {
        add_endpoint_of(subscription, endpoints);
    }
}

/// Where a publication takes datagrams, which learns there where its own go.
fn control_of(row: &LogRow) -> Option<Address>
    ensures { result ≡ control_in row.now }
{
    if !row.is_published() {
        return None;
    }
    match row.channel.place() {
        Some(Place::Control(text)) => address_of(text),
        _ => None,
    }
}

/// Where a publication takes datagrams joins the others.
fn add_control_of(row: &LogRow, controls: &mut Rows<Address, 512>)
    ensures { AddsIf (control_in row.now) controls.old controls.new }
{
    match control_of(row) {
        Some(control) => add_endpoint(controls, control),
        None => {}
    }
}

/// Where publications take datagrams, each address once.
pub(crate) fn list_controls(registry: &Registry, controls: &mut Rows<Address, 512>)
    ensures { AreControls registry.now controls.new }
{
    controls.clear();
    for row in registry.sources() {
        add_control_of(row, controls);
    }
}
