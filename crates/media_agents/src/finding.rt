//! Where the logs are that an agent's steps are for. A look that is taken for this alone decides nothing.

ghost use Rattle.frame_codec.specs.Datagram.{content};
ghost use Rattle.media_agents.specs.Acts.{GoesOn};
ghost use Rattle.media_agents.specs.Agents.{Lists};
ghost use Rattle.media_agents.specs.Finding.{AreControls, AreEndpoints, images_of, publications_of};
ghost use Rattle.media_agents.specs.Journals.{stamp_of};
ghost use Rattle.media_agents.specs.Stepping.{Finds, place_for};
ghost use Rattle.published_registry.specs.Histories.{IsContinuedBy, registry_of};
ghost use Rattle.std.specs.Prelude.{◌≡◌, IfSome};

use crate::journal::Stamp;
use crate::listing::{ImageAt, list_controls, list_endpoints, list_images, list_publications};
use crate::slots::LogAt;
use crate::stepping::{Stepped, Stepping, strayed};
use channel_uri::Address;
use driver_core::{Astray, View};
use frame_codec::Packet;
use log_steps::packet_request;
use published_registry::{Look, Pass};
use rows::Rows;

/// Where the log is that a datagram is for, by the registry.
fn log_of(
    look: &Look,
    local: &Address,
    from: &Address,
    packet: &Packet<'_>,
) -> Result<LogAt, Astray>
    ensures { result ≡ place_for (registry_of look.now) local.now from.now (content packet.now) }
{
    let request = packet_request(look, local, from, packet)?;
    match look.registry().source(request.source) {
        Some(row) => Ok(LogAt::of(row)),
        None => Err(Astray::NoStream),
    }
}

/// Where the log is that a datagram is for which came to the address `local`, from the address `from`, by a look; or what comes of
/// it where it is for none. `None` where there is no look.
pub(crate) fn find(
    pass: Pass,
    local: &Address,
    from: &Address,
    packet: &Packet<'_>,
) -> (Pass, Option<Result<LogAt, Stepped>>)
    ensures known { IsContinuedBy pass result.0 }
    ensures found { IfSome result.1 (λ found. Finds (place_for (registry_of result.0) local.now from.now (content packet.now)) (stamp_of result.0) found) }
{
    match pass.enter() {
        Ok(look) => {
            let found = match log_of(&look, local, from, packet) {
                Ok(at) => Ok(at),
                Err(why) => Err(strayed(why, Stamp::of(&look))),
            };
            (look.leave(), Some(found))
        }
        Err(pass) => (pass, None),
    }
}

/// The logs of publications over datagrams of a look, by their numbers. There are none where there is no look.
pub(crate) fn find_publications<S: Stepping>(
    steps: &mut S,
    pass: Pass,
    logs: &mut Rows<LogAt, 256>,
) -> Pass
    ensures known { IsContinuedBy pass result }
    ensures listed { GoesOn (Lists (λ s logs. logs ≡ publications_of s) pass result logs.new) (S.did steps.old) (S.did steps.new) }
{
    match steps.look(pass) {
        Ok(look) => {
            list_publications(look.registry(), logs);
            look.leave()
        }
        Err(pass) => {
            logs.clear();
            pass
        }
    }
}

/// The images of a look, by their numbers. There are none where there is no look.
pub(crate) fn find_images<S: Stepping>(
    steps: &mut S,
    pass: Pass,
    images: &mut Rows<ImageAt, 512>,
) -> Pass
    ensures known { IsContinuedBy pass result }
    ensures listed { GoesOn (Lists (λ s images. images ≡ images_of s) pass result images.new) (S.did steps.old) (S.did steps.new) }
{
    match steps.look(pass) {
        Ok(look) => {
            list_images(look.registry(), images);
            look.leave()
        }
        Err(pass) => {
            images.clear();
            pass
        }
    }
}

/// Where the subscriptions of a look take datagrams. There are none where there is no look.
pub(crate) fn find_endpoints<S: Stepping>(
    steps: &mut S,
    pass: Pass,
    endpoints: &mut Rows<Address, 512>,
) -> Pass
    ensures known { IsContinuedBy pass result }
    ensures listed { GoesOn (Lists AreEndpoints pass result endpoints.new) (S.did steps.old) (S.did steps.new) }
{
    match steps.look(pass) {
        Ok(look) => {
            list_endpoints(look.registry(), endpoints);
            look.leave()
        }
        Err(pass) => {
            endpoints.clear();
            pass
        }
    }
}

/// Where the publications of a look take datagrams. There are none where there is no look.
pub(crate) fn find_controls<S: Stepping>(
    steps: &mut S,
    pass: Pass,
    controls: &mut Rows<Address, 512>,
) -> Pass
    ensures known { IsContinuedBy pass result }
    ensures listed { GoesOn (Lists AreControls pass result controls.new) (S.did steps.old) (S.did steps.new) }
{
    match steps.look(pass) {
        Ok(look) => {
            list_controls(look.registry(), controls);
            look.leave()
        }
        Err(pass) => {
            controls.clear();
            pass
        }
    }
}
