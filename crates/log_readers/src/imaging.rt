//! Images that come.

ghost use Rattle.log_readers.specs.Readers.{all_readers};
ghost use Rattle.std.specs.Prelude.{◌≡◌, true, length};
ghost use Rattle.stream_registry.specs.Images.{has_room_for_image, imaged};
ghost use Rattle.stream_registry.specs.Pairs.{pairs_of};

use crate::coming::readers_of;
use crate::readers::Readers;
use client_registry::Clients;
use policy_core::Standing;
use stream_registry::{ImageWanted, Streams};

impl Readers {
    /// How many pairs there would be with the image. The policy, which goes by the number `epoch`, is asked once for each
    /// subscription that fits. It takes no memory.
    pub fn pair_count_with_image(
        &self,
        streams: &Streams,
        clients: &Clients,
        policy: &Standing<'_>,
        epoch: u64,
        number: u64,
        wanted: &ImageWanted,
        place: u64,
    ) -> usize
        requires { self.now ≡ all_readers streams.now clients.now.rows policy.now epoch }
        ensures { result ≡ length (pairs_of (imaged streams.now number wanted.now place) clients.now.rows policy.now epoch) }
    {
        let log = streams.image(number, wanted, place);
        self.total() + readers_of(streams, clients, policy, epoch, &log)
    }

    /// An image comes: [`Streams::add_image`] follows. The policy, which goes by the number `epoch`, is asked once for each
    /// subscription that fits.
    pub fn add_image(
        &mut self,
        streams: &Streams,
        clients: &Clients,
        policy: &Standing<'_>,
        epoch: u64,
        number: u64,
        wanted: &ImageWanted,
        place: u64,
    )
        requires exact { self.old ≡ all_readers streams.now clients.now.rows policy.now epoch }
        requires room { has_room_for_image streams.now ≡ true }
        ensures { self.new ≡ all_readers (imaged streams.now number wanted.now place) clients.now.rows policy.now epoch }
    {
        let log = streams.image(number, wanted, place);
        let logs = streams.sources().len();
        self.add_log(clients, policy, epoch, logs, streams.subscriptions(), &log);
    }
}
