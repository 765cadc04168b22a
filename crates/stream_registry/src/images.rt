ghost use Rattle.stream_registry.specs.Images.{has_room_for_image, image_at, image_of, image_place_for, imaged, is_image_at, stays_beside, without_images};
ghost use Rattle.channel_uri.specs.Channel.{endpoint_shape};
ghost use Rattle.std.specs.Option.{option_copied};
ghost use Rattle.std.specs.Prelude.{◌≡◌, find, true};

use crate::lingering::is_image_of;
use crate::log_pages::pages_of;
use crate::places::{is_at, is_same_place};
use crate::row::{LogRow, Origin};
use crate::slots::free_slot;
use crate::streams::Streams;
use crate::wanted::ImageWanted;
use channel_uri::{Address, Channel};
use rows::Test;

/// How many images there are at most.
const IMAGES: usize = 512;

/// Whether it is the image of a publisher that sends to that place on that stream, with that session.
#[tactic(auto, unfolding(crate::specs::Images::is_image_at))]
fn is_image_at(log: &LogRow, channel: &Channel, session: i32, stream: i32) -> bool
    ensures { result ≡ is_image_at channel.now session stream log.now }
{
    !log.is_published()
        && log.session == session
        && log.stream == stream
        && is_same_place(&log.channel, channel)
}

/// The image of a publisher that sends to that place on that stream, with that session.
fn image_in<'a>(
    logs: &'a [LogRow],
    channel: &Channel,
    session: i32,
    stream: i32,
) -> Option<&'a LogRow>
    ensures { option_copied result ≡ find (is_image_at channel.now session stream) logs.now }
{
    for log in logs {
        if is_image_at(log, channel, session, stream) {
            return Some(log);
        }
    }
    None
}

/// Whether it is the image of a publisher that sends to that endpoint on that stream, with that session.
#[tactic(auto, unfolding(crate::specs::Images::is_image_at))]
fn is_image_to(log: &LogRow, endpoint: &Address, session: i32, stream: i32) -> bool
    ensures { result ≡ is_image_at (endpoint_shape endpoint.now) session stream log.now }
{
    !log.is_published()
        && log.session == session
        && log.stream == stream
        && is_at(&log.channel, endpoint)
}

/// The image of a publisher that sends to that endpoint on that stream, with that session.
fn image_to_in<'a>(
    logs: &'a [LogRow],
    endpoint: &Address,
    session: i32,
    stream: i32,
) -> Option<&'a LogRow>
    ensures { option_copied result ≡ find (is_image_at (endpoint_shape endpoint.now) session stream) logs.now }
{
    for log in logs {
        if is_image_to(log, endpoint, session, stream) {
            return Some(log);
        }
    }
    None
}

/// Keeps all logs but the images of these numbers.
#[derive(Clone, Copy)]
pub(crate) struct Beside<'a> {
    pub(crate) numbers: &'a [u64],
}

impl Test<LogRow> for Beside<'_> {
    ghost keeps = { λ test log. stays_beside test.numbers.now log };

    fn keeps(&self, log: &LogRow) -> bool {
        !is_image_of(log, self.numbers)
    }
}

impl Streams {
    /// Whether there are fewer than 512 images.
    pub fn has_room_for_image(&self) -> bool
        ensures { result ≡ has_room_for_image self.now }
    {
        self.sources.images() < IMAGES
    }

    /// The image of a publisher that sends to the channel's endpoint on that stream, with that session.
    pub fn image_at(&self, channel: &Channel, session: i32, stream: i32) -> Option<&LogRow>
        ensures { option_copied result ≡ image_at self.now channel.now session stream }
    {
        image_in(self.sources.as_slice(), channel, session, stream)
    }

    /// As [`Streams::image_at`], where the place is that endpoint. No channel is made for the search.
    pub fn image_to(&self, endpoint: &Address, session: i32, stream: i32) -> Option<&LogRow>
        ensures { option_copied result ≡ image_at self.now (endpoint_shape endpoint.now) session stream }
    {
        image_to_in(self.sources.as_slice(), endpoint, session, stream)
    }

    /// The page at which the memory of an image begins that would be made, as [`Streams::place_for`] of a publication. It
    /// takes no memory.
    pub fn image_place_for(&self, arena_pages: u32, wanted: &ImageWanted) -> Option<u64>
        ensures { result ≡ image_place_for self.now arena_pages wanted.now }
    {
        self.free_place(arena_pages, pages_of(wanted.measures.term_length))
    }

    /// The row of an image that would be made under this number, at this place.
    pub fn image(&self, number: u64, wanted: &ImageWanted, place: u64) -> LogRow
        ensures { result ≡ image_of self.now number wanted.now place }
    {
        LogRow {
            number,
            channel: wanted.channel.copy(),
            stream: wanted.stream,
            session: wanted.session,
            place,
            slot: free_slot(self.sources.as_slice(), false),
            measures: wanted.measures,
            origin: Origin::Remote {
                address: wanted.address,
                initial_term: wanted.initial_term,
                join: wanted.join,
            },
        }
    }

    /// Makes an image, under this number, whose log lies at `place`. It takes no memory; [`Streams::has_room_for_image`] is
    /// asked before.
    pub fn add_image(&mut self, number: u64, wanted: &ImageWanted, place: u64)
        requires { has_room_for_image self.old ≡ true }
        ensures { self.new ≡ imaged self.old number wanted.now place }
    {
        let log = self.image(number, wanted, place);
        self.sources.push_image(log);
    }

    /// The images of these numbers go. No publication does, whatever its number. It takes no memory.
    #[tactic(auto, unfolding(crate::specs::Images::without_images))]
    pub fn remove_images(&mut self, numbers: &[u64])
        ensures { self.new ≡ without_images self.old numbers.now }
    {
        self.sources.remove_images(numbers);
    }
}
