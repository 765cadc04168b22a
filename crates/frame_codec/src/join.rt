ghost use Rattle.frame_codec.specs.Join.{is_offset, is_recent, join_of, mtu_of, term_length_of};
ghost use Rattle.std.specs.Prelude.{◌≡◌};

use crate::positions::position;
use crate::setup::Setup;

/// Where an image joins a stream, and the sizes of that stream.
#[derive(Clone, Copy, Debug, PartialEq, Eq)]
pub struct Join {
    /// How many bytes of the stream come before.
    pub position: u64,
    /// In bytes.
    pub term_length: u32,
    /// How long a datagram may be, in bytes.
    pub mtu: u32,
}

/// The length of a term, where one may be so long.
#[tactic(auto, unfolding(crate::specs::Join::term_length_of))]
fn term_length_of(stated: i32) -> Option<u32>
    ensures { result ≡ term_length_of stated }
{
    if stated < 65_536 {
        return None;
    }
    if stated > 16_777_216 {
        return None;
    }
    let length = stated as u32;
    if length.is_power_of_two() {
        Some(length)
    } else {
        None
    }
}

/// The greatest length of a datagram, where it may be that.
#[tactic(auto, unfolding(crate::specs::Join::mtu_of))]
fn mtu_of(stated: i32) -> Option<u32>
    ensures { result ≡ mtu_of stated }
{
    if stated < 64 {
        return None;
    }
    if stated > 65_504 {
        return None;
    }
    let length = stated as u32;
    if length % 32 == 0 { Some(length) } else { None }
}

/// Whether frames may begin there.
fn is_offset(offset: u32, term_length: u32) -> bool
    ensures { result ≡ is_offset offset term_length }
{
    if offset % 32 == 0 {
        offset < term_length
    } else {
        false
    }
}

/// Whether fewer than 2^31 terms come before the active one.
fn is_recent(setup: &Setup) -> bool
    ensures { result ≡ is_recent setup.now }
{
    let initial = setup.initial_term_id.cast_unsigned();
    let terms = setup.active_term_id.cast_unsigned().wrapping_sub(initial);
    terms < 1 << 31
}

impl Setup {
    /// Where an image that begins with this SETUP joins, and the sizes of its stream. `None` for a SETUP that no sender
    /// may send: a term is a power of two from 64 KiB to 16 MiB long, a datagram a multiple of 32 from 64 to 65504, the
    /// term offset is a multiple of 32 within the term, and fewer than 2^31 terms come before the active one.
    #[tactic(auto, unfolding(crate::specs::Join::join_of))]
    pub fn join(&self) -> Option<Join>
        ensures { result ≡ join_of self.now }
    {
        let term_length = term_length_of(self.term_length)?;
        let mtu = mtu_of(self.mtu)?;
        if !is_offset(self.term_offset, term_length) {
            return None;
        }
        if !is_recent(self) {
            return None;
        }
        let (initial, active) = (self.initial_term_id, self.active_term_id);
        Some(Join {
            position: position(initial, active, self.term_offset, term_length),
            term_length,
            mtu,
        })
    }
}
