ghost use Rattle.std.specs.Prelude.{◌≡◌, true};
ghost use Rattle.image_log.specs.Handed.{IsFor};

use crate::handed;

/// Which stream a log is of, and how long its terms are.
#[derive(Clone, Copy, Debug, PartialEq, Eq)]
pub struct Ident {
    pub session_id: i32,
    pub stream_id: i32,
    pub initial_term_id: i32,
    /// In bytes, from 64 KiB to 16 MiB.
    pub term_length: u32,
}

impl Ident {
    /// Whether these bytes may be handed in at a position: whether they are one data frame without its filling, or one
    /// pad by its header alone, of this session and stream, at its header's position.
    pub fn admits(&self, position: u64, frame: &[u8]) -> bool
        ensures holds { result ≡ true → IsFor self.now position frame.now }
        ensures exact { IsFor self.now position frame.now → result ≡ true }
    {
        if !handed::is_sound(frame) {
            return false;
        }
        if handed::signed_at(frame, 12) != self.session_id
            || handed::signed_at(frame, 16) != self.stream_id
        {
            return false;
        }
        handed::is_at(self.initial_term_id, self.term_length, position, frame)
    }
}
