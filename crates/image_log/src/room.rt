ghost use Rattle.std.specs.Prelude.{◌≡◌, IfOk};

use crate::place::Place;
use log_arena::NoMemory;
use log_pairs::Pairs;
use std::alloc::Global;
use std::collections::VecDeque;
use std::marker::Model;

/// The memory of a log that is to be opened: room for 512 pairs, and for the places of all frames that its lease can
/// hold.
#[derive(Drop)]
pub struct ImageRoom {
    /// How many bytes the lease has.
    len: usize,
    pub(crate) pairs: Pairs,
    pub(crate) places: VecDeque<Place>,
}

impl Model for ImageRoom {
    ghost use Rattle.std.specs.Prelude.{◌≡◌, ◌/◌, ◌≤◌, [], ℕ};
    ghost use Rattle.std.specs.VecDeque.{deque_capacity};

    ghost Value = { ℕ };

    ghost view = { λ room. room.len };

    ghost invariant = { λ room. (room.pairs ≡ []) × (room.places.items ≡ []) × (room.len / 32 ≤ deque_capacity room.places) };
}

impl ImageRoom {
    /// Takes the memory for a log in a lease of so many bytes. Opening a log in it takes none.
    pub fn new(alloc: Global, len: usize) -> Result<ImageRoom, NoMemory>
        ensures { IfOk result (λ room. room ≡ len) }
    {
        let pairs = Pairs::new(alloc)?;
        let places = VecDeque::with_capacity(alloc, len / 32)?;
        Ok(ImageRoom { len, pairs, places })
    }
}
