ghost use Rattle.std.specs.Prelude.{◌≡◌, [], IfOk};

use log_arena::NoMemory;
use log_pairs::Pairs;
use std::alloc::Global;
use std::marker::Model;

/// The memory of a log that is to be opened: room for 512 pairs.
#[derive(Debug, Drop)]
pub struct LogRoom {
    pub(crate) pairs: Pairs,
}

impl Model for LogRoom {
    ghost use Rattle.std.specs.Prelude.{◌≡◌, [], List};
    ghost use Rattle.log_pairs.specs.declared.pair.Pair.{Pair};

    ghost Value = { List Pair };

    ghost view = { λ room. room.pairs };

    ghost invariant = { λ room. room.pairs ≡ [] };
}

impl LogRoom {
    /// Takes the memory. Opening a log in it takes none.
    pub fn new(alloc: Global) -> Result<LogRoom, NoMemory>
        ensures { IfOk result (λ room. room ≡ []) }
    {
        Ok(LogRoom {
            pairs: Pairs::new(alloc)?,
        })
    }
}
