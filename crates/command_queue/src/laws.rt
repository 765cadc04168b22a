ghost use Rattle.command_queue.specs.Facts.{WasFull};
ghost use Rattle.command_queue.specs.declared.known.Facts.{Facts};
ghost use Rattle.command_queue.specs.declared.letter.Letter.{Letter};
ghost use Rattle.std.specs.Prelude.{◌≤◌, ◌+◌, List, All, length};

/// A queue's only sender is refused only where it has sent 1,024 events beyond those that it knows to have been taken: the
/// events that fill the queue are its own.
pub fn a_lone_sender_fills_the_queue<E>()
    ensures { (sent : List E) (facts : Facts E) → WasFull 1 0 sent facts
        → (1024 ≤ length sent) × All (λ (some : List (Letter E)). length some + 1024 ≤ length sent) facts.taken }
{}
