//! What holds of every table of learnt addresses: the function does nothing, and its clause is the law.

ghost use Rattle.learnt_addresses.specs.Laws.{StaysOrderly};

/// No address is there twice, and there are 32 at most: so it is at first and after every call.
pub fn learnt_addresses_are_orderly()
    ensures { StaysOrderly }
{}
