//! What holds of networks in memory: each function does nothing, and its clause is the law.

ghost use Rattle.media_wire.specs.Arrivals.{ArriveInOrder, FailuresLeadNowhere, WereSent};

/// Where every letter arrives, what was read at an address, and then what is on its way there, is what was sent there, in
/// order.
pub fn letters_arrive_in_order()
    ensures { ArriveInOrder }
{}

/// Calls that fail leave a network as it is.
pub fn failures_lead_nowhere()
    ensures { FailuresLeadNowhere }
{}

/// Whatever the fates are, each letter that was read or is on its way was sent.
pub fn letters_were_sent()
    ensures { WereSent }
{}
