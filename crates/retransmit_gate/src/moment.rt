ghost use Rattle.retransmit_gate.specs.Moment.{is_past, later_of};
ghost use Rattle.std.specs.Prelude.{◌≡◌};

/// `now` is past `limit` since `last`: never where it is below `last`.
pub(crate) fn is_past(now: u64, last: u64, limit: u64) -> bool
    ensures { result ≡ is_past now last limit }
{
    now.saturating_sub(last) > limit
}

/// `now`, or the greatest moment seen, where that is later.
pub(crate) fn later_of(seen: u64, now: u64) -> u64
    ensures { result ≡ later_of seen now }
{
    seen.max(now)
}
