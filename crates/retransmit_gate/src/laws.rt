//! What holds of all ranges, of all NAKs that come and of all ticks: each function does nothing, and its clause is the law.

ghost use Rattle.std.specs.Prelude.{◌↔◌, ◌<◌, ◌≤◌, ℕ, IsTrue};
ghost use Rattle.retransmit_gate.specs.Gate.{meets};
ghost use Rattle.retransmit_gate.specs.NakLaws.{GapsAreAskedExactly, GapsStandSomewhere};
ghost use Rattle.retransmit_gate.specs.ResendLaws.{ResendsAreApart, ResendsAreFew, ResendsExactly, ResendsWereAsked};
ghost use Rattle.retransmit_gate.specs.declared.resent.Resent.{Resent};

/// Two ranges meet exactly where they have a position in common.
pub fn ranges_meet_where_they_share_a_position()
    ensures { (start end : ℕ) (resent : Resent) → IsTrue (meets start end resent)
        ↔ ((position : ℕ) × (start ≤ position) × (position < end) × (resent.start ≤ position) × (position < resent.end)) }
{}

/// After any NAKs, a further one has its range sent again exactly where the range has a position and lies within the
/// window, no range that shares a position with it lingers, and fewer than 16 ranges linger.
pub fn ranges_are_resent_exactly()
    ensures { ResendsExactly }
{}

/// Whatever NAKs come, two ranges that share a position are sent again more than a linger apart.
pub fn resends_are_a_linger_apart()
    ensures { ResendsAreApart }
{}

/// Whatever NAKs come, at no moment do more than 16 ranges linger.
pub fn resends_are_few()
    ensures { ResendsAreFew }
{}

/// Whatever NAKs come, only ranges of NAKs are sent again, each within the window that its NAK came with.
pub fn resends_were_asked_for()
    ensures { ResendsWereAsked }
{}

/// After any ticks, a tick gives a NAK exactly of a gap that it has, and that was there before: past the delay since the
/// gap was first seen, where it was not asked for since, and else past the repeat since it was last asked for.
pub fn gaps_are_asked_exactly()
    ensures { GapsAreAskedExactly }
{}

/// After any ticks, a gap at any position is a new one, or was seen and not asked for, or was asked for.
pub fn gaps_stand_somewhere()
    ensures { GapsStandSomewhere }
{}
