ghost use Rattle.policy_core.specs.Act.{act_number};
ghost use Rattle.policy_core.specs.Acts.{holds};
ghost use Rattle.policy_core.specs.declared.act.Act.{Act};
ghost use Rattle.std.specs.Bool.{beq};
ghost use Rattle.std.specs.Prelude.{◌≡◌, ◌==◌, ◌&&◌, ◌||◌, ◌<◌};

use policy_core::{Act, Acts};

/// The act of this number.
pub(crate) fn act_at(number: usize) -> Act
    requires { number < 14 }
    ensures { act_number result ≡ number }
{
    Act::EVERY[number]
}

/// Whether the one holds the act and so does the other one or, where that is not wanted, doesn't.
fn is_of_both(one: Acts, other: Acts, wanted: bool, act: Act) -> bool
    ensures { result ≡ (holds one act && beq (holds other act) wanted) }
{
    one.hold(act) && other.hold(act) == wanted
}

/// These acts, and that one if it is chosen.
fn with_chosen(acts: Acts, act: Act, chosen: bool) -> Acts
    ensures { (other : Act) → holds result other ≡ (holds acts other || (chosen && (act_number act == act_number other))) }
{
    if chosen {
        return acts.with(act);
    }
    acts
}

/// The acts that the one holds and that the other one holds or, where those are not wanted, doesn't.
pub(crate) fn acts_of_both(one: Acts, other: Acts, wanted: bool) -> Acts
    ensures { (act : Act) → holds result act ≡ (holds one act && beq (holds other act) wanted) }
{
    let mut acts = Acts::none();
    for number in 0..14 {
        let act = act_at(number);
        acts = with_chosen(acts, act, is_of_both(one, other, wanted, act));
    }
    acts
}
