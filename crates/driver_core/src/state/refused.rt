ghost use Rattle.driver_core.specs.Refusing.{plainly, on, denied};
ghost use Rattle.std.specs.Prelude.{◌≡◌};

use crate::state::refusal::Refusal;
use policy_core::Decision;

/// Why a command is refused, and what the policy decided on it, if it was asked.
#[derive(Clone, Copy)]
pub(crate) struct Refused {
    pub(crate) decision: Option<Decision>,
    pub(crate) refusal: Refusal,
}

impl Refused {
    /// The policy is not asked.
    pub(crate) fn plainly(refusal: Refusal) -> Refused
        ensures { result ≡ plainly refusal }
    {
        Refused {
            decision: None,
            refusal,
        }
    }

    /// The policy allows it, and yet it is refused.
    pub(crate) fn on(decision: Decision, refusal: Refusal) -> Refused
        ensures { result ≡ on decision refusal }
    {
        Refused {
            decision: Some(decision),
            refusal,
        }
    }

    /// The policy denies it.
    pub(crate) fn denied(decision: Decision) -> Refused
        ensures { result ≡ denied decision }
    {
        Refused::on(decision, Refusal::Denied(decision.verdict))
    }
}
