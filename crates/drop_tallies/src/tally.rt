ghost use Rattle.drop_tallies.specs.Tallies.{is_like, is_same_rule, is_same_verdict, one_more};
ghost use Rattle.std.specs.Prelude.{◌≡◌};

use crate::miss::Miss;
use channel_uri::Address;
use policy_core::Verdict;

/// How often it happened for one cause.
#[derive(Clone, Copy, Debug, Default, PartialEq, Eq)]
pub struct Tally {
    pub miss: Miss,
    /// By what the policy denies it; `None` where no policy was asked.
    pub verdict: Option<Verdict>,
    /// From where the datagram came, or where it would have gone; where reading failed, at which address of the driver's.
    pub address: Address,
    /// How many times, up to the greatest number.
    pub count: u64,
}

/// Whether both are by the same rule, or both by the default.
fn is_same_rule(one: Option<u32>, other: Option<u32>) -> bool
    ensures { result ≡ is_same_rule one other }
{
    match (one, other) {
        (Some(one), Some(other)) => one == other,
        (None, None) => true,
        _ => false,
    }
}

/// Whether both are by the same rule of the same policy, or both by none.
fn is_same_verdict(one: &Option<Verdict>, other: &Option<Verdict>) -> bool
    ensures { result ≡ is_same_verdict one.now other.now }
{
    match (one, other) {
        (Some(one), Some(other)) => {
            one.epoch == other.epoch && is_same_rule(one.rule, other.rule)
        }
        (None, None) => true,
        _ => false,
    }
}

impl Tally {
    /// Whether it is of the same cause, verdict and address.
    pub(crate) fn is_like(&self, other: &Tally) -> bool
        ensures { result ≡ is_like other.now self.now }
    {
        self.miss.is(other.miss)
            && is_same_verdict(&self.verdict, &other.verdict)
            && self.address == other.address
    }

    /// With as many more as the other has, where it is like that.
    pub(crate) fn one_more(&self, other: &Tally) -> Tally
        ensures { result ≡ one_more other.now self.now }
    {
        if self.is_like(other) {
            Tally {
                count: self.count.saturating_add(1),
                ..*self
            }
        } else {
            *self
        }
    }
}
