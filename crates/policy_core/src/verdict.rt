ghost use Rattle.policy_core.specs.Verdict.{verdict_text};
ghost use Rattle.std.specs.Prelude.{◌≡◌, Some, IfOk};

use byte_strings::Text;
use std::alloc::{AllocError, Global};
use std::fmt;

/// What a policy decides of a request, and by what.
#[derive(Clone, Copy, Debug, PartialEq, Eq)]
pub struct Verdict {
    /// Whether the request is granted.
    pub allow: bool,
    /// The number of the rule that decided, counted from 1; `None` where no rule matched and the default stands.
    pub rule: Option<u32>,
    /// The number of the policy that decided, counted from 1.
    pub epoch: u64,
}

impl Verdict {
    /// The verdict in words, such as `denied by rule 3 in policy 2` or `allowed by default in policy 1`.
    pub fn text(&self, alloc: Global) -> Result<Text, AllocError>
        ensures { IfOk result (λ text. text ≡ verdict_text self.now) }
    {
        Ok(Text::from(format!(in alloc; "{self}")?))
    }
}

impl fmt::Display for Verdict {
    ghost output = { λ verdict. Some (verdict_text verdict) };

    #[tactic(auto, unfolding(crate::specs::Verdict::verdict_text))]
    fn fmt<W: fmt::Write>(&self, f: &mut fmt::Formatter<W>) -> fmt::Result {
        let epoch = self.epoch;
        match (self.allow, self.rule) {
            (true, Some(rule)) => write!(f, "allowed by rule {rule} in policy {epoch}"),
            (true, None) => write!(f, "allowed by default in policy {epoch}"),
            (false, Some(rule)) => write!(f, "denied by rule {rule} in policy {epoch}"),
            (false, None) => write!(f, "denied by default in policy {epoch}"),
        }
    }
}
