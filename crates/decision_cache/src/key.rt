ghost use Rattle.policy_core.specs.Act.{act_number};
ghost use Rattle.std.specs.Prelude.{◌++◌};
ghost use Rattle.std.specs.Hash as fed;
ghost use Rattle.std.specs.Cmp.Rules.{hashing};
ghost use Rattle.std.proofs.Common.{rules};

use policy_core::Act;
use std::hash::{Hash, Hasher};

/// What a verdict is kept under.
#[derive(Clone, Copy, Debug, PartialEq, Eq)]
pub struct Key {
    /// The number of the policy that decided, counted from 1.
    pub epoch: u64,
    /// The moment as of which the policy stood.
    pub moment: u64,
    /// The number of what is acted on.
    pub subject: u64,
    /// Who acts.
    pub principal: u32,
    /// What is done.
    pub act: Act,
}

impl Hash for Key {
    ghost hash_input = { λ key. fed.u64 key.epoch ++ (fed.u64 key.moment ++ (fed.u64 key.subject ++ (fed.u32 key.principal ++ fed.u8 (act_number key.act)))) };

    ghost respects_eq = { Prim.search (hashing, rules) };

    fn hash<H: Hasher>(&self, state: &mut H) {
        state.write_u64(self.epoch);
        state.write_u64(self.moment);
        state.write_u64(self.subject);
        state.write_u32(self.principal);
        state.write_u8(self.act as u8);
    }
}
