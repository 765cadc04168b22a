ghost use Rattle.policy_table.specs.Scope.{is_spoken_to, speaks_to};
ghost use Rattle.std.specs.Prelude.{◌≡◌};

use policy_core::{Act, Principals, Rule};

/// Whose requests are meant.
#[derive(Clone, Copy, Debug, PartialEq, Eq)]
pub enum Asker {
    /// Those of the principal of this number.
    One(u32),
    /// Those of every principal that no rule names.
    Others,
}

/// Which requests are meant: whose, of which act, and on which streams.
#[derive(Clone, Copy, Debug, PartialEq, Eq)]
pub struct Scope {
    /// Whose requests.
    pub asker: Asker,
    /// Of which act.
    pub act: Act,
    /// The lowest stream id.
    pub low: i32,
    /// The highest stream id.
    pub high: i32,
}

/// Whether those spoken of are the asker's.
fn is_spoken_to(principals: Principals, asker: Asker) -> bool
    ensures { result ≡ is_spoken_to principals asker }
{
    match principals {
        Principals::Any => true,
        Principals::One(one) => match asker {
            Asker::One(number) => one == number,
            Asker::Others => false,
        },
    }
}

/// Whether the rule speaks of the asker and the act.
pub(crate) fn speaks_to(rule: &Rule, asker: Asker, act: Act) -> bool
    ensures { result ≡ speaks_to rule.now asker act }
{
    is_spoken_to(rule.principals, asker) && rule.acts.hold(act)
}
