//! What holds of counters under every policy: the function does nothing, and its clause is the law.

ghost use Rattle.counters.specs.Counters.{is_visible, question_for};
ghost use Rattle.counters.specs.declared.counter.Counter.{Counter};
ghost use Rattle.policy_core.specs.RuleList.{Rules};
ghost use Rattle.policy_core.specs.Rules.{verdict_of};
ghost use Rattle.std.specs.Prelude.{◌≡◌, ℕ};

/// Whether a counter is shown is the word of the policy's verdict, whatever number the policy goes by.
pub fn any_number_shows_the_same()
    ensures { (policy : Rules) (epoch principal : ℕ) (counter : Counter) →
        (verdict_of policy epoch (question_for principal counter)).allow ≡ is_visible policy principal counter }
{}
