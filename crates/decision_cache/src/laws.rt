ghost use Rattle.decision_cache.specs.Entries.{IsAmong, IsSoundAt, IsSoundIn, key_of};
ghost use Rattle.decision_cache.specs.declared.key.Key.{Key};
ghost use Rattle.policy_core.specs.Question.{Question};
ghost use Rattle.policy_core.specs.RuleList.{Rules};
ghost use Rattle.policy_core.specs.declared.verdict.Verdict.{Verdict};
ghost use Rattle.std.specs.Prelude.{◌≡◌, ℕ, List, [], ◌∷◌, ◌++◌};

/// An empty cache is sound whatever the policies were. What is sound under some policies is so under one more, of the
/// next number: nothing has to be thrown away. And where a cache is sound under the policies so far, an entry under the
/// key of a request has the verdict on it of the policy of that number.
pub fn cached_verdicts_stay_sound()
    ensures empty { (policies : List Rules) (question : Key → Question) → IsSoundIn policies question [] }
    ensures grown { (policies : List Rules) (policy : Rules) (question : Key → Question) (entries : List (Key × Verdict)) →
        IsSoundIn policies question entries → IsSoundIn (policies ++ policy ∷ []) question entries }
    ensures at { (policies : List Rules) (question : Key → Question) (entries : List (Key × Verdict)) (policy : Rules) (epoch moment subject : ℕ) (asked : Question) →
        IsSoundIn policies question entries → IsAmong policies policy epoch → question (key_of epoch moment subject asked) ≡ asked
        → IsSoundAt entries policy epoch moment subject asked }
{}
