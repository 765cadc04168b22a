ghost use Rattle.policy_core.specs.Moments.{stands_at};
ghost use Rattle.policy_lint.specs.Lasting.{begins_first, ends_last, outlasts};
ghost use Rattle.std.specs.Prelude.{◌≡◌, ℕ, true};

use policy_core::Rule;

/// Whether what begins at `wide` is there whenever what begins at `narrow` has begun.
fn begins_first(wide: Option<u64>, narrow: Option<u64>) -> bool
    ensures { result ≡ begins_first wide narrow }
{
    let Some(from) = wide else {
        return true;
    };
    match narrow {
        Some(other) => from <= other,
        None => false,
    }
}

/// Whether what ends at `wide` is not over whenever what ends at `narrow` is not.
fn ends_last(wide: Option<u64>, narrow: Option<u64>) -> bool
    ensures { result ≡ ends_last wide narrow }
{
    let Some(until) = wide else {
        return true;
    };
    match narrow {
        Some(other) => other <= until,
        None => false,
    }
}

/// Whether the wide rule is found to stand at each moment at which the narrow one does.
#[tactic(auto, using(crate::proofs::LastingLemmas::lasts))]
pub(crate) fn outlasts(wide: &Rule, narrow: &Rule) -> bool
    ensures exact { result ≡ outlasts wide.now narrow.now }
    ensures stands { result ≡ true → (moment : ℕ) → stands_at narrow.now moment ≡ true → stands_at wide.now moment ≡ true }
{
    begins_first(wide.from, narrow.from) && ends_last(wide.until, narrow.until)
}
