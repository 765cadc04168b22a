ghost use Rattle.stream_gaps.specs.Untaken.{after};
ghost use Rattle.std.specs.Prelude.{◌≡◌, ℕ, ◌≤◌, ◌++◌, ◌∷◌, [], OnErr, OnOk, length};

use std::alloc::{AllocError, Global};
use std::marker::Model;

/// How many messages are kept before those that were taken are forgotten.
const FEW: usize = 4_096;

/// The ends of messages that were sent, as far as they may not be taken yet.
#[derive(Drop)]
pub struct Untaken {
    ends: Vec<u64>,
    /// Once so many are there, those that were taken are forgotten.
    most: usize,
}

impl Model for Untaken {
    ghost use Rattle.std.specs.Prelude.{ℕ, List};

    ghost Value = { List ℕ };

    ghost view = { λ untaken. untaken.ends.items };
}

/// How many of these positions are after that one.
fn count_after(ends: &[u64], taken: u64) -> usize
    ensures { result ≡ length (after taken ends.now) }
{
    ends.iter().filter(|end| taken < **end).count()
}

/// Those up to that one are forgotten.
fn keep_after(ends: &mut Vec<u64>, taken: u64)
    ensures { ends.new.items ≡ after taken ends.old.items }
{
    ends.retain(|end| taken < *end);
}

impl Untaken {
    /// Nothing was sent yet. It takes no memory.
    pub fn new(alloc: Global) -> Untaken
        ensures { result ≡ [] }
    {
        Untaken {
            ends: Vec::new(alloc),
            most: FEW,
        }
    }

    /// Those that were taken are forgotten, where there are many.
    #[tactic(auto, using(crate::proofs::UntakenLemmas::still_after))]
    fn forget(&mut self, taken: u64)
        ensures { (position : ℕ) → taken ≤ position → after position self.new ≡ after position self.old }
    {
        if self.ends.len() >= self.most {
            keep_after(&mut self.ends, taken);
            self.most = self.ends.len().saturating_mul(2).max(FEW);
        }
    }

    /// A message was sent that ends at this position, when all was taken up to `taken`.
    ///
    /// # Errors
    /// Where there is no memory for it, it is not counted.
    pub fn send(&mut self, end: u64, taken: u64) -> Result<(), AllocError>
        ensures ok { OnOk result ((position : ℕ) → taken ≤ position → after position self.new ≡ after position (self.old ++ end ∷ [])) }
        ensures err { OnErr result ((position : ℕ) → taken ≤ position → after position self.new ≡ after position self.old) }
    {
        self.forget(taken);
        self.ends.push(end)?;
        Ok(())
    }

    /// How many messages of those that were sent end after this position. It is right for each position up to which all was
    /// taken at the last send, or a later one.
    pub fn count(&self, taken: u64) -> usize
        ensures { result ≡ length (after taken self.now) }
    {
        count_after(self.ends.as_slice(), taken)
    }
}
