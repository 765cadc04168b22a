ghost use Rattle.std.specs.Int.{bit_at};
ghost use Rattle.std.specs.Prelude.{◌≡◌, ◌≢◌, ◌<◌, ℕ};

/// The lowest bit that is set.
pub(crate) fn lowest(word: u64) -> usize
    requires { 0 < word }
    ensures small { result < 64 }
    ensures set { bit_at word result ≡ 1 }
    ensures lower { (bit : ℕ) → bit < result → bit_at word bit ≡ 0 }
{
    word.trailing_zeros() as usize
}

/// The word without this bit.
pub(crate) fn without(word: u64, bit: usize) -> u64
    requires small { bit < 64 }
    requires set { bit_at word bit ≡ 1 }
    ensures less { result < word }
    ensures gone { bit_at result bit ≡ 0 }
    ensures others { (other : ℕ) → other < 64 → other ≢ bit → bit_at result other ≡ bit_at word other }
{
    word & !(1u64 << bit)
}
