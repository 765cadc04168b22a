ghost use Rattle.std.specs.Prelude.{◌≡◌, ◌≤◌, length};
ghost use Rattle.std.proofs.lemmas.Cmp.{nat_list_eq_equiv};
ghost use Rattle.std.specs.Cmp.{partial_equiv_from_equiv};
ghost use Rattle.std.specs.Str.{bytes_eq};

use arrayvec::ArrayVec;
use std::marker::Model;

/// At most N bytes, which lie in the value itself.
#[derive(Debug, Drop)]
pub struct ShortBytes<const N: usize> {
    items: ArrayVec<u8, N>,
}

impl<const N: usize> Model for ShortBytes<N> {
    ghost use Rattle.std.specs.Prelude.{ℕ, List};

    ghost Value = { List ℕ };

    ghost view = { λ bytes. bytes.items.items };
}

impl<const N: usize> ShortBytes<N> {
    /// A copy of `bytes`.
    pub fn new(bytes: &[u8]) -> ShortBytes<N>
        requires { length bytes.now ≤ N }
        ensures { result ≡ bytes.now }
    {
        let mut items = ArrayVec::new();
        match items.try_extend_from_slice(bytes) {
            Ok(()) => {}
            Err(_) => unreachable!(),
        }
        ShortBytes { items }
    }

    pub fn as_slice(&self) -> &[u8]
        ensures value { result.now ≡ self.now }
        ensures few { length result.now ≤ N }
    {
        self.items.as_slice()
    }

    /// Other bytes, equal to these.
    pub fn copy(&self) -> ShortBytes<N>
        ensures { result ≡ self.now }
    {
        ShortBytes::new(self.as_slice())
    }
}

impl<const N: usize> PartialEq for ShortBytes<N> {
    ghost eq = { bytes_eq };

    ghost laws = { partial_equiv_from_equiv nat_list_eq_equiv };

    fn eq(&self, other: &ShortBytes<N>) -> bool {
        self.as_slice() == other.as_slice()
    }
}

impl<const N: usize> Eq for ShortBytes<N> {
    ghost laws = { nat_list_eq_equiv };
}
