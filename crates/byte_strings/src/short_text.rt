ghost use Rattle.std.specs.Prelude.{◌≡◌, ◌≤◌, length, Some};
ghost use Rattle.std.proofs.lemmas.Cmp.{nat_list_eq_equiv};
ghost use Rattle.std.specs.Cmp.{partial_equiv_from_equiv};
ghost use Rattle.std.specs.Str.{bytes_eq};

use arrayvec::ArrayString;
use std::fmt;
use std::marker::Model;

/// A text of at most N bytes of UTF-8, which lie in the value itself.
#[derive(Debug, Drop)]
pub struct ShortText<const N: usize> {
    string: ArrayString<N>,
}

impl<const N: usize> Model for ShortText<N> {
    ghost use Rattle.std.specs.Prelude.{ℕ, List};

    ghost Value = { List ℕ };

    ghost view = { λ text. text.string.bytes };
}

impl<const N: usize> ShortText<N> {
    /// A copy of `text`.
    pub fn new(text: &str) -> ShortText<N>
        requires { length text.now ≤ N }
        ensures { result ≡ text.now }
    {
        let mut string = ArrayString::new();
        string.push_str(text);
        ShortText { string }
    }

    /// The bytes of the text.
    pub fn as_str(&self) -> &str
        ensures value { result.now ≡ self.now }
        ensures few { length result.now ≤ N }
    {
        self.string.as_str()
    }

    /// Takes the bytes of another text in place of its own.
    pub fn set_from(&mut self, other: &ShortText<N>)
        ensures { self.new ≡ other.now }
    {
        self.string.clear();
        self.string.push_str(other.string.as_str());
    }

    /// Another text with the same bytes.
    pub fn copy(&self) -> ShortText<N>
        ensures { result ≡ self.now }
    {
        ShortText::new(self.as_str())
    }
}

impl<const N: usize> PartialEq for ShortText<N> {
    ghost eq = { bytes_eq };

    ghost laws = { partial_equiv_from_equiv nat_list_eq_equiv };

    fn eq(&self, other: &ShortText<N>) -> bool {
        self.as_str() == other.as_str()
    }
}

impl<const N: usize> Eq for ShortText<N> {
    ghost laws = { nat_list_eq_equiv };
}

impl<const N: usize> fmt::Display for ShortText<N> {
    ghost output = { λ text. Some text };

    fn fmt<W: fmt::Write>(&self, f: &mut fmt::Formatter<W>) -> fmt::Result {
        f.write_str(self.as_str())
    }
}
