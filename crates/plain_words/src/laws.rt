//! What holds of all texts: each function does nothing, and its clause is the law.

ghost use Rattle.plain_words.specs.Words.{all_plain, lacks_mark, plain};
ghost use Rattle.std.specs.Prelude.{◌≡◌, List, true, ℕ};
ghost use Rattle.std.specs.Str.{IsUtf8};

/// A text of printable ASCII alone is printed as it is.
pub fn plain_words_stay()
    ensures { (text : List ℕ) → all_plain text ≡ true → plain text ≡ text }
{}

/// Two texts of which the same is printed are the same, where neither has a `<`. A text that has one may look like another: of
/// `<27>` the same is printed as of an escape.
pub fn unlike_texts_are_told_apart()
    ensures { (one other : List ℕ) → IsUtf8 one → IsUtf8 other → lacks_mark one ≡ true → lacks_mark other ≡ true
        → plain one ≡ plain other → one ≡ other }
{}
