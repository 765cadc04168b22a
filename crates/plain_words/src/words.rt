//! What stands for each character of a text.

ghost use Rattle.plain_words.specs.Words.{all_plain, plain, shown};
ghost use Rattle.std.specs.Prelude.{◌≡◌, ◌++◌, IfOk, OnOk, true};
ghost use Rattle.std.specs.String.{string_bytes};

use byte_strings::Text;
use std::alloc::{AllocError, Global};

/// Appends what stands for a character: itself where it is printable ASCII, and else its code point between `<` and `>`.
fn push_shown(words: &mut String, letter: char) -> Result<(), AllocError>
    ensures { OnOk result (string_bytes words.new ≡ string_bytes words.old ++ shown letter) }
{
    if letter >= ' ' && letter <= '~' {
        return words.push(letter);
    }
    let code = letter as u32;
    write!(words, "<{code}>")
}

/// The text with what stands for each of its characters, so that it stays within its line and does nothing to a terminal. What is
/// printable ASCII stays as it is, and a text of nothing else stays whole.
pub fn plain(alloc: Global, text: &str) -> Result<Text, AllocError>
    ensures exact { IfOk result (λ words. words ≡ plain text.now) }
    ensures printable { IfOk result (λ words. all_plain words ≡ true) }
{
    let mut words = String::new(alloc);
    for letter in text.chars() {
        push_shown(&mut words, letter)?;
    }
    Ok(Text::from(words))
}
