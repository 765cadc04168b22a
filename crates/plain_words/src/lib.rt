//! Words that others chose, as they stand on a line that is printed.
//!
//! A label, a channel, a key of a policy or a name may hold any character. Printed as it is, an escape would move the cursor of
//! the terminal that shows it, and a line feed would begin a line of its own. [`plain`] gives words of printable ASCII alone.
#![tactic(auto)]

mod laws;
mod words;

pub use laws::{plain_words_stay, unlike_texts_are_told_apart};
pub use words::plain;
