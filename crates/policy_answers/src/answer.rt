ghost use Rattle.std.specs.Prelude.{◌≡◌, true};
ghost use Rattle.std.specs.String.{string_bytes};

use byte_strings::Text;

/// What is answered.
#[derive(Debug, Drop)]
pub struct Answer {
    /// What is printed: whole lines.
    pub text: Text,
    /// Whether nothing failed of what was to hold.
    pub is_well: bool,
    /// Whether it is known that something did, where not all is well. Of two policies that only may differ it is not.
    pub is_sure: bool,
}

impl Answer {
    /// A text that answers a question of which nothing was to hold.
    pub(crate) fn of(text: String) -> Answer
        ensures { result ≡ record { text = string_bytes text; is_well = true; is_sure = true } }
    {
        Answer {
            text: Text::from(text),
            is_well: true,
            is_sure: true,
        }
    }
}
