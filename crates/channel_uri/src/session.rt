ghost use Rattle.channel_uri.specs.Session.{session_id_of};
ghost use Rattle.std.specs.Prelude.{◌≡◌};

use crate::number::number_below;

/// The signed decimal of 32 bits that the text is. Leading zeros may stand, and `-0` is 0.
#[tactic(auto, unfolding(crate::specs::Session::session_id_of))]
pub fn session_id_of(text: &str) -> Option<i32>
    ensures { result ≡ session_id_of text.now }
{
    match text.strip_prefix("-") {
        Some(digits) => {
            let number = number_below(2_147_483_649, digits)?;
            Some((-(number as i64)) as i32)
        }
        None => {
            let number = number_below(2_147_483_648, text)?;
            Some(number as i32)
        }
    }
}
