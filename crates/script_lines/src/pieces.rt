ghost use Rattle.script_lines.specs.Pieces.{pieces, pieces_behind};
ghost use Rattle.std.specs.Prelude.{◌≡◌, ◌<◌, ◌==◌, ◌∷◌, option_copied, position};

/// The first piece of the text, and what stands after the mark where there is one.
pub(crate) fn first_piece(text: &str, mark: char) -> (&str, Option<&str>)
    requires { mark < 128 }
    ensures { pieces mark text.now ≡ result.0.now ∷ pieces_behind mark (option_copied result.1) }
{
    match text.split_once(mark) {
        Some((piece, behind)) => (piece, Some(behind)),
        None => (text, None),
    }
}

/// The place of the first mark.
fn place_of(bytes: &[u8], mark: u8) -> Option<usize>
    ensures { result ≡ position (λ b. b == mark) bytes.now }
{
    bytes.iter().position(|b| *b == mark)
}

/// The first piece of the bytes, and what stands after the mark where there is one.
pub(crate) fn first_of_bytes(bytes: &[u8], mark: u8) -> (&[u8], Option<&[u8]>)
    ensures { pieces mark bytes.now ≡ result.0.now ∷ pieces_behind mark (option_copied result.1) }
{
    match place_of(bytes, mark) {
        Some(place) => (&bytes[..place], Some(bytes.split_at(place + 1).1)),
        None => (bytes, None),
    }
}
