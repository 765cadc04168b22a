ghost use Rattle.piped_messages.specs.Cutting.{all_of, first_message, first_line, first_piece};
ghost use Rattle.std.specs.Option.{option_map};
ghost use Rattle.std.specs.Prelude.{◌≡◌, ◌==◌, position};

/// How input is cut into messages.
#[derive(Clone, Copy, Debug, PartialEq, Eq)]
pub enum Cut {
    /// Each line is a message, without its line feed.
    Lines,
    /// Each so many bytes are a message. 0 counts as 1.
    Pieces(usize),
}

/// All bytes as the last message, if there are any.
fn all_of(bytes: &[u8]) -> Option<(&[u8], &[u8])>
    ensures { option_map (λ cut. (cut.0.now, cut.1.now)) result ≡ all_of bytes.now }
{
    if bytes.is_empty() {
        None
    } else {
        Some(bytes.split_at(bytes.len()))
    }
}

/// The place of the first line feed.
fn line_feed(bytes: &[u8]) -> Option<usize>
    ensures { result ≡ position (λ b. b == 10) bytes.now }
{
    bytes.iter().position(|b| *b == b'\n')
}

/// The first line, and what stands after its line feed.
fn first_line(bytes: &[u8], ended: bool) -> Option<(&[u8], &[u8])>
    ensures { option_map (λ cut. (cut.0.now, cut.1.now)) result ≡ first_line ended bytes.now }
{
    match line_feed(bytes) {
        Some(place) => Some((&bytes[..place], &bytes[place + 1..])),
        None if ended => all_of(bytes),
        None => None,
    }
}

/// The first so many bytes, and what stands after them.
fn first_piece(bytes: &[u8], length: usize, ended: bool) -> Option<(&[u8], &[u8])>
    ensures { option_map (λ cut. (cut.0.now, cut.1.now)) result ≡ first_piece ended length bytes.now }
{
    if length <= bytes.len() {
        Some(bytes.split_at(length))
    } else if ended {
        all_of(bytes)
    } else {
        None
    }
}

/// The first message of the input, and what stands after it. `None` where more input has to come first, or, where the
/// input has `ended`, where nothing is left: what is left then is the last message, though no line feed or too few bytes
/// follow. It takes no memory.
pub fn first_message(bytes: &[u8], by: Cut, ended: bool) -> Option<(&[u8], &[u8])>
    ensures { option_map (λ cut. (cut.0.now, cut.1.now)) result ≡ first_message by ended bytes.now }
{
    match by {
        Cut::Lines => first_line(bytes, ended),
        Cut::Pieces(length) => first_piece(bytes, length.max(1), ended),
    }
}
