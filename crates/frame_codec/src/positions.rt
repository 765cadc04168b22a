ghost use Rattle.frame_codec.specs.Position.{position_of, term_id_of};
ghost use Rattle.std.specs.Prelude.{◌≡◌, ◌%◌, ◌<◌};

/// The position of a byte of a stream: how many bytes come before it. Ids of terms wrap. Offset and length of a term
/// are in bytes.
#[tactic(auto, unfolding(crate::specs::Position::position_of), using(crate::proofs::PositionLemmas::place_fits, crate::proofs::PositionLemmas::position_fits))]
pub fn position(initial_term_id: i32, term_id: i32, term_offset: u32, term_length: u32) -> u64
    ensures { result ≡ position_of initial_term_id term_id term_offset term_length }
{
    let terms = term_id
        .cast_unsigned()
        .wrapping_sub(initial_term_id.cast_unsigned());
    let before = u64::from(terms) * u64::from(term_length);
    before + u64::from(term_offset)
}

/// The id of the term in which a position lies, and how many bytes of that term come before it.
#[tactic(auto, unfolding(crate::specs::Position::term_id_of))]
pub fn term_of(initial_term_id: i32, position: u64, term_length: u32) -> (i32, u32)
    requires { 0 < term_length }
    ensures { result ≡ (term_id_of initial_term_id position term_length, position % term_length) }
{
    let terms = position / u64::from(term_length) % (1 << 32);
    let offset = position % u64::from(term_length);
    let term_id = initial_term_id
        .cast_unsigned()
        .wrapping_add(terms as u32)
        .cast_signed();
    (term_id, offset as u32)
}
