/// The pairs of a pattern's text.
pub(crate) fn pairs_in(text: &str) -> &str {
    match text.split_once('?') {
        Some((_, pairs)) => pairs,
        None => "",
    }
}
