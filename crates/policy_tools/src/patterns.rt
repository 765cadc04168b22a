//! What two patterns have to do with each other.

ghost use Rattle.channel_uri.specs.Pattern.{pattern_of};
ghost use Rattle.channel_uri.specs.Pieces.{pieces_in};
ghost use Rattle.policy_tools.specs.Patterns.{key_passes, passes_from, patterns_pass, value_passes};
ghost use Rattle.policy_tools.specs.Wider.{IsWider, all_keys};
ghost use Rattle.policy_tools.specs.declared.patterns.Relation.TheVariants.{Covers};
ghost use Rattle.std.specs.Prelude.{◌≡◌, Ok, option_copied, true};

use crate::wider::{first_piece, key_of, pairs_in, value_wider};
use channel_uri::{Keys, Pattern};

/// What is asked of two patterns.
#[derive(Clone, Copy, Debug, PartialEq, Eq)]
pub enum Relation {
    /// Whether some channel may be covered by both.
    Meets,
    /// Whether the first covers each channel that the second covers.
    Covers,
}

/// Whether so it is of the values of a key.
fn value_passes(relation: Relation, one: &str, other: &str) -> bool
    ensures { result ≡ value_passes relation one.now other.now }
{
    match relation {
        Relation::Meets => value_wider(one, other) || value_wider(other, one),
        Relation::Covers => value_wider(one, other),
    }
}

/// The same, where the second pattern may not have the key.
fn passes_from(relation: Relation, one: &str, other: Option<&str>) -> bool
    ensures { result ≡ passes_from relation one.now (option_copied other.entry) }
{
    match other {
        Some(other) => value_passes(relation, one, other),
        None => match relation {
            Relation::Meets => true,
            Relation::Covers => false,
        },
    }
}

/// The same of a key of the first pattern; a key that it does not have passes.
fn key_passes(relation: Relation, one: &Keys, other: &Keys, key: &str) -> bool
    ensures { result ≡ key_passes relation one.now other.now key.now }
{
    match one.get(key) {
        Some(value) => passes_from(relation, value, other.get(key)),
        None => true,
    }
}

/// Whether the key of each of these pieces passes.
fn pieces_pass(relation: Relation, pairs: Option<&str>, one: &Keys, other: &Keys) -> bool
    ensures { result ≡ all_keys (key_passes relation one.now other.now) (pieces_in (option_copied pairs.entry)) }
{
    let mut rest = pairs;
    while let Some(text) = rest {
        let (piece, after) = first_piece(text);
        let key = key_of(piece);
        if !key_passes(relation, one, other, key) {
            return false;
        }
        rest = after;
    }
    true
}

/// Whether so it is of two patterns, of which the first has that text. It takes no memory.
pub fn patterns_pass(relation: Relation, text: &str, one: &Pattern, other: &Pattern) -> bool
    requires { pattern_of text.now ≡ Ok one.now }
    ensures { result ≡ patterns_pass relation one.now other.now }
{
    let Pattern::Of(media, keys) = one else {
        return true;
    };
    let Pattern::Of(medium, others) = other else {
        return relation == Relation::Meets;
    };
    if *media != *medium {
        return false;
    }
    pieces_pass(relation, pairs_in(text), keys, others)
}

/// Whether the wide pattern, which has that text, is found to cover each channel that the narrow one covers. It takes no memory.
pub fn is_wider(text: &str, wide: &Pattern, narrow: &Pattern) -> bool
    requires { pattern_of text.now ≡ Ok wide.now }
    ensures exact { result ≡ patterns_pass Covers wide.now narrow.now }
    ensures wider { result ≡ true → IsWider wide.now narrow.now }
{
    patterns_pass(Relation::Covers, text, wide, narrow)
}
