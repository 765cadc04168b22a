ghost use Rattle.policy_text.specs.Fault.{Equals};
ghost use Rattle.policy_text.specs.Fields.{is_printable, is_name, name_of, principal_of, act_at, listed_acts, acts_of, channel_of, two_integers, range_of, stream_of, bound_at, is_moment, is_below, moment_of, span_of, moments_of, is_rule_key, allow_of, rule_of};
ghost use Rattle.policy_text.specs.Members.{all_keys};
ghost use Rattle.std.specs.Prelude.{◌≡◌, ◌≤◌, length, true, IfOk};
ghost use Rattle.toml.specs.View.{array_view, table_view, view};

use crate::fault::{Field, PolicyFault};
use crate::members::{all_known, all_texts, bool_at, len_of, member, text_at};
use crate::names::Names;
use crate::version::Version;
use byte_strings::ShortText;
use channel_uri::Pattern;
use policy_core::{Act, Acts, Principals, Rule};
use toml::value::Array;
use toml::{Table, Value};

/// Whether each byte is ASCII and printable, a space too.
fn is_printable(text: &str) -> bool
    ensures { result ≡ is_printable text.now }
{
    text.bytes().all(|byte| byte >= b' ' && byte <= b'~')
}

/// Whether the text can name a rule.
fn is_name(text: &str) -> bool
    ensures { result ≡ is_name text.now }
{
    !text.is_empty() && text.len() <= 64 && is_printable(text)
}

/// The name of a rule.
fn name_of(number: u32, table: &Table) -> Result<&str, PolicyFault>
    ensures exact { Equals (λ name. name.now) result (name_of number (table_view table.now)) }
    ensures few { IfOk result (λ name. length name.now ≤ 64) }
{
    let bad = PolicyFault::BadField {
        rule: number,
        field: Field::Name,
    };
    let Some(name) = text_at(table, "name") else {
        return Err(bad);
    };
    if !is_name(name) {
        return Err(bad);
    }
    Ok(name)
}

/// Whom a rule speaks of.
fn principal_of(number: u32, table: &Table, names: &Names) -> Result<Principals, PolicyFault>
    ensures { Equals (λ principals. principals) result (principal_of names.now number (table_view table.now)) }
{
    let Some(name) = text_at(table, "principal") else {
        return Err(PolicyFault::BadField {
            rule: number,
            field: Field::Principal,
        });
    };
    if name == "*" {
        return Ok(Principals::Any);
    }
    match names.number_of(name) {
        Some(known) => Ok(Principals::One(known)),
        None => Err(PolicyFault::UnknownPrincipal { rule: number }),
    }
}

/// The act that a value names.
fn act_at(number: u32, value: &Value) -> Result<Act, PolicyFault>
    ensures { Equals (λ act. act) result (act_at number (view value.now)) }
{
    let Some(name) = value.as_str() else {
        return Err(PolicyFault::BadField {
            rule: number,
            field: Field::Act,
        });
    };
    match Act::from_name(name) {
        Some(act) => Ok(act),
        None => Err(PolicyFault::UnknownAct { rule: number }),
    }
}

/// The acts that a list names.
#[tactic(auto, unfolding(crate::specs::Fields::listed_acts))]
fn listed_acts(number: u32, items: &Array) -> Result<Acts, PolicyFault>
    ensures { Equals (λ acts. acts) result (listed_acts number (array_view items.now)) }
{
    let bad = PolicyFault::BadField {
        rule: number,
        field: Field::Act,
    };
    if len_of(items) == 0 {
        return Err(bad);
    }
    if !all_texts(items) {
        return Err(bad);
    }
    let mut acts = Acts::none();
    for value in items {
        acts = acts.with(act_at(number, value)?);
    }
    Ok(acts)
}

/// The acts that a rule speaks of.
fn acts_of(number: u32, table: &Table) -> Result<Acts, PolicyFault>
    ensures { Equals (λ acts. acts) result (acts_of number (table_view table.now)) }
{
    let bad = PolicyFault::BadField {
        rule: number,
        field: Field::Act,
    };
    let Some(value) = member(table, "act") else {
        return Err(bad);
    };
    if let Some(word) = value.as_str() {
        if word == "*" {
            return Ok(Acts::every());
        }
        return Ok(Acts::none().with(act_at(number, value)?));
    }
    match value.as_array() {
        Some(items) => listed_acts(number, items),
        None => Err(bad),
    }
}

/// The pattern of a rule's channels.
fn channel_of(number: u32, table: &Table) -> Result<Pattern, PolicyFault>
    ensures { Equals (λ pattern. pattern) result (channel_of number (table_view table.now)) }
{
    let bad = PolicyFault::BadField {
        rule: number,
        field: Field::Channel,
    };
    let Some(text) = text_at(table, "channel") else {
        return Err(bad);
    };
    match Pattern::parse(text) {
        Ok(pattern) => Ok(pattern),
        Err(_) => Err(bad),
    }
}

/// The integers of a list that is two integers.
fn two_integers(items: &Array) -> Option<(i64, i64)>
    ensures { result ≡ two_integers (array_view items.now) }
{
    match items.as_slice() {
        [low, high] => Some((low.as_integer()?, high.as_integer()?)),
        _ => None,
    }
}

/// The range from `low` to `high`.
fn range_of(number: u32, low: i64, high: i64) -> Result<(i32, i32), PolicyFault>
    ensures { Equals (λ range. range) result (range_of number low high) }
{
    if -2147483648 <= low && low <= high && high <= 2147483647 {
        return Ok((low as i32, high as i32));
    }
    Err(PolicyFault::BadRange { rule: number })
}

/// The stream ids that a rule speaks of; every one where the rule names none.
fn stream_of(number: u32, table: &Table) -> Result<(i32, i32), PolicyFault>
    ensures { Equals (λ range. range) result (stream_of number (table_view table.now)) }
{
    let bad = PolicyFault::BadField {
        rule: number,
        field: Field::Stream,
    };
    let Some(value) = member(table, "stream") else {
        return Ok((-2147483648, 2147483647));
    };
    let Some(items) = value.as_array() else {
        return Err(bad);
    };
    match two_integers(items) {
        Some((low, high)) => range_of(number, low, high),
        None => Err(bad),
    }
}

/// The bound of a rule's moments at a key; none where the rule names none.
fn bound_at(number: u32, field: Field, table: &Table, key: &str) -> Result<Option<i64>, PolicyFault>
    ensures { Equals (λ bound. bound) result (bound_at number field key.now (table_view table.now)) }
{
    let Some(value) = member(table, key) else {
        return Ok(None);
    };
    match value.as_integer() {
        Some(bound) => Ok(Some(bound)),
        None => Err(PolicyFault::BadField {
            rule: number,
            field,
        }),
    }
}

/// Whether a bound is a moment, if there is one.
fn is_moment(bound: Option<i64>) -> bool
    ensures { result ≡ is_moment bound }
{
    match bound {
        Some(bound) => 0 <= bound,
        None => true,
    }
}

/// Whether a moment lies between the bounds.
fn is_below(from: Option<i64>, until: Option<i64>) -> bool
    ensures { result ≡ is_below from until }
{
    match (from, until) {
        (Some(from), Some(until)) => from < until,
        _ => true,
    }
}

/// The moment that a bound is.
fn moment_of(bound: Option<i64>) -> Option<u64>
    requires { is_moment bound ≡ true }
    ensures { result ≡ moment_of bound }
{
    match bound {
        Some(bound) => Some(bound as u64),
        None => None,
    }
}

/// The bounds of a rule's moments, from the first one to before the other.
fn span_of(
    number: u32,
    from: Option<i64>,
    until: Option<i64>,
) -> Result<(Option<u64>, Option<u64>), PolicyFault>
    ensures { Equals (λ span. span) result (span_of number from until) }
{
    if is_moment(from) && is_moment(until) && is_below(from, until) {
        return Ok((moment_of(from), moment_of(until)));
    }
    Err(PolicyFault::BadRange { rule: number })
}

/// The moments at which a rule stands: the first one, and the one from which on it stands no more; each where the rule
/// names it.
fn moments_of(number: u32, table: &Table) -> Result<(Option<u64>, Option<u64>), PolicyFault>
    ensures { Equals (λ span. span) result (moments_of number (table_view table.now)) }
{
    let from = bound_at(number, Field::From, table, "from")?;
    let until = bound_at(number, Field::Until, table, "until")?;
    span_of(number, from, until)
}

/// Whether each key of the table is one of a rule of that version.
fn has_rule_keys(version: Version, table: &Table) -> bool
    ensures { result ≡ all_keys (is_rule_key version) (table_view table.now) }
{
    match version {
        Version::One => all_known(
            table,
            &["name", "principal", "act", "channel", "stream", "allow"],
        ),
        Version::Two => all_known(
            table,
            &[
                "name",
                "principal",
                "act",
                "channel",
                "stream",
                "from",
                "until",
                "allow",
            ],
        ),
    }
}

/// Whether a rule allows.
fn allow_of(number: u32, table: &Table) -> Result<bool, PolicyFault>
    ensures { Equals (λ allow. allow) result (allow_of number (table_view table.now)) }
{
    match bool_at(table, "allow") {
        Some(allow) => Ok(allow),
        None => Err(PolicyFault::BadField {
            rule: number,
            field: Field::Allow,
        }),
    }
}

/// The rule of this number that a table is.
#[tactic(auto, unfolding(crate::specs::Fields::rule_of))]
pub(crate) fn rule_of(
    version: Version,
    number: u32,
    table: &Table,
    names: &Names,
) -> Result<Rule, PolicyFault>
    ensures { Equals (λ rule. rule) result (rule_of names.now version number (table_view table.now)) }
{
    if !has_rule_keys(version, table) {
        return Err(PolicyFault::BadField {
            rule: number,
            field: Field::Unknown,
        });
    }
    let name = name_of(number, table)?;
    let principals = principal_of(number, table, names)?;
    let acts = acts_of(number, table)?;
    let channel = channel_of(number, table)?;
    let (low, high) = stream_of(number, table)?;
    let (from, until) = moments_of(number, table)?;
    let allow = allow_of(number, table)?;
    Ok(Rule {
        name: ShortText::new(name),
        principals,
        acts,
        channel,
        low,
        high,
        from,
        until,
        allow,
    })
}
