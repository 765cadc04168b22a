ghost use Rattle.policy_text.specs.Members.{all_keys, bool_at, integer_at, text_at, all_items, items_len};
ghost use Rattle.std.specs.List.{list_any};
ghost use Rattle.std.specs.Option.{option_copied, option_map};
ghost use Rattle.std.specs.Prelude.{◌≡◌, map, is_some, length};
ghost use Rattle.std.specs.Str.{bytes_eq};
ghost use Rattle.toml.specs.Data.{as_str, as_table, get_member};
ghost use Rattle.toml.specs.View.{array_view, items_view, table_view, view};

use toml::value::Array;
use toml::{Table, Value};

/// The value of a key.
pub(crate) fn member<'a>(table: &'a Table, key: &str) -> Option<&'a Value>
    ensures { option_map (λ value. view value.now) result ≡ get_member key.now (table_view table.now) }
{
    table.get(key)
}

/// The text at a key.
pub(crate) fn text_at<'a>(table: &'a Table, key: &str) -> Option<&'a str>
    ensures { option_copied result ≡ text_at key.now (table_view table.now) }
{
    match member(table, key) {
        Some(value) => value.as_str(),
        None => None,
    }
}

/// The integer at a key.
pub(crate) fn integer_at(table: &Table, key: &str) -> Option<i64>
    ensures { result ≡ integer_at key.now (table_view table.now) }
{
    match member(table, key) {
        Some(value) => value.as_integer(),
        None => None,
    }
}

/// The truth value at a key.
pub(crate) fn bool_at(table: &Table, key: &str) -> Option<bool>
    ensures { result ≡ bool_at key.now (table_view table.now) }
{
    match member(table, key) {
        Some(value) => value.as_bool(),
        None => None,
    }
}

/// Whether `key` is one of these words.
fn is_known(key: &str, words: &[&str]) -> bool
    ensures { result ≡ list_any (λ word. bytes_eq key.now word.now) words.now }
{
    words.iter().any(|word| key == *word)
}

/// Whether each key of the table is one of these words.
pub(crate) fn all_known(table: &Table, words: &[&str]) -> bool
    ensures { result ≡ all_keys (λ key. list_any (λ word. bytes_eq key word.now) words.now) (table_view table.now) }
{
    for (key, _value) in table.iter() {
        if !is_known(key.as_str(), words) {
            return false;
        }
    }
    true
}

/// Whether each item is a text.
pub(crate) fn all_texts(items: &Array) -> bool
    ensures { result ≡ all_items (λ value. is_some (as_str value)) (array_view items.now) }
{
    for value in items {
        if !value.is_str() {
            return false;
        }
    }
    true
}

/// Whether each item is a table.
pub(crate) fn all_tables(items: &Array) -> bool
    ensures { result ≡ all_items (λ value. is_some (as_table value)) (array_view items.now) }
{
    for value in items {
        if !value.is_table() {
            return false;
        }
    }
    true
}

/// How many items there are.
pub(crate) fn len_of(items: &Array) -> usize
    ensures items { result ≡ items_len (array_view items.now) }
    ensures len { result ≡ length items.now.items }
{
    items.len()
}
