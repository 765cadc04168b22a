ghost use Rattle.channel_uri.specs.Fault.{Equals};
ghost use Rattle.channel_uri.specs.Keys.{value_at};
ghost use Rattle.channel_uri.specs.Syntax.{keys_of};
ghost use Rattle.std.specs.Option.{option_copied};
ghost use Rattle.std.specs.Prelude.{◌≡◌, ◌+◌, ◌<◌, ◌≤◌, [], ◌∷◌, IfSome, length, slice_index_or};

use crate::error::UriError;
use crate::syntax;
use crate::table::Table;
use std::marker::Model;

/// The keys of a channel or a pattern with their values, in the byte order of the keys. They lie in the value itself.
#[derive(Debug, Drop)]
pub struct Keys {
    table: Table,
}

impl Model for Keys {
    ghost use Rattle.channel_uri.specs.Keys.{Pair};
    ghost use Rattle.std.specs.Prelude.{List, ℕ};

    ghost Value = { List (List ℕ × List ℕ) };

    ghost view = { λ keys. keys.table.pairs };
}

impl Keys {
    /// No keys.
    pub fn new() -> Keys
        ensures { result ≡ [] }
    {
        Keys {
            table: Table::new(),
        }
    }

    /// The keys of a table.
    pub(crate) fn of(table: Table) -> Keys
        ensures { result ≡ table.pairs }
    {
        Keys { table }
    }

    /// One key with its value.
    pub(crate) fn one(key: &str, value: &str) -> Keys
        requires { length key.now + length value.now ≤ 1024 }
        ensures { result ≡ (key.now, value.now) ∷ [] }
    {
        let mut table = Table::new();
        table.put(key, "", value);
        Keys { table }
    }

    /// Takes the keys of the text after the `?` in place of its own; none where there is no `?`. It takes no memory.
    pub(crate) fn read(&mut self, text: Option<&str>) -> Result<(), UriError>
        requires { IfSome text (λ some. length some.now ≤ 1024) }
        ensures { Equals (λ _. self.new) result (keys_of (option_copied text.entry)) }
    {
        self.table.clear();
        syntax::put_keys(&mut self.table, text)
    }

    /// The value of `key`.
    pub fn get(&self, key: &str) -> Option<&str>
        ensures { option_copied result ≡ value_at key.now self.now }
    {
        self.table.get(key)
    }

    /// Takes the keys of another in place of its own. It takes no memory.
    pub fn set_from(&mut self, other: &Keys)
        ensures { self.new ≡ other.now }
    {
        self.table.set_from(&other.table);
    }

    /// Other keys, with the same values. They take no memory.
    pub fn copy(&self) -> Keys
        ensures { result ≡ self.now }
    {
        let mut table = Table::new();
        table.set_from(&self.table);
        Keys { table }
    }

    /// How many keys there are.
    pub(crate) fn len(&self) -> usize
        ensures { result ≡ length self.now }
    {
        self.table.len()
    }

    /// A key with its value, counted in byte order.
    pub(crate) fn at(&self, at: usize) -> (&str, &str)
        requires { at < length self.now }
        ensures { (result.0.now, result.1.now) ≡ slice_index_or self.now at (result.0.now, result.1.now) }
    {
        self.table.at(at)
    }
}
