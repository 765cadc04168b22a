ghost use Rattle.channel_uri.specs.Keys.{put, value_at};
ghost use Rattle.channel_uri.specs.Table.{IsIn, IsPlace, IsTable, nothing_stored, pair_in, place_of, placed};
ghost use Rattle.std.specs.List.{AllByRecursion};
ghost use Rattle.std.specs.Prelude.{◌≡◌, ◌+◌, ◌<◌, ◌≤◌, ◌++◌, length, map, option_copied, slice_index_or};

use arrayvec::{ArrayString, ArrayVec};
use std::cmp::Ordering;
use std::marker::Model;
use std::str;

/// Among so many keys at most one is found sooner by going through them than by halving.
const FEW: usize = 8;

/// Where a key and its value stand, one after another.
#[derive(Clone, Copy, Debug, Default)]
pub(crate) struct Span {
    key: u16,
    value: u16,
    end: u16,
}

/// Keys with their values in the byte order of the keys. It lies in the value itself, and takes no memory.
#[derive(Debug, Drop)]
pub(crate) struct Table {
    text: ArrayString<1024>,
    spans: ArrayVec<Span, 342>,
}

impl Model for Table {
    ghost use Rattle.channel_uri.specs.Table.{IsTable, Stored, pair_in};
    ghost use Rattle.std.specs.Prelude.{map};
    ghost use Rattle.arrayvec.specs.ArrayString.{array_string_len};

    ghost Value = { Stored };

    ghost view = { λ table. record {
      pairs = map (pair_in table.text.bytes) table.spans.items;
      used = array_string_len table.text;
    } };

    ghost invariant = { λ table. IsTable table.text.bytes table.spans.items };
}

fn key_in(text: &str, span: Span) -> &str
    requires { IsIn text.now span }
    ensures { result.now ≡ (pair_in text.now span).0 }
{
    unsafe { str::from_utf8_unchecked(&text.as_bytes()[span.key as usize..span.value as usize]) }
}

fn value_in(text: &str, span: Span) -> &str
    requires { IsIn text.now span }
    ensures { result.now ≡ (pair_in text.now span).1 }
{
    unsafe { str::from_utf8_unchecked(&text.as_bytes()[span.value as usize..span.end as usize]) }
}

/// Where the key is, or where it would be.
fn place(text: &str, spans: &[Span], key: &str) -> Result<usize, usize>
    requires { IsTable text.now spans.now }
    ensures place { result ≡ place_of key.now (map (pair_in text.now) spans.now) }
    ensures within { IsPlace result (length spans.now) }
{
    let mut low = 0;
    let mut high = spans.len();
    while low < high {
        let middle = low + (high - low) / 2;
        match key.cmp(key_in(text, spans[middle])) {
            Ordering::Less => high = middle,
            Ordering::Equal => return Ok(middle),
            Ordering::Greater => low = middle + 1,
        }
    }
    Err(low)
}

/// The value of the key, which is compared with one key after the other. A key of another length is passed over at once.
#[inline]
fn first_of<'a>(text: &'a str, spans: &[Span], key: &str) -> Option<&'a str>
    requires { AllByRecursion (IsIn text.now) spans.now }
    ensures { option_copied result ≡ value_at key.now (map (pair_in text.now) spans.now) }
{
    for span in spans {
        if key == key_in(text, *span) {
            return Some(value_in(text, *span));
        }
    }
    None
}

/// Puts a span at this place.
fn write(spans: &mut ArrayVec<Span, 342>, place: Result<usize, usize>, span: Span)
    requires within { IsPlace place (length spans.old.items) }
    requires room { length spans.old.items < 342 }
    ensures { spans.new.items ≡ placed place spans.old.items span }
{
    match place {
        Ok(at) => spans[at] = span,
        Err(at) => spans.insert(at, span),
    }
}

impl Table {
    /// No keys.
    pub(crate) fn new() -> Table
        ensures { result ≡ nothing_stored }
    {
        Table {
            text: ArrayString::new(),
            spans: ArrayVec::new(),
        }
    }

    /// Takes all keys away.
    pub(crate) fn clear(&mut self)
        ensures { self.new ≡ nothing_stored }
    {
        self.text.clear();
        self.spans.clear();
    }

    pub(crate) fn len(&self) -> usize
        ensures { result ≡ length self.now.pairs }
    {
        self.spans.len()
    }

    /// The key and the value at this place.
    pub(crate) fn at(&self, at: usize) -> (&str, &str)
        requires { at < length self.now.pairs }
        ensures { (result.0.now, result.1.now) ≡ slice_index_or self.now.pairs at (result.0.now, result.1.now) }
    {
        let text = self.text.as_str();
        let span = self.spans.as_slice()[at];
        (key_in(text, span), value_in(text, span))
    }

    /// The value of `key`.
    pub(crate) fn get(&self, key: &str) -> Option<&str>
        ensures { option_copied result ≡ value_at key.now self.now.pairs }
    {
        let text = self.text.as_str();
        let spans = self.spans.as_slice();
        if spans.len() <= FEW {
            return first_of(text, spans, key);
        }
        match place(text, spans, key) {
            Ok(at) => Some(value_in(text, spans[at])),
            Err(_) => None,
        }
    }

    /// Gives `key` a value, that is `head` and then `rest`, in place of an earlier one.
    pub(crate) fn put(&mut self, key: &str, head: &str, rest: &str)
        requires text_fits { self.old.used + (length key.now + (length head.now + length rest.now)) ≤ 1024 }
        requires span_fits { length self.old.pairs < 342 }
        ensures pairs { self.new.pairs ≡ put self.old.pairs (key.now, head.now ++ rest.now) }
        ensures used { self.new.used ≡ self.old.used + (length key.now + (length head.now + length rest.now)) }
    {
        let place = place(self.text.as_str(), self.spans.as_slice(), key);
        let start = self.text.len();
        self.text.push_str(key);
        let middle = self.text.len();
        self.text.push_str(head);
        self.text.push_str(rest);
        let end = self.text.len();
        let span = Span {
            key: start as u16,
            value: middle as u16,
            end: end as u16,
        };
        write(&mut self.spans, place, span);
    }

    /// Takes the keys of another table in place of its own.
    pub(crate) fn set_from(&mut self, other: &Table)
        ensures { self.new ≡ other.now }
    {
        self.text.clear();
        self.text.push_str(other.text.as_str());
        self.spans.clear();
        match self.spans.try_extend_from_slice(other.spans.as_slice()) {
            Ok(()) => {}
            Err(_) => unreachable!(),
        }
    }
}
