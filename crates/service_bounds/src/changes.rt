//! What commands and replies make of rows.

ghost use Rattle.service_bounds.specs.Changes.{is_asked, is_asked_by, is_of, is_removed, left, lingering, names, refused_rows, removed, removed_rows, standing, was_not_asked};
ghost use Rattle.service_bounds.specs.Counts.{counted};
ghost use Rattle.std.specs.Prelude.{◌≡◌, filter, map};

use crate::row::{Kind, Removal, Row, Sort};

/// Whether that command asked for it, and is not answered.
fn is_asked_by(row: Row, client: u64, correlation: u64) -> bool
    ensures { result ≡ is_asked_by client correlation row }
{
    row.client == client && row.registration.is_none() && row.correlation == correlation
}

/// Whether a number stands there.
fn names(stands: Option<u64>, number: u64) -> bool
    ensures { result ≡ names stands number }
{
    match stands {
        Some(n) => n == number,
        None => false,
    }
}

/// Whether it is of that sort.
fn is_of(kind: Kind, sort: Sort) -> bool
    ensures { result ≡ is_of sort kind }
{
    match (sort, kind) {
        (Sort::Publication, Kind::Publication { .. }) => true,
        (Sort::Subscription, Kind::Subscription) => true,
        (Sort::Counter, Kind::Counter) => true,
        _ => false,
    }
}

/// Whether that removes it.
fn is_removed(row: Row, client: u64, removal: Removal) -> bool
    ensures { result ≡ is_removed client removal row }
{
    row.client == client
        && names(row.registration, removal.registration)
        && is_of(row.kind, removal.sort)
}

/// It counts until it has lingered, and is no client's from now on.
fn lingering(row: Row, now: u64) -> Row
    ensures { result ≡ lingering now row }
{
    Row {
        until: Some(now.saturating_add(row.linger)),
        client: 0,
        ..row
    }
}

/// It has its registration.
fn standing(row: Row, client: u64, correlation: u64, registration: u64) -> Row
    ensures { result ≡ standing client correlation registration row }
{
    if is_asked_by(row, client, correlation) {
        Row {
            registration: Some(registration),
            ..row
        }
    } else {
        row
    }
}

/// It was removed.
fn removed(row: Row, now: u64, client: u64, removal: Removal) -> Row
    ensures { result ≡ removed now client removal row }
{
    if is_removed(row, client, removal) {
        lingering(row, now)
    } else {
        row
    }
}

/// Its client is gone.
fn left(row: Row, now: u64, client: u64) -> Row
    ensures { result ≡ left now client row }
{
    if row.client == client {
        lingering(row, now)
    } else {
        row
    }
}

/// What lingered long enough counts no more.
pub(crate) fn let_go(rows: &mut Vec<Row>, now: u64)
    ensures { rows.new.items ≡ counted now rows.old.items }
{
    rows.retain(|row| match row.until {
        Some(end) => now < end,
        None => true,
    });
}

/// What that command asked for is not there.
pub(crate) fn take_back(rows: &mut Vec<Row>, client: u64, correlation: u64)
    ensures { rows.new.items ≡ refused_rows client correlation rows.old.items }
{
    rows.retain(|row| !is_asked_by(*row, client, correlation));
}

/// Whether something was asked for by a command with that correlation id that is not answered.
pub(crate) fn is_asked(rows: &[Row], client: u64, correlation: u64) -> bool
    ensures { result ≡ is_asked client correlation rows.now }
{
    for row in rows {
        if is_asked_by(*row, client, correlation) {
            return true;
        }
    }
    false
}

/// What that command asked for has its registration.
fn register_each(rows: &mut [Row], client: u64, correlation: u64, registration: u64)
    ensures { rows.new ≡ map (standing client correlation registration) rows.old }
{
    for row in rows.iter_mut() {
        *row = standing(*row, client, correlation, registration);
    }
}

/// What that removes is removed.
fn remove_each(rows: &mut [Row], now: u64, client: u64, removal: Removal)
    ensures { rows.new ≡ map (removed now client removal) rows.old }
{
    for row in rows.iter_mut() {
        *row = removed(*row, now, client, removal);
    }
}

/// All of a client is removed.
fn remove_all_each(rows: &mut [Row], now: u64, client: u64)
    ensures { rows.new ≡ map (left now client) rows.old }
{
    for row in rows.iter_mut() {
        *row = left(*row, now, client);
    }
}

/// What that command asked for has its registration.
pub(crate) fn register(rows: &mut Vec<Row>, client: u64, correlation: u64, registration: u64)
    ensures { rows.new.items ≡ map (standing client correlation registration) rows.old.items }
{
    register_each(rows.as_mut_slice(), client, correlation, registration);
}

/// What was to be removed is not there.
pub(crate) fn remove(rows: &mut Vec<Row>, now: u64, client: u64, removal: Option<Removal>)
    ensures { rows.new.items ≡ removed_rows now client removal rows.old.items }
{
    if let Some(removal) = removal {
        remove_each(rows.as_mut_slice(), now, client, removal);
    }
}

/// All of a client is removed.
pub(crate) fn remove_all(rows: &mut Vec<Row>, now: u64, client: u64)
    ensures { rows.new.items ≡ map (left now client) rows.old.items }
{
    remove_all_each(rows.as_mut_slice(), now, client);
}
