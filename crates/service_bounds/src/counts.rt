//! How much rows count.

ghost use Rattle.service_bounds.specs.Counts.{AreSums, held, one_counter, one_publication, one_subscription, own_rows, passed};
ghost use Rattle.std.specs.Prelude.{◌≡◌};

use crate::bounds::{Bound, Bounds};
use crate::row::{Kind, Row};

/// How much rows count together.
#[derive(Clone, Copy)]
pub(crate) struct Sums {
    publications: u64,
    /// Of 4,096 bytes.
    pages: u128,
    subscriptions: u64,
    counters: u64,
}

/// How much rows count.
pub(crate) fn summed(rows: &[Row]) -> Sums
    ensures { AreSums result rows.now }
{
    let mut sums = Sums {
        publications: 0,
        pages: 0,
        subscriptions: 0,
        counters: 0,
    };
    for row in rows {
        match row.kind {
            Kind::Publication { pages } => {
                sums.publications += 1;
                sums.pages += u128::from(pages);
            }
            Kind::Subscription => sums.subscriptions += 1,
            Kind::Counter => sums.counters += 1,
        }
    }
    sums
}

/// Which bound the rows would pass with one more.
pub(crate) fn passed_with(bounds: Bounds, rows: &[Row], kind: Kind) -> Option<Bound>
    ensures { result ≡ passed bounds rows.now kind }
{
    let sums = summed(rows);
    match kind {
        Kind::Publication { pages } => {
            if bounds.publications <= sums.publications {
                Some(Bound::Publications)
            } else if u128::from(bounds.pages) < sums.pages + u128::from(pages) {
                Some(Bound::Pages)
            } else {
                None
            }
        }
        Kind::Subscription if bounds.subscriptions <= sums.subscriptions => {
            Some(Bound::Subscriptions)
        }
        Kind::Counter if bounds.counters <= sums.counters => Some(Bound::Counters),
        _ => None,
    }
}

/// How many publications, subscriptions and counters a client has.
pub(crate) fn counts_among(rows: &[Row], client: u64) -> (u64, u64, u64)
    ensures { result ≡ (held one_publication (own_rows client rows.now), held one_subscription (own_rows client rows.now), held one_counter (own_rows client rows.now)) }
{
    let mut counts = (0u64, 0u64, 0u64);
    for row in rows {
        if row.client == client && row.until.is_none() {
            match row.kind {
                Kind::Publication { .. } => counts.0 += 1,
                Kind::Subscription => counts.1 += 1,
                Kind::Counter => counts.2 += 1,
            }
        }
    }
    counts
}
