//! How many datagrams were dropped, as threads share it.

use crate::cause::Cause;
use crate::kind::Kind;
use std::fmt;
use std::sync::atomic::{AtomicU64, Ordering};

/// How many datagrams were dropped.
#[derive(Clone, Copy, Debug, Default, PartialEq, Eq)]
pub struct Dropped {
    /// From addresses that nobody bound, by their kind.
    pub setups: u64,
    pub data: u64,
    pub status: u64,
    pub naks: u64,
    pub others: u64,
    /// NAKs of bound addresses for more than a window.
    pub too_much: u64,
    /// NAKs and status messages of bound addresses beyond what one may send in the time.
    pub too_often: u64,
}

impl Dropped {
    /// Whether any were.
    pub fn is_any(&self) -> bool {
        *self != Dropped::default()
    }
}

impl fmt::Display for Dropped {
    fn fmt<W: fmt::Write>(&self, f: &mut fmt::Formatter<W>) -> fmt::Result {
        let Dropped {
            setups,
            data,
            status,
            naks,
            others,
            too_much,
            too_often,
        } = self;
        write!(
            f,
            "dropped setups {setups} data {data} status {status} naks {naks} others {others} too-much {too_much} too-often {too_often}"
        )
    }
}

/// The same numbers, while they are counted.
#[derive(Drop)]
pub struct Drops {
    setups: AtomicU64,
    data: AtomicU64,
    status: AtomicU64,
    naks: AtomicU64,
    others: AtomicU64,
    too_much: AtomicU64,
    too_often: AtomicU64,
}

impl Drops {
    pub fn new() -> Drops {
        Drops {
            setups: AtomicU64::new(0),
            data: AtomicU64::new(0),
            status: AtomicU64::new(0),
            naks: AtomicU64::new(0),
            others: AtomicU64::new(0),
            too_much: AtomicU64::new(0),
            too_often: AtomicU64::new(0),
        }
    }

    /// The number of those that are dropped for this cause.
    fn number(&self, cause: Cause) -> &AtomicU64 {
        match cause {
            Cause::Stranger(Kind::Setup) => &self.setups,
            Cause::Stranger(Kind::Data) => &self.data,
            Cause::Stranger(Kind::Status) => &self.status,
            Cause::Stranger(Kind::Nak) => &self.naks,
            Cause::Stranger(Kind::Other) => &self.others,
            Cause::TooMuch => &self.too_much,
            Cause::TooOften(_) => &self.too_often,
        }
    }

    /// One more is dropped.
    pub(crate) fn note(&self, cause: Cause) {
        self.number(cause).fetch_add(1, Ordering::SeqCst);
    }

    /// How many were dropped so far.
    pub fn dropped(&self) -> Dropped {
        Dropped {
            setups: self.setups.load(Ordering::SeqCst),
            data: self.data.load(Ordering::SeqCst),
            status: self.status.load(Ordering::SeqCst),
            naks: self.naks.load(Ordering::SeqCst),
            others: self.others.load(Ordering::SeqCst),
            too_much: self.too_much.load(Ordering::SeqCst),
            too_often: self.too_often.load(Ordering::SeqCst),
        }
    }
}
