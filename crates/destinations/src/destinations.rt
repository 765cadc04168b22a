ghost use Rattle.destinations.specs.Destinations.{has, is_at, is_of, is_of_others, is_other};
ghost use Rattle.destinations.specs.declared.fault.DestinationFault.TheVariants.{Conflict};
ghost use Rattle.std.specs.List.{list_any};
ghost use Rattle.std.specs.Prelude.{◌≡◌, ◌↔◌, IfErr, IfOk, IsOk, OnErr, OnOk, filter, length, not, true};

use crate::destination::{Destination, NewDestination};
use crate::fault::DestinationFault;
use channel_uri::{Address, Channel};
use rows::{Rows, Test};
use std::alloc::{AllocError, Global};
use std::marker::Model;

/// How many destinations there are at most: 32 for each of 256 logs.
const DESTINATIONS: usize = 8192;

/// How many destinations a log has at most.
const OF_A_LOG: usize = 32;

/// The destinations of all logs, in the order in which they were named, in room that is there from the beginning.
#[derive(Debug, Drop)]
pub struct Destinations {
    rows: Rows<Destination, 8192>,
    /// The number that was given last; 0 at first.
    last: u64,
}

impl Model for Destinations {
    ghost use Rattle.destinations.specs.Destinations.{DestinationList};
    ghost use Rattle.destinations.specs.Laws.{AreOrderly};

    ghost Value = { DestinationList };

    ghost view = { λ destinations. record { rows = destinations.rows; last = destinations.last } };

    ghost invariant = { λ destinations. AreOrderly destinations.last destinations.rows };
}

/// Whether a destination is the address of that log.
fn is_at(destination: &Destination, source: u64, address: &Address) -> bool
    ensures { result ≡ is_at source address.now destination.now }
{
    destination.source == source && destination.address == *address
}

/// Whether a destination is another than the address of that log.
#[derive(Clone, Copy)]
struct Other {
    source: u64,
    address: Address,
}

impl Test<Destination> for Other {
    ghost keeps = { λ other destination. is_other other.source other.address destination };

    fn keeps(&self, destination: &Destination) -> bool {
        !is_at(destination, self.source, &self.address)
    }
}

/// Whether a destination is of none of these logs.
#[derive(Clone, Copy)]
struct OfOthers<'a> {
    sources: &'a [u64],
}

impl Test<Destination> for OfOthers<'_> {
    ghost keeps = { λ others destination. is_of_others others.sources.now destination };

    fn keeps(&self, destination: &Destination) -> bool {
        !self.sources.contains(&destination.source)
    }
}

impl Destinations {
    ghost use Rattle.destinations.specs.Destinations.{added, adding, cleared, none, of, without, without_sources};

    /// There are no destinations. The room for all that may come is taken here.
    pub fn new(alloc: Global) -> Result<Destinations, AllocError>
        ensures { IfOk result (λ destinations. destinations ≡ none) }
    {
        Ok(Destinations {
            rows: Rows::new(alloc)?,
            last: 0,
        })
    }

    /// Another table, equal to this one.
    pub fn copy(&self, alloc: Global) -> Result<Destinations, AllocError>
        ensures { IfOk result (λ copy. copy ≡ self.now) }
    {
        Ok(Destinations {
            rows: self.rows.copy(alloc)?,
            last: self.last,
        })
    }

    /// Becomes equal to another table.
    pub fn set_from(&mut self, other: &Destinations)
        ensures { self.new ≡ other.now }
    {
        self.rows.set_from(&other.rows);
        self.last = other.last;
    }

    /// The destinations of all logs, by their numbers.
    pub fn rows(&self) -> &[Destination]
        ensures { result.now ≡ self.now.rows }
    {
        self.rows.as_slice()
    }

    /// How many destinations the log has.
    fn count(&self, source: u64) -> usize
        ensures { result ≡ length (of self.now.rows source) }
    {
        self.rows
            .as_slice()
            .iter()
            .filter(|destination| destination.source == source)
            .count()
    }

    /// Whether the address is a destination of the log.
    pub fn has(&self, source: u64, address: &Address) -> bool
        ensures { result ≡ has self.now.rows source address.now }
    {
        for destination in self.rows.as_slice() {
            if is_at(destination, source, address) {
                return true;
            }
        }
        false
    }

    /// The number that the address would be given as a destination of the log.
    ///
    /// # Errors
    /// [`DestinationFault::Conflict`] where it is one already; then [`DestinationFault::Full`] where the log has 32, or
    /// there are 8,192 in all, or no number is left.
    #[tactic(auto, unfolding(crate::specs::Destinations::adding))]
    pub fn adding(&self, source: u64, address: &Address) -> Result<u64, DestinationFault>
        ensures { result ≡ adding self.now source address.now }
    {
        if self.has(source, address) {
            return Err(DestinationFault::Conflict);
        }
        if self.count(source) >= OF_A_LOG {
            return Err(DestinationFault::Full);
        }
        if self.rows.len() >= DESTINATIONS || self.last == u64::MAX {
            return Err(DestinationFault::Full);
        }
        Ok(self.last + 1)
    }

    /// The address becomes a destination of the log, named for the principal by this channel. It is given the next number.
    ///
    /// # Errors
    /// Those of [`Destinations::adding`]; nothing is changed then.
    #[tactic(auto, unfolding(crate::specs::Destinations::adding, crate::specs::Destinations::added))]
    pub fn add(
        &mut self,
        source: u64,
        address: &Address,
        principal: u32,
        channel: &Channel,
    ) -> Result<u64, DestinationFault>
        ensures answer { result ≡ adding self.old source address.now }
        ensures added { OnOk result (self.new ≡ added self.old source address.now principal channel.now) }
        ensures err { OnErr result (self.new ≡ self.old) }
    {
        let number = self.adding(source, address)?;
        self.last = number;
        self.rows.push_by(&NewDestination {
            number,
            source,
            address: *address,
            principal,
            channel,
        });
        Ok(number)
    }

    /// The address is no destination of the log any more. Its number is not given again.
    ///
    /// # Errors
    /// [`DestinationFault::Conflict`] where it is none; nothing is changed then.
    #[tactic(auto, unfolding(crate::specs::Destinations::without))]
    pub fn remove(&mut self, source: u64, address: &Address) -> Result<(), DestinationFault>
        ensures known { IsOk result ↔ (has self.old.rows source address.now ≡ true) }
        ensures unknown { IfErr result (λ fault. fault ≡ Conflict) }
        ensures gone { OnOk result (self.new ≡ without self.old source address.now) }
        ensures err { OnErr result (self.new ≡ self.old) }
    {
        if !self.has(source, address) {
            return Err(DestinationFault::Conflict);
        }
        self.rows.retain(&Other {
            source,
            address: *address,
        });
        Ok(())
    }

    /// The destinations of these logs go, as the logs close.
    #[tactic(auto, unfolding(crate::specs::Destinations::without_sources))]
    pub fn remove_of_sources(&mut self, sources: &[u64])
        ensures { self.new ≡ without_sources self.old sources.now }
    {
        self.rows.retain(&OfOthers { sources });
    }

    /// All destinations go.
    pub fn clear(&mut self)
        ensures { self.new ≡ cleared self.old }
    {
        self.rows.clear();
    }
}
