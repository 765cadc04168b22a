//! Images that no subscription reads go with the event that takes their last pair.

ghost use Rattle.driver_core.specs.Change.{Change};
ghost use Rattle.driver_core.specs.Renewal.{come_to, gone_from};
ghost use Rattle.driver_core.specs.Unread.{are_all_read, closed_from, without_unread};
ghost use Rattle.std.specs.Prelude.{◌≡◌, IfOk};

use crate::state::outcome::Outcome;
use crate::state::registry::Registry;
use byte_strings::Items;
use std::alloc::{AllocError, Global};
use stream_registry::LogPlace;

impl Registry {
    /// Whether each image has a pair. It takes no memory.
    #[inline(always)]
    pub(crate) fn are_all_read(&self) -> bool
        ensures { result ≡ are_all_read self.now }
    {
        self.all_read || self.readers.are_all_read(&self.streams)
    }

    /// The logs that close with an event, by what its own rule reports: those that it closes, and the images of which no
    /// pair is left.
    #[inline(always)]
    pub(crate) fn closed(
        &self,
        alloc: Global,
        outcome: &Outcome,
    ) -> Result<Items<LogPlace>, AllocError>
        ensures { (change : Change) → change.outcome ≡ outcome.now → outcome.now.gone ≡ gone_from self.now change.after → outcome.now.come ≡ come_to self.now change.after → IfOk result (λ places. places ≡ closed_from self.now change) }
    {
        if self.all_read && outcome.closes.is_empty() && outcome.gone.is_empty() {
            return Ok(Items::new(alloc));
        }
        self.readers.closed(
            alloc,
            &self.streams,
            outcome.closes.as_slice(),
            outcome.gone.as_slice(),
            outcome.come.as_slice(),
        )
    }

    /// The images go that no subscription reads.
    pub(crate) fn drop_unread(&mut self)
        ensures { self.new ≡ without_unread self.old }
    {
        if self.all_read {
            return;
        }
        self.drop_all_unread();
    }

    /// The images go that no subscription reads, which are looked for. Mostly there is none.
    fn drop_all_unread(&mut self)
        ensures { self.new ≡ without_unread self.old }
    {
        if self.readers.are_all_read(&self.streams) {
            self.all_read = true;
            return;
        }
        self.drop_unread_ones();
    }

    /// The images go that no subscription reads. It is a call of its own, since there is room in it for the numbers of as many as
    /// there may be.
    #[tactic(auto, unfolding(crate::specs::Unread::without_unread))]
    #[inline(never)]
    fn drop_unread_ones(&mut self)
        ensures { self.new ≡ without_unread self.old }
    {
        let numbers = self.readers.unread(&self.streams);
        self.all_read = false;
        self.readers
            .remove_images(&self.streams, numbers.as_slice());
        self.streams.remove_images(numbers.as_slice());
    }
}
