// Who looks at what the agents did: at the registry, and at the logs behind their locks.
ghost use Rattle.log_slots.specs.Counting.{IsCounted};
ghost use Rattle.log_slots.specs.Slots.{IsSlot};
ghost use Rattle.log_traffic.specs.Whole.{HasWhole};
ghost use Rattle.std.specs.Prelude.{IfSome};

use crate::common::Common;
use driver_core::{Registry, View};
use log_slots::{LogSlot, Naming, Slot};
use media_agents::{DriverNaming, LogAt, Slots};
use published_registry::Pass;
use std::alloc::AllocError;
use std::sync::{Arc, Wait};

// Whether the log of a publication is open in the slot, and reaches nowhere yet. A step for number 0, which no log has, finds
// none there. What locked logs promise holds of the slot.
fn has_publication<N: Naming>(slot: &Slot<N>, source: u64) -> bool
    ensures own { IsSlot N.home slot.now.kept.source slot.now.kept.session slot.now.kept.stream slot.now.kept.log }
    ensures whole { IfSome slot.now.kept.log (λ held. HasWhole held.log) }
    ensures counts { IsCounted slot.now }
{
    slot.holds();
    slot.reach(source) == Some(0) && slot.reach(0).is_none()
}

// The same of the log of an image.
fn has_image<N: Naming>(slot: &LogSlot<N>, source: u64) -> bool
    ensures own { IsSlot N.home slot.now.source slot.now.session slot.now.stream slot.now.log }
    ensures whole { IfSome slot.now.log (λ held. HasWhole held.log) }
{
    slot.holds();
    slot.reach(source) == Some(0) && slot.reach(0).is_none()
}

// Whether the log is open in its slot.
fn has_log<N: Naming, R: Wait>(rt: &R, slots: &Slots<N>, at: LogAt) -> bool {
    let slot = at.slot as usize;
    if at.published {
        match slots.publications.get(slot) {
            Some(it) => has_publication(&*it.lock(rt), at.source),
            None => false,
        }
    } else {
        match slots.images.get(slot) {
            Some(it) => has_image(&*it.lock(rt), at.source),
            None => false,
        }
    }
}

// Whether the log of each publication and each image of the registry is open in its slot.
fn has_logs<N: Naming, R: Wait>(rt: &R, slots: &Slots<N>, registry: &Registry) -> bool {
    let mut all = true;
    for row in registry.sources() {
        let at = LogAt::of(row);
        all = all && has_log(rt, slots, at);
    }
    all
}

// How many images the registry has.
fn images_in(registry: &Registry) -> usize {
    let mut images = 0usize;
    for row in registry.sources() {
        if !row.is_published() {
            images = images.saturating_add(1);
        }
    }
    images
}

// What is seen by one look.
#[derive(Clone, Copy, PartialEq, Eq)]
pub struct Sight {
    // The number of the registry.
    pub number: u64,
    // How many images it has.
    pub images: usize,
    // Whether the log of each publication and each image of it is open in its slot.
    pub open: bool,
}

#[derive(Drop)]
pub struct Onlooker<N: DriverNaming> {
    slots: Arc<Slots<N>>,
    pass: Option<Pass>,
}

impl<N: DriverNaming> Onlooker<N> {
    pub fn new(common: &Common<N>, pass: Pass) -> Result<Onlooker<N>, AllocError> {
        let slots = common.slots()?;
        Ok(Onlooker {
            slots,
            pass: Some(pass),
        })
    }

    // What is seen by a look at the newest registry; `None` where there is no look.
    pub fn looks<R: Wait>(&mut self, rt: &R) -> Option<Sight> {
        let pass = self.pass.take()?;
        match pass.enter() {
            Ok(look) => {
                let sight = Sight {
                    number: look.number(),
                    images: images_in(look.registry()),
                    open: has_logs(rt, &self.slots, look.registry()),
                };
                self.pass = Some(look.leave());
                Some(sight)
            }
            Err(pass) => {
                self.pass = Some(pass);
                None
            }
        }
    }
}
