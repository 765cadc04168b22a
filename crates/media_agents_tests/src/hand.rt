// What is turned by hand beside the conductor: the sender and the receiver. By the same hand events are pushed.
use crate::commands::{attaches, publishes, subscribes};
use crate::common::{Common, Open};
use crate::onlooker::{Onlooker, Sight};
use command_queue::Sender;
use driver_core::{Address, Event};
use media_agents::{
    Bells, DriverNaming, ElicitFault, Elicitation, Elicitations, Elicited, EventSender,
    ReceiverAgent, SenderAgent, Steps, make_elicitations,
};
use media_wire::Wire;
use published_registry::Pass;
use std::alloc::{AllocError, Global};
use std::sync::{Arc, Wait};

// By what the agents reach the conductor and its registry: passes for looks, and ends of the queue.
#[derive(Drop)]
pub struct Ends {
    pub passes: Vec<Pass>,
    pub senders: Vec<Sender<Event>>,
}

impl Ends {
    // A pass that was not given yet.
    fn pass(&mut self) -> Result<Pass, AllocError> {
        self.passes.pop().ok_or(AllocError)
    }

    // An end of the queue that was not given yet. Nobody sleeps who would have to be woken.
    fn sender(&mut self, alloc: Global) -> Result<EventSender, AllocError> {
        let sender = self.senders.pop().ok_or(AllocError)?;
        let bells = Arc::new(alloc, Bells::new()).map_err(|_| AllocError)?;
        Ok(EventSender::new(sender, bells))
    }
}

// The sender of a driver.
fn sender<N: DriverNaming>(
    alloc: Global,
    common: &Common<N>,
    local: Address,
    pass: Pass,
) -> Result<SenderAgent<Steps<N>, Open>, AllocError> {
    let steps = Steps::new(common.slots()?);
    let gate = common.gate()?;
    SenderAgent::new(alloc, steps, gate, pass, local)
}

// The receiver of a driver.
fn receiver<N: DriverNaming>(
    alloc: Global,
    common: &Common<N>,
    ends: &mut Ends,
    elicited: Elicited,
) -> Result<ReceiverAgent<Steps<N>, Open>, AllocError> {
    let pass = ends.pass()?;
    let queue = ends.sender(alloc)?;
    let steps = Steps::new(common.slots()?);
    let gate = common.gate()?;
    ReceiverAgent::new(alloc, steps, gate, pass, queue, elicited)
}

#[derive(Drop)]
pub struct Hand<N: DriverNaming> {
    sender: SenderAgent<Steps<N>, Open>,
    receiver: ReceiverAgent<Steps<N>, Open>,
    queue: EventSender,
    elicitations: Elicitations,
    onlooker: Onlooker<N>,
}

impl<N: DriverNaming> Hand<N> {
    // It takes three passes and two ends of the queue.
    pub fn new(
        alloc: Global,
        common: &Common<N>,
        local: Address,
        ends: &mut Ends,
    ) -> Result<Hand<N>, AllocError> {
        let sender = sender(alloc, common, local, ends.pass()?)?;
        let (elicitations, elicited) = make_elicitations(alloc)?;
        let receiver = receiver(alloc, common, ends, elicited)?;
        let onlooker = Onlooker::new(common, ends.pass()?)?;
        Ok(Hand {
            sender,
            receiver,
            queue: ends.sender(alloc)?,
            elicitations,
            onlooker,
        })
    }

    // An event goes into the queue, where that is not full. Whether it does.
    pub fn tries_to_push<R: Wait>(&mut self, rt: &R, event: Event) -> bool {
        self.queue.push(rt, event).is_ok()
    }

    // The same.
    pub fn push<R: Wait>(&mut self, rt: &R, event: Event) {
        let _ = self.tries_to_push(rt, event);
    }

    // The client subscribes to three streams.
    fn push_subscriptions<R: Wait>(&mut self, rt: &R, alloc: Global) -> Result<(), AllocError> {
        for stream in 10..13 {
            let event = subscribes(alloc, stream)?;
            self.push(rt, event);
        }
        Ok(())
    }

    // The client publishes these.
    fn push_publications<R: Wait>(&mut self, rt: &R, alloc: Global) -> Result<(), AllocError> {
        for stream in 10..13 {
            let event = publishes(alloc, stream)?;
            self.push(rt, event);
        }
        Ok(())
    }

    // A client attaches, subscribes to three streams and publishes these.
    pub fn push_all<R: Wait>(&mut self, rt: &R, alloc: Global) -> Result<(), AllocError> {
        self.push(rt, attaches());
        self.push_subscriptions(rt, alloc)?;
        self.push_publications(rt, alloc)
    }

    // The receiver is to elicit one more.
    pub fn elicit(&mut self, elicitation: Elicitation) -> Result<(), ElicitFault> {
        self.elicitations.add(elicitation)
    }

    // What is seen by a look at the newest registry; `None` where there is no look.
    pub fn looks<R: Wait>(&mut self, rt: &R) -> Option<Sight> {
        self.onlooker.looks(rt)
    }

    // The sender has a turn.
    pub fn sends<R: Wait, W: Wire>(&mut self, rt: &R, wire: &mut W, now: u64) {
        self.sender.turn(rt, wire, now);
    }

    // The receiver has a turn.
    pub fn receives<R: Wait, W: Wire>(&mut self, rt: &R, wire: &mut W, now: u64) {
        self.receiver.turn(rt, wire, now);
    }
}
