ghost use Rattle.driver_core.specs.PublicationRequests.{log_decision};
ghost use Rattle.driver_core.specs.SendRequests.{first_number, learnt_outlet, outlet_of, outlets_by, sent_at};
ghost use Rattle.destinations.specs.Destinations.{of};
ghost use Rattle.learnt_addresses.specs.LearntAddresses.{standing};
ghost use Rattle.policy_core.specs.declared.act.Act.TheVariants.{Send};
ghost use Rattle.std.specs.Prelude.{◌≡◌, ◌++◌, map, Some, OnOk, option_copied};

use crate::asked::publication_request::principal_at;
use crate::rules::directing::{is_dynamic, is_manual};
use crate::state::registry::Registry;
use byte_strings::Items;
use channel_uri::{Address, Channel, Media};
use destinations::Destination;
use learnt_addresses::LearntAddress;
use policy_core::{Act, Decision};
use std::alloc::AllocError;
use stream_registry::LogRow;

/// Where a datagram of a publication goes, and whether it may.
#[derive(Clone, Copy, Debug, PartialEq, Eq)]
pub struct Outlet {
    pub to: Address,
    /// What the policy in force says of sending there, on the destination of that number.
    pub decision: Decision,
}

impl Registry {
    /// The publication over datagrams of this number. It takes no memory.
    #[tactic(auto, unfolding(crate::specs::SendRequests::sent_at))]
    pub fn sending(&self, source: u64) -> Option<&LogRow>
        ensures { option_copied result ≡ sent_at self.now source }
    {
        let log = self.source(source)?;
        if log.is_published() && log.channel.media() == Media::Udp {
            Some(log)
        } else {
            None
        }
    }

    /// What the policy in force says of sending a datagram of the log to a destination of that channel.
    fn send_decision(&self, log: &LogRow, destination: &Destination, channel: &Channel) -> Decision
        ensures { result ≡ log_decision self.now destination.now.principal Send destination.now.number channel.now log.now.stream }
    {
        self.log_decision(
            destination.principal,
            Act::Send,
            destination.number,
            channel,
            log.stream,
        )
    }

    /// Where a datagram of the log goes, and whether it may: the policy is asked about the channel by which the destination was
    /// named by hand, or else about the log's own.
    fn outlet(&self, log: &LogRow, destination: &Destination) -> Outlet
        ensures { result ≡ outlet_of self.now log.now destination.now }
    {
        let channel = if is_manual(&log.channel) {
            &destination.channel
        } else {
            &log.channel
        };
        let decision = self.send_decision(log, destination, channel);
        Outlet {
            to: destination.address,
            decision,
        }
    }

    /// The number of the first destination of the log of that number, 0 where it has none.
    fn first_number(&self, source: u64) -> u64
        ensures { result ≡ first_number (of self.now.destinations.rows source) }
    {
        for destination in self.destinations.rows() {
            if destination.source == source {
                return destination.number;
            }
        }
        0
    }

    /// Where a datagram of the log goes that goes to an address which was learnt, and whether it may: the policy is asked about
    /// the principal that is bound to the address, on the log's own channel.
    fn learnt_outlet(&self, log: &LogRow, number: u64, learnt: &LearntAddress) -> Outlet
        requires { number ≡ first_number (of self.now.destinations.rows log.now.number) }
        ensures { result ≡ learnt_outlet self.now log.now learnt.now }
    {
        let principal = principal_at(self.peers.as_slice(), &learnt.address);
        Outlet {
            to: learnt.address,
            decision: self.log_decision(principal, Act::Send, number, &log.channel, log.stream),
        }
    }

    /// Where the datagrams of this publication go, which learns where, and whether they may. An address of which nothing was
    /// heard for longer than the timeout is left out.
    fn learnt_outlets(
        &self,
        log: &LogRow,
        learnt: &[LearntAddress],
        now: u64,
        outlets: &mut Items<Outlet>,
    ) -> Result<(), AllocError>
        ensures { OnOk result (outlets.new ≡ outlets.old ++ map (learnt_outlet self.now log.now) (standing now self.now.settings.destination_timeout learnt.now)) }
    {
        let number = self.first_number(log.number);
        let timeout = self.settings.destination_timeout;
        for address in learnt {
            if address.stands(now, timeout) {
                outlets.push(self.learnt_outlet(log, number, address))?;
            }
        }
        Ok(())
    }

    /// Where the datagrams of this publication go, in the order in which its destinations were named, or in which they were
    /// learnt, and whether they may: these stand after what was in the list. `learnt` are the addresses that its log has learnt,
    /// of which those are left out that are past the timeout at the moment `now`.
    ///
    /// # Errors
    /// Where there is no memory for the list.
    #[inline(always)]
    pub fn outlets(
        &self,
        log: &LogRow,
        learnt: &[LearntAddress],
        now: u64,
        outlets: &mut Items<Outlet>,
    ) -> Result<(), AllocError>
        ensures { OnOk result (outlets.new ≡ outlets.old ++ outlets_by self.now (standing now self.now.settings.destination_timeout learnt.now) (Some log.now)) }
    {
        if is_dynamic(&log.channel) {
            return self.learnt_outlets(log, learnt, now, outlets);
        }
        for destination in self.destinations.rows() {
            if destination.source == log.number {
                outlets.push(self.outlet(log, destination))?;
            }
        }
        Ok(())
    }
}
