//! Looks of a client: they wait for nobody.

ghost use Rattle.driver_core.specs.LeftOut.{left_out};
ghost use Rattle.driver_core.specs.Listing.{list, value};
ghost use Rattle.media_agents.specs.Journals.{stamp_of};
ghost use Rattle.media_driver.specs.Audits.{ReportsList, ReportsValue};
ghost use Rattle.media_driver.specs.Clients.{Consults, IsUnseen, Looks};
ghost use Rattle.media_driver.specs.declared.faults.LookFault.TheVariants.{NoLook};
ghost use Rattle.published_registry.specs.Histories.{IsContinuedBy, registry_of};
ghost use Rattle.std.specs.Prelude.{◌≡◌, IfErr, IfNone, IfOk, IfSome};

use crate::auditing::{denial_of, tell, tell_all};
use crate::client::Client;
use crate::faults::LookFault;
use byte_strings::Items;
use driver_core::{Listed, Shown, View};
use media_agents::{Clock, DriverNaming, Stamp};
use policy_core::Decision;
use published_registry::{Look, Pass, caches_stay_right_of_later_looks};
use std::alloc::{AllocError, Global};

/// What a client is shown of all counters, and by which decisions the others are left out.
#[derive(Drop)]
struct Seen {
    listed: Listed,
    denials: Items<Decision>,
    stamp: Stamp,
}

/// The same, by that look.
fn counters_of(look: &Look, alloc: Global, client: u64) -> Result<Seen, AllocError>
    ensures { IfOk result (λ seen. (seen.listed ≡ list (registry_of look.now) client) × (seen.denials ≡ left_out (registry_of look.now) client) × (seen.stamp ≡ stamp_of look.now)) }
{
    let registry = look.registry();
    let denials = registry.left_out(alloc, client)?;
    let listed = registry.list(alloc, client)?;
    Ok(Seen {
        listed,
        denials,
        stamp: Stamp::of(look),
    })
}

/// The counters that a client may see, by one look, and by which decisions it may not see the others.
fn listed(pass: Pass, alloc: Global, client: u64) -> (Pass, Option<Result<Seen, AllocError>>)
    ensures known { IsContinuedBy pass result.0 }
    ensures none { IfNone result.1 (result.0 ≡ pass) }
    ensures listed { IfSome result.1 (λ seen. IfOk seen (λ seen. (seen.listed ≡ list (registry_of result.0) client) × (seen.denials ≡ left_out (registry_of result.0) client) × (seen.stamp ≡ stamp_of result.0))) }
{
    match pass.enter() {
        Ok(look) => {
            let listed = counters_of(&look, alloc, client);
            (look.leave(), Some(listed))
        }
        Err(pass) => (pass, None),
    }
}

/// What a client is shown of a counter, by one look.
fn shown(pass: Pass, client: u64, number: u64) -> (Pass, Option<(Shown, Stamp)>)
    ensures known { IsContinuedBy pass result.0 }
    ensures none { IfNone result.1 (result.0 ≡ pass) }
    ensures shown { IfSome result.1 (λ shown. (shown.0 ≡ value (registry_of result.0) client number) × (shown.1 ≡ stamp_of result.0)) }
{
    match pass.enter() {
        Ok(look) => {
            let shown = look.registry().value(client, number);
            let stamp = Stamp::of(&look);
            (look.leave(), Some((shown, stamp)))
        }
        Err(pass) => (pass, None),
    }
}

/// Whether the driver was ended, by one look.
fn ended(pass: Pass) -> (Pass, Option<bool>)
    ensures known { IsContinuedBy pass result.0 }
    ensures none { IfNone result.1 (result.0 ≡ pass) }
    ensures ended { IfSome result.1 (λ ended. ended ≡ (registry_of result.0).stopped) }
{
    match pass.enter() {
        Ok(look) => {
            let ended = look.registry().is_stopped();
            (look.leave(), Some(ended))
        }
        Err(pass) => (pass, None),
    }
}

impl<N: DriverNaming, C: Clock> Client<N, C> {
    /// The counters that the client may see, by their numbers, as the registry says that the client sees now. By which decisions
    /// the others are left out is kept in its audit. It waits for nobody.
    ///
    /// # Errors
    /// `NoLook`, with nothing changed, or `NoMemory`.
    pub fn list(&mut self) -> Result<Listed, LookFault>
        ensures looks { Consults self.old self.new }
        ensures listed { IfOk result (λ rows. rows ≡ list (registry_of self.new.known) self.old.number) }
        ensures fault { IfErr result (λ fault. IsUnseen self.old self.new fault) }
        ensures audit { ReportsList self.new.known self.old.number result self.old.audited self.new.audited }
    {
        caches_stay_right_of_later_looks();
        let Some(pass) = self.pass.take() else {
            unreachable!()
        };
        let (pass, listed) = listed(pass, self.alloc, self.number);
        self.pass = Some(pass);
        match listed {
            Some(
                Ok(
                    Seen {
                        listed,
                        denials,
                        stamp,
                    },
                ),
            ) => {
                tell_all(&mut self.audit, stamp, denials.as_slice());
                Ok(listed)
            }
            Some(Err(_)) => Err(LookFault::NoMemory),
            None => Err(LookFault::NoLook),
        }
    }

    /// What the client is shown of a counter, as the registry says that the client sees now. The decision by which it is not
    /// shown it is kept in its audit. It waits for nobody, and takes no memory.
    ///
    /// # Errors
    /// `NoLook`, with nothing changed.
    pub fn counter_value(&mut self, number: u64) -> Result<Shown, LookFault>
        ensures looks { Consults self.old self.new }
        ensures shown { IfOk result (λ shown. shown ≡ value (registry_of self.new.known) self.old.number number) }
        ensures fault { IfErr result (λ fault. (fault ≡ NoLook) × (self.new ≡ self.old)) }
        ensures audit { ReportsValue self.new.known result self.old.audited self.new.audited }
    {
        caches_stay_right_of_later_looks();
        let Some(pass) = self.pass.take() else {
            unreachable!()
        };
        let (pass, shown) = shown(pass, self.number, number);
        self.pass = Some(pass);
        match shown {
            Some((shown, stamp)) => {
                tell(&mut self.audit, stamp, denial_of(&shown));
                Ok(shown)
            }
            None => Err(LookFault::NoLook),
        }
    }

    /// Whether the driver was ended, as the registry says that the client sees now: a client to which the policy allowed it did
    /// that. It waits for nobody, and takes no memory.
    ///
    /// # Errors
    /// `NoLook`, with nothing changed.
    pub fn is_driver_ended(&mut self) -> Result<bool, LookFault>
        ensures looks { Looks self.old self.new }
        ensures ended { IfOk result (λ ended. ended ≡ (registry_of self.new.known).stopped) }
        ensures fault { IfErr result (λ fault. (fault ≡ NoLook) × (self.new ≡ self.old)) }
    {
        caches_stay_right_of_later_looks();
        let Some(pass) = self.pass.take() else {
            unreachable!()
        };
        let (pass, ended) = ended(pass);
        self.pass = Some(pass);
        match ended {
            Some(ended) => Ok(ended),
            None => Err(LookFault::NoLook),
        }
    }
}
