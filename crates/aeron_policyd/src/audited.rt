//! What was decided while a driver ran is printed.

use crate::fault::Fault;
use crate::replies::say;
use crate::station::{OwnClient, OwnDriver};
use media_driver::{Agent, Dated, DriverNaming};
use policy_core::Decision;
use program_parts::Machine;
use std::fmt::Write;

/// Whether it is the same as the one before.
pub(crate) fn is_repeated(before: &Option<Decision>, decision: &Decision) -> bool {
    match before {
        Some(before) => before == decision,
        None => false,
    }
}

/// A decision is printed.
fn show_one<R: Machine>(rt: &R, who: &str, decision: &Decision) -> Result<(), Fault> {
    let act = decision.act.name();
    let stream = decision.stream;
    let verdict = decision.verdict;
    let mut line = String::from_str(rt.alloc(), who)?;
    write!(line, ": {act} on stream {stream} {verdict}")?;
    say(rt, line.as_str())
}

/// The next decision is printed, if it is another one than that before.
fn show_next<R: Machine>(
    rt: &R,
    who: &str,
    before: &mut Option<Decision>,
    dated: &Dated,
) -> Result<(), Fault> {
    let decision = dated.decision;
    if is_repeated(before, &decision) {
        return Ok(());
    }
    *before = Some(decision);
    show_one(rt, who, &decision)
}

/// Those on an agent's steps are printed.
fn show_agent<N: DriverNaming, R: Machine>(
    rt: &R,
    driver: &OwnDriver<N, R>,
    who: &str,
    agent: Agent,
) -> Result<(), Fault> {
    let audited = driver.audit(agent)?;
    let mut before = None;
    for dated in audited.last.as_slice() {
        show_next(rt, who, &mut before, dated)?;
    }
    Ok(())
}

/// Those for a client are printed.
fn show_client<N: DriverNaming, R: Machine>(rt: &R, client: &OwnClient<N, R>) -> Result<(), Fault> {
    let mut before = None;
    for dated in client.audit().items() {
        show_next(rt, "client", &mut before, dated)?;
    }
    Ok(())
}

/// What was decided last is printed: on commands and pairs, on what was sent, and on the client's offers and polls. A decision that
/// is the same as the one before it is printed once.
pub(crate) fn show_audits<N: DriverNaming, R: Machine>(
    rt: &R,
    driver: &OwnDriver<N, R>,
    client: &OwnClient<N, R>,
) -> Result<(), Fault> {
    show_agent(rt, driver, "conductor", Agent::Conductor)?;
    show_agent(rt, driver, "sender", Agent::Sender)?;
    show_client(rt, client)
}
