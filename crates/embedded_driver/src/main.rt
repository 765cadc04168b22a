//! A program with a driver of its own and clients of two owners: a gateway publishes prices, and a desk reads them until a
//! policy says otherwise.
#![tactic(auto)]

ghost use Rattle.media_driver.specs.Parts.{AreNamed};

mod machine;
mod sharing;

use crate::machine::Machine;
use crate::sharing::{OPEN, names, policy, share};
use driver_core::Settings;
use media_driver::{Driver, DriverNaming, MachineClock, Parts};
use media_wire::{Udp, Wire};
use policy_text::Names;
use std::marker::Brand;
use std::process::ExitCode;

/// How many addresses the driver may read at once, with the one from which it sends.
const SOCKETS: usize = 769;

/// Starts the driver, lets its clients talk, and stops it. How many messages were taken is answered.
fn serve<N: DriverNaming + Send + Sync + 'static, R: Machine, W: Wire + Drop + Send + 'static>(
    rt: R,
    names: &Names,
    parts: Parts,
    wire: W,
) -> Result<u64, &'static str>
    requires { AreNamed N.home N.ledger N.parts N.client_ledger N.client_parts N.book parts }
{
    let started: Result<Driver<N, R, MachineClock<R>>, _> = Driver::start(
        rt,
        rt.alloc(),
        parts,
        wire,
    );
    let Ok(mut driver) = started else {
        return Err("no driver");
    };
    let mut clients = Vec::new(rt.alloc());
    let shared = share(&rt, names, &mut driver, &mut clients);
    let messages = driver.stop(clients);
    shared?;
    messages.ok_or("a client did not come back")
}

/// Makes the parts of the driver under the first policy, and serves.
fn run<R: Machine, W: Wire + Drop + Send + 'static>(rt: R, wire: W) -> Result<u64, &'static str> {
    let names = names(rt.alloc())?;
    let policy = policy(rt.alloc(), &names, OPEN)?;
    match Parts::make(&rt, rt.alloc(), Settings::default(), policy, &[]) {
        Ok(parts) => serve::<Brand, R, W>(rt, &names, parts, wire),
        Err(_) => Err("no parts"),
    }
}

/// The wire is made here, where it is known whose sockets they are: it goes to threads.
fn main(rt: HostRuntime) -> ExitCode {
    let Ok(wire) = Udp::new(rt.alloc(), rt, SOCKETS) else {
        let _ = eprintln!(rt; "embedded_driver: no memory");
        return ExitCode::FAILURE;
    };
    match run(rt, wire) {
        Ok(messages) => {
            let _ = println!(rt; "messages: {messages}");
            ExitCode::SUCCESS
        }
        Err(fault) => {
            let _ = eprintln!(rt; "embedded_driver: {fault}");
            ExitCode::FAILURE
        }
    }
}
