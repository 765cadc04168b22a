// What a driver is made of, where everything is allowed.
use driver_core::{Address, Settings};
use media_driver::Parts;
use policy_core::Policy;
use std::alloc::Global;
use std::sync::Wait;

/// An address of this machine.
pub(crate) fn at(port: u16) -> Address {
    Address {
        octets: [127, 0, 0, 1],
        port,
    }
}

/// The parts of a driver that sends from that port.
pub(crate) fn parts_at<R: Wait>(rt: &R, alloc: Global, port: u16) -> Result<Parts, &'static str> {
    let settings = Settings {
        send_address: at(port),
        ..Settings::default()
    };
    let Ok(policy) = Policy::new(Vec::new(alloc), true) else {
        return Err("there is no policy");
    };
    match Parts::make(rt, alloc, settings, policy, &[]) {
        Ok(parts) => Ok(parts),
        Err(_) => Err("nothing is made"),
    }
}
