// What a look says.
ghost use Rattle.std.specs.Prelude.{◌≡◌};

use channel_uri::Channel;
use policy_core::{Act, Request};
use published_registry::Pass;

// How many entries led to the registry, its moment, the number of its policy, and whether that allows an offer.
#[derive(Clone, Copy, Debug, PartialEq, Eq)]
pub struct Sight {
    pub number: u64,
    pub moment: u64,
    pub epoch: u64,
    pub allows: bool,
}

// One look. It is none where the pass gets no look.
pub fn one_look(pass: Pass) -> (Pass, Option<Sight>)
    ensures { result.0.book ≡ pass.book }
{
    let channel = Channel::ipc();
    let request = Request {
        principal: 1,
        act: Act::Offer,
        channel: &channel,
        stream: 10,
    };
    match pass.enter() {
        Ok(look) => {
            let sight = Sight {
                number: look.number(),
                moment: look.moment(),
                epoch: look.epoch(),
                allows: look.verdict(&request).allow,
            };
            (look.leave(), Some(sight))
        }
        Err(pass) => (pass, None),
    }
}
