ghost use Rattle.driver_core.specs.Leaving.{left, all_left};
ghost use Rattle.std.specs.Prelude.{◌≡◌};

use crate::state::registry::Registry;

impl Registry {
    /// A client goes, with all that it registered.
    #[tactic(auto, unfolding(crate::specs::Leaving::left))]
    pub(crate) fn leave(&mut self, client: u64)
        ensures { self.new ≡ left self.old client }
    {
        let now = self.moment;
        self.all_read = false;
        self.readers.client_left(&self.streams, client);
        self.clients.remove(client);
        self.streams.client_left(client, now);
        self.counters.remove_those_of(client);
    }

    /// These clients go, each with all that it registered.
    pub(crate) fn leave_all(&mut self, clients: &[u64])
        ensures { self.new ≡ all_left self.old clients.now }
    {
        for client in clients {
            self.leave(*client);
        }
    }
}
