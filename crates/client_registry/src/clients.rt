ghost use Rattle.client_registry.specs.Clients.{client_at, is_other};
ghost use Rattle.client_registry.specs.Place.{place_of};
ghost use Rattle.std.specs.Prelude.{◌≡◌, ◌<◌, IfOk, IfSome, OnOk, OnErr, Some, length};

use crate::client::Client;
use crate::error::AdmitError;
use arrayvec::ArrayVec;
use rows::{Rows, Test};
use std::alloc::{AllocError, Global};
use std::marker::Model;

/// How many clients are attached at most.
const CLIENTS: usize = 64;

/// The clients that are attached, in the order in which they came, in room that is there from the beginning.
#[derive(Debug, Drop)]
pub struct Clients {
    /// For how long a client lives of which nothing is heard, in nanoseconds.
    liveness: u64,
    rows: Rows<Client, 64>,
    /// The id that was given last; 0 at first.
    last: u64,
}

impl Model for Clients {
    ghost use Rattle.client_registry.specs.Clients.{ClientList};
    ghost use Rattle.client_registry.specs.Laws.{Rises};

    ghost Value = { ClientList };

    ghost view = { λ clients. record { liveness = clients.liveness; rows = clients.rows; last = clients.last } };

    ghost invariant = { λ clients. Rises 0 clients.last clients.rows };
}

/// Whether a client has another id.
#[derive(Clone, Copy)]
struct Others {
    number: u64,
}

impl Test<Client> for Others {
    ghost keeps = { λ others client. is_other others.number client };

    fn keeps(&self, client: &Client) -> bool {
        client.number != self.number
    }
}

impl Clients {
    ghost use Rattle.client_registry.specs.Clients.{opened, admission, admitted, principal_at, touched, expired_of, without, cleared};

    /// Nobody is attached yet. A client of which nothing is heard for longer than `liveness`, in nanoseconds, is past it.
    /// The room for all who may come is taken here.
    pub fn new(alloc: Global, liveness: u64) -> Result<Clients, AllocError>
        ensures { IfOk result (λ clients. clients ≡ opened liveness) }
    {
        Ok(Clients {
            liveness,
            rows: Rows::new(alloc)?,
            last: 0,
        })
    }

    /// Other clients, equal to these.
    pub fn copy(&self, alloc: Global) -> Result<Clients, AllocError>
        ensures { IfOk result (λ clients. clients ≡ self.now) }
    {
        Ok(Clients {
            liveness: self.liveness,
            rows: self.rows.copy(alloc)?,
            last: self.last,
        })
    }

    /// The clients, by their ids.
    pub fn rows(&self) -> &[Client]
        ensures { result.now ≡ self.now.rows }
    {
        self.rows.as_slice()
    }

    /// The id that a client would be given that comes now.
    ///
    /// # Errors
    /// [`AdmitError::Full`] where 64 clients are attached or no id is left.
    #[tactic(auto, unfolding(crate::specs::Clients::admission))]
    pub fn admission(&self) -> Result<u64, AdmitError>
        ensures { result ≡ admission self.now }
    {
        if self.rows.len() >= CLIENTS || self.last == u64::MAX {
            return Err(AdmitError::Full);
        }
        Ok(self.last + 1)
    }

    /// A client comes, which acts for `principal` and is heard of at `now`. It is given the next id.
    ///
    /// # Errors
    /// [`AdmitError::Full`] where 64 clients are attached or no id is left; nothing is changed then.
    #[tactic(auto, unfolding(crate::specs::Clients::admission, crate::specs::Clients::admitted))]
    pub fn admit(&mut self, principal: u32, now: u64) -> Result<u64, AdmitError>
        ensures answer { result ≡ admission self.old }
        ensures admitted { OnOk result (self.new ≡ admitted self.old principal now) }
        ensures err { OnErr result (self.new ≡ self.old) }
    {
        let number = self.admission()?;
        self.last = number;
        self.rows.push(Client {
            number,
            principal,
            heard: now,
        });
        Ok(number)
    }

    /// Where the client of this id stands if none of those between the first and it has gone.
    #[inline]
    fn place_unless_some_went(&self, number: u64) -> Option<usize>
        ensures place { IfSome result (λ at. Some at ≡ place_of number self.now.rows) }
        ensures within { IfSome result (λ at. at < length self.now.rows) }
    {
        let rows = self.rows.as_slice();
        let first = rows.first()?.number;
        let at = number.checked_sub(first)?;
        if at < rows.len() as u64 && rows[at as usize].number == number {
            Some(at as usize)
        } else {
            None
        }
    }

    /// Where the client of this id stands.
    #[inline]
    fn place(&self, number: u64) -> Option<usize>
        ensures place { result ≡ place_of number self.now.rows }
        ensures within { IfSome result (λ at. at < length self.now.rows) }
    {
        match self.place_unless_some_went(number) {
            Some(at) => Some(at),
            None => self.place_by_halving(number),
        }
    }

    /// Where the client of this id stands, looked for by halving.
    fn place_by_halving(&self, number: u64) -> Option<usize>
        ensures place { result ≡ place_of number self.now.rows }
        ensures within { IfSome result (λ at. at < length self.now.rows) }
    {
        let rows = self.rows.as_slice();
        match rows.binary_search_by_key(&number, |client| client.number) {
            Ok(at) => Some(at),
            Err(_) => None,
        }
    }

    /// The client of this id.
    pub fn get(&self, number: u64) -> Option<Client>
        ensures { result ≡ client_at self.now.rows number }
    {
        match self.place(number) {
            Some(at) => Some(self.rows.as_slice()[at]),
            None => None,
        }
    }

    /// Whom the client of this id acts for.
    pub fn principal_of(&self, number: u64) -> Option<u32>
        ensures { result ≡ principal_at self.now.rows number }
    {
        match self.get(number) {
            Some(client) => Some(client.principal),
            None => None,
        }
    }

    /// The client of this id is heard of at `now`, or at the moment already known where that is later.
    #[tactic(auto, unfolding(crate::specs::Clients::touched))]
    pub fn touch(&mut self, number: u64, now: u64)
        ensures { self.new ≡ touched self.old number now }
    {
        match self.place(number) {
            Some(at) => {
                let client = self.rows.as_slice()[at];
                let heard = client.heard.max(now);
                self.rows.set(at, Client { heard, ..client });
            }
            None => {}
        }
    }

    /// The ids of the clients of which nothing was heard for longer than the liveness, in their order. It takes no memory.
    #[tactic(auto, unfolding(crate::specs::Clients::expired_of))]
    pub fn expired(&self, now: u64) -> ArrayVec<u64, 64>
        ensures { result.items ≡ expired_of self.now now }
    {
        let mut numbers = ArrayVec::new();
        for client in self.rows.as_slice() {
            if now.saturating_sub(client.heard) > self.liveness {
                numbers.push(client.number);
            }
        }
        numbers
    }

    /// The client of this id goes. Its id is not given again.
    #[tactic(auto, unfolding(crate::specs::Clients::without))]
    pub fn remove(&mut self, number: u64)
        ensures { self.new ≡ without self.old number }
    {
        self.rows.retain(&Others { number });
    }

    /// All clients go.
    pub fn clear(&mut self)
        ensures { self.new ≡ cleared self.old }
    {
        self.rows.clear();
    }
}
