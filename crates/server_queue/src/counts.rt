//! How many messages a queue has, by who sent them.
ghost use Rattle.std.specs.Prelude.{◌≡◌, ◌<◌, ◌≤◌, ◌^◌, ◌+◌, ◌-◌, ℕ, List, [], Some, OnOk, OnErr};
ghost use Rattle.pps_types.specs.History.{Entry};
ghost use Rattle.server_queue.specs.Messages.{message_count};
ghost use Rattle.server_queue.specs.Senders.{client_messages};

use crate::sender::{Sender, said_by};
use pps_types::{Handle, Kind};
use std::alloc::{AllocError, Global};
use std::collections::HashMap;

/// How many messages there are of the server, and of each client that has some.
#[derive(Drop)]
pub(crate) struct Counts {
    pub(crate) from_server: usize,
    pub(crate) from_clients: HashMap<u32, usize>,
}

impl Counts {
    ghost use Rattle.server_queue.specs.Tally.{IsTally, KeepsOtherCounts, CountsOneMore, CountsOneLess, count_of, messages_of, counters_in, counter};

    /// There are none.
    pub(crate) fn new(alloc: Global) -> Counts
        ensures { IsTally result [] }
    {
        Counts {
            from_server: 0,
            from_clients: HashMap::new(alloc),
        }
    }

    /// Takes the memory to count that many more messages of clients.
    pub(crate) fn reserve(&mut self, messages: usize) -> Result<(), AllocError>
        ensures server { self.new.from_server ≡ self.old.from_server }
        ensures clients { (client : ℕ) → count_of self.new client ≡ count_of self.old client }
        ensures ok { OnOk result (messages ≤ counters_in self.new) }
        ensures kept { counters_in self.old ≤ counters_in self.new }
        ensures lacking { OnErr result (counters_in self.old < messages) }
    {
        self.from_clients.reserve(messages)
    }

    // How many there are of a client.
    fn of_client(&self, client: Handle) -> usize
        ensures { result ≡ messages_of self.now client }
    {
        self.from_clients
            .get(&client.number())
            .copied()
            .unwrap_or(0)
    }

    /// How many there are of a sender.
    pub(crate) fn of(&self, from: Sender) -> usize
        ensures { (owed : List Entry) → IsTally self.now owed → result ≡ message_count from owed }
    {
        match from {
            Sender::Server => self.from_server,
            Sender::Client(client) => self.of_client(client),
        }
    }

    // There is one more of a client.
    fn add_of_client(&mut self, client: Handle)
        requires { 0 < counters_in self.old }
        ensures server { self.new.from_server ≡ self.old.from_server }
        ensures client { messages_of self.old client + 1 < 2 ^ 64
            → count_of self.new client ≡ Some (messages_of self.old client + 1) }
        ensures others { KeepsOtherCounts client self.old self.new }
        ensures spare { counters_in self.old ≤ counters_in self.new + 1 }
    {
        let count = self.of_client(client).saturating_add(1);
        let _ = self.from_clients.insert(client.number(), count);
    }

    /// There is one more record, of that kind. It takes no memory.
    pub(crate) fn add(&mut self, kind: &Kind)
        requires { client_messages kind.now ≤ counters_in self.old }
        ensures tally { CountsOneMore kind.now self.old self.new }
        ensures spare { counters_in self.old ≤ counters_in self.new + client_messages kind.now }
    {
        let Some(from) = said_by(kind) else {
            return;
        };
        match from {
            Sender::Server => self.from_server = self.from_server.saturating_add(1),
            Sender::Client(client) => self.add_of_client(client),
        }
    }

    // There is one less of a client, which keeps no count where it has none left.
    fn drop_of_client(&mut self, client: Handle)
        ensures server { self.new.from_server ≡ self.old.from_server }
        ensures client { count_of self.new client ≡ counter (messages_of self.old client - 1) }
        ensures others { KeepsOtherCounts client self.old self.new }
    {
        let count = self.of_client(client);
        if count <= 1 {
            let _ = self.from_clients.remove(&client.number());
            return;
        }
        let _ = self.from_clients.insert(client.number(), count - 1);
    }

    /// The first record, which is of that kind, is no longer there. It takes no memory.
    pub(crate) fn drop_first(&mut self, kind: &Kind)
        ensures { CountsOneLess kind.now self.old self.new }
    {
        let Some(from) = said_by(kind) else {
            return;
        };
        match from {
            Sender::Server => self.from_server = self.from_server.saturating_sub(1),
            Sender::Client(client) => self.drop_of_client(client),
        }
    }
}
