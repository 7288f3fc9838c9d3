//! Who has which names.

ghost use Rattle.std.specs.Prelude.{◌≡◌, Bool};
ghost use Rattle.names.specs.BusName.{is_unique};
ghost use Rattle.seq_bus_core.specs.BusState.{client_named, head_of};
ghost use Rattle.seq_bus_core.specs.Steps.{with_connection};
ghost use Rattle.registry_core.specs.ConnectionTables.{newcomer};
ghost use Rattle.registry.specs.Requests.{requeued};

use crate::registry::Registry;
use match_rules::Owners;
use names::{BUS_NAME, BusName, ConnectionName};
use owner_queues::Queue;
use registry_core::number_of;
use seq_bus_core::Conn;

impl Owners for Registry {
    ghost use Rattle.seq_bus_core.specs.BusState.{head_of};

    ghost heads = { head_of };

    fn head(&self, name: &str) -> Option<u64> {
        let _ = &self.connections;
        if is_unique(name) {
            return self.client_named(name);
        }
        if name == BUS_NAME {
            return None;
        }
        self.names.head(name)
    }
}

impl Registry {
    /// The client whose unique name this is.
    fn client_named(&self, name: &str) -> Option<u64>
        ensures { result ≡ client_named self.now.connections name.now }
    {
        let _ = &self.connections;
        match number_of(name) {
            Some(number) => {
                if self.is_client(number) {
                    Some(number)
                } else {
                    None
                }
            }
            None => None,
        }
    }

    /// The head of a name once a connection has said Hello.
    pub(crate) fn head_joined(&self, conn: Conn, name: &str) -> Option<u64>
        ensures { (privileged : Bool) → result
            ≡ head_of (with_connection self.now (newcomer conn privileged)) name.now }
    {
        match self.head(name) {
            Some(number) => Some(number),
            None => {
                if name == ConnectionName::of(conn.number).as_str() {
                    Some(conn.number)
                } else {
                    None
                }
            }
        }
    }

    /// The head of a name once a name has another queue.
    pub(crate) fn head_requeued(&self, changed: &BusName, queue: &Queue, name: &str) -> Option<u64>
        ensures { result ≡ head_of (requeued self.now changed.now queue.now) name.now }
    {
        if is_unique(name) {
            return self.head(name);
        }
        if name == BUS_NAME {
            return None;
        }
        if name == changed.as_str() {
            return queue.head();
        }
        self.head(name)
    }
}

/// Whether a name is read as a unique name.
pub fn is_unique(name: &str) -> bool
    ensures { result ≡ is_unique name.now }
{
    let bytes = name.as_bytes();
    !bytes.is_empty() && bytes[0] == b':'
}
