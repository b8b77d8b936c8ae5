//! Which messages can be handled.

ghost use Rattle.std.specs.Prelude.{◌≡◌};
ghost use Rattle.cluster.specs.Causes.{can_handle};

use crate::cluster::Cluster;
use crate::cluster::messages::is_handled;
use mail::Message;
use register::Register;

impl Cluster {
    /// Returns whether a message of this object is a reply, or a request to a server that is up. It is no step and
    /// allocates no memory.
    pub fn handles(&self, register: &Register, message: &Message) -> bool
        ensures { result ≡ can_handle self.now register.now.object message.now message.now.body }
    {
        is_handled(&self.servers, register, message)
    }
}
