//! Steps that handle a message.

ghost use Rattle.std.specs.Prelude.{◌≡◌, ◌≤◌, Some, IfOk, OnOk, OnErr};
ghost use Rattle.tag.specs.Refusal.{IsByCause, IsExactlyByCause};
ghost use Rattle.tag.specs.declared.limits.TheConstants.{MOST_BYTES};
ghost use Rattle.record.specs.Steps.{Step};
ghost use Rattle.register.specs.Causes.{take_cause, lose_cause, repeat_cause};
ghost use Rattle.register.specs.View.{took_at};
ghost use Rattle.cluster.specs.Cluster.{Cluster as Store, if_named, is_reached};
ghost use Rattle.cluster.specs.Places.{IsObjectAt};
ghost use Rattle.cluster.specs.Preconditions.{MayMake};
ghost use Rattle.cluster.specs.Steps.{with_step};
ghost use Rattle.cluster.specs.Serving.{GoesTo, HasServersAndCounts};
ghost use Rattle.cluster.specs.Causes.{next, object_cause, serving_cause, can_handle, handled_at, place_cause};

use crate::cluster::Cluster;
use crate::cluster::mailing::{exchanged, waiting};
use crate::servers::Servers;
use mail::{Body, Message, Took};
use register::{Act, Register};
use tag::{MOST_BYTES, MOST_STEPS, Refusal, Stamp};

impl Cluster {
    /// The server to which the request at a place is sent serves the request. Its reply takes the place of the request.
    ///
    /// Is refused with `NoObject` if no object has this name, with `NoMessage` if there is no message at this place,
    /// with `Down` if the server is down, and with `NotNow` if the message is a reply. It is refused with `Full` if the
    /// counter is at `MOST_STEPS`, or the bytes of the request's piece and all that the cluster stores are together
    /// more than `MOST_BYTES`.
    pub fn serve(&mut self, name: &str, place: usize) -> Result<(), Refusal>
        ensures step { OnOk result (self.new ≡ with_step self.old name.entry.now (Step.Serve place)) }
        ensures may { OnOk result (MayMake self.old name.entry.now (Step.Serve place)) }
        ensures cause { IsByCause (object_cause self.old name.entry.now (serving_cause self.old place)) result }
        ensures unchanged { OnErr result (self.new ≡ self.old) }
    {
        let Some(object) = self.find(name) else {
            return Err(Refusal::NoObject);
        };
        self.serve_at(name, object, place)
    }

    /// The server to which the request at a place is sent serves the request, as by `serve`. `object` must be the index
    /// of the object of this name.
    pub fn serve_at(&mut self, name: &str, object: u32, place: usize) -> Result<(), Refusal>
        requires { IsObjectAt self.old name.now object }
        ensures step { OnOk result (self.new ≡ with_step self.old name.entry.now (Step.Serve place)) }
        ensures may { OnOk result (MayMake self.old name.entry.now (Step.Serve place)) }
        ensures cause { IsByCause (object_cause self.old name.entry.now (serving_cause self.old place)) result }
        ensures unchanged { OnErr result (self.new ≡ self.old) }
    {
        let register = &mut self.objects[object as usize];
        register.allowed_steps_may_be_made();
        let server = room_to_serve(&self.servers, register, place, self.counter, self.stored)?;
        let now = self.counter + 1;
        let before = register.stored_in_all();
        let waited = waiting(register);
        register.serve(place, now)?;
        let after = register.stored_in_all();
        self.stored = exchanged(self.stored, before, after);
        self.loads.replace_part(server, before, after);
        self.mailed = exchanged(self.mailed, waited, waiting(register));
        self.counter = now;
        Ok(())
    }

    /// The call that the reply at a place names takes the reply. Returns what the call did with it. The message leaves
    /// the mail, and later ones move down by one place. It allocates no memory.
    ///
    /// Is refused with `NoObject` if no object has this name, with `NoMessage` if there is no message at this place,
    /// with `NotNow` if it is a request, and with `Full` if the counter is at `MOST_STEPS`.
    pub fn take(&mut self, name: &str, place: usize) -> Result<Took, Refusal>
        ensures step { OnOk result (self.new ≡ with_step self.old name.entry.now (Step.Take place)) }
        ensures may { OnOk result (MayMake self.old name.entry.now (Step.Take place)) }
        ensures took { IfOk result
            (λ t. if_named self.old name.entry.now (λ object. Some (took_at object place)) ≡ Some t) }
        ensures cause { IsExactlyByCause
            (object_cause self.old name.entry.now (λ object. take_cause (next self.old) object place)) result }
        ensures unchanged { OnErr result (self.new ≡ self.old) }
    {
        let Some(object) = self.find(name) else {
            return Err(Refusal::NoObject);
        };
        self.take_at(name, object, place)
    }

    /// The call that the reply at a place names takes the reply, as by `take`. `object` must be the index of the object
    /// of this name.
    pub fn take_at(&mut self, name: &str, object: u32, place: usize) -> Result<Took, Refusal>
        requires { IsObjectAt self.old name.now object }
        ensures step { OnOk result (self.new ≡ with_step self.old name.entry.now (Step.Take place)) }
        ensures may { OnOk result (MayMake self.old name.entry.now (Step.Take place)) }
        ensures took { IfOk result
            (λ t. if_named self.old name.entry.now (λ object. Some (took_at object place)) ≡ Some t) }
        ensures cause { IsExactlyByCause
            (object_cause self.old name.entry.now (λ object. take_cause (next self.old) object place)) result }
        ensures unchanged { OnErr result (self.new ≡ self.old) }
    {
        let register = &mut self.objects[object as usize];
        register.allowed_steps_may_be_made();
        let now = self.counter + 1;
        let waited = waiting(register);
        let took = register.take(place, now)?;
        self.mailed = exchanged(self.mailed, waited, waiting(register));
        self.counter = now;
        Ok(took)
    }

    /// The message at a place is lost. Later ones move down by one place. It allocates no memory.
    ///
    /// Is refused with `NoObject` if no object has this name, with `NoMessage` if there is no message at this place,
    /// and with `Full` if the counter is at `MOST_STEPS`.
    pub fn lose(&mut self, name: &str, place: usize) -> Result<(), Refusal>
        ensures step { OnOk result (self.new ≡ with_step self.old name.entry.now (Step.Lose place)) }
        ensures may { OnOk result (MayMake self.old name.entry.now (Step.Lose place)) }
        ensures cause { IsExactlyByCause
            (object_cause self.old name.entry.now (λ object. lose_cause (next self.old) object place)) result }
        ensures unchanged { OnErr result (self.new ≡ self.old) }
    {
        self.make(name, Act::Lose(place))
    }

    /// A copy of the message at a place is put at the end of the object's mail.
    ///
    /// Is refused with `NoObject` if no object has this name, with `NoMessage` if there is no message at this place,
    /// and with `Full` if the counter is at `MOST_STEPS` or `MOST_MESSAGES` messages of the object wait.
    pub fn repeat(&mut self, name: &str, place: usize) -> Result<(), Refusal>
        ensures step { OnOk result (self.new ≡ with_step self.old name.entry.now (Step.Repeat place)) }
        ensures may { OnOk result (MayMake self.old name.entry.now (Step.Repeat place)) }
        ensures cause { IsByCause
            (object_cause self.old name.entry.now (λ object. repeat_cause (next self.old) object place)) result }
        ensures unchanged { OnErr result (self.new ≡ self.old) }
    {
        self.make(name, Act::Repeat(place))
    }

    /// Returns whether the message at a place is a reply, or a request to a server that is up. It is no step and
    /// allocates no memory.
    ///
    /// Is refused with `NoObject` if no object has this name, and with `NoMessage` if there is no message at this
    /// place.
    pub fn can_handle(&self, name: &str, place: usize) -> Result<bool, Refusal>
        ensures value { IfOk result (λ b. if_named self.now name.now (handled_at self.now place) ≡ Some b) }
        ensures cause { IsExactlyByCause (object_cause self.now name.now (place_cause place)) result }
    {
        let Some(object) = self.find(name) else {
            return Err(Refusal::NoObject);
        };
        let register = self.register_at(name, object);
        let mail = register.mail_view();
        if mail.len() <= place {
            return Err(Refusal::NoMessage);
        }
        Ok(is_handled(&self.servers, register, mail.at(place)))
    }
}

// The server that is to serve the request at a place, or why the request cannot be served.
fn room_to_serve(
    servers: &Servers,
    register: &Register,
    place: usize,
    counter: Stamp,
    stored: u64,
) -> Result<u8, Refusal>
    requires { stored ≤ MOST_BYTES }
    ensures server { IfOk result (λ server. GoesTo register.now.object place server) }
    ensures cause { (cluster : Store) → HasServersAndCounts cluster servers.now counter stored
        → IsExactlyByCause (serving_cause cluster place register.now.object) result }
{
    let mail = register.mail_view();
    if mail.len() <= place {
        return Err(Refusal::NoMessage);
    }
    let message = mail.at(place);
    let Body::Request(_) = &message.body else {
        return Err(Refusal::NotNow);
    };
    let Some(server) = register.server(message.position, message.member) else {
        return Err(Refusal::Down);
    };
    if !servers.is_up(server) {
        return Err(Refusal::Down);
    }
    if counter >= MOST_STEPS {
        return Err(Refusal::Full);
    }
    if message.bytes() > MOST_BYTES - stored {
        return Err(Refusal::Full);
    }
    Ok(server)
}

/// Returns whether a message is a reply, or a request to a server that is up.
pub(crate) fn is_handled(servers: &Servers, register: &Register, message: &Message) -> bool
    ensures { (cluster : Store) → cluster.servers ≡ servers.now
        → result ≡ can_handle cluster register.now.object message.now message.now.body }
{
    match &message.body {
        Body::Request(_) => is_reached(servers, register, message),
        Body::Reply { kind: _, reply: _ } => true,
    }
}

// Whether the server of the member that a message names is up.
fn is_reached(servers: &Servers, register: &Register, message: &Message) -> bool
    ensures { (cluster : Store) → cluster.servers ≡ servers.now
        → result ≡ is_reached cluster register.now.object message.now }
{
    match register.server(message.position, message.member) {
        Some(server) => servers.is_up(server),
        None => false,
    }
}
