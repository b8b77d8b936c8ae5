//! Steps that add layouts and objects, and that take servers up or down.

ghost use Rattle.std.specs.Prelude.{◌≡◌, nat_lt, length, None, IfOk, OnOk, OnErr};
ghost use Rattle.std.specs.List.{list_all};
ghost use Rattle.tag.specs.Refusal.{IsByCause, IsExactlyByCause};
ghost use Rattle.cluster.specs.Steps.{with_layout, with_server, created};
ghost use Rattle.cluster.specs.Causes.{layout_cause, create_cause, server_cause};

use crate::cluster::{Cluster, LayoutId};
use layout::Layout;
use register::Register;
use tag::{LONGEST_NAME, MOST_LAYOUTS, MOST_OBJECTS, MOST_STEPS, Refusal};

impl Cluster {
    /// Adds a layout, which objects may have from then on. Returns its number.
    ///
    /// Is refused with `BadLayout` if a member is no server of the cluster, and with `Full` if the counter is at
    /// `MOST_STEPS` or there are `MOST_LAYOUTS` layouts.
    pub fn add_layout(&mut self, layout: Layout) -> Result<LayoutId, Refusal>
        ensures step { OnOk result (self.new ≡ with_layout self.old layout) }
        ensures id { IfOk result (λ id. id ≡ length self.old.layouts) }
        ensures cause { IsByCause (layout_cause self.old layout) result }
        ensures unchanged { OnErr result (self.new ≡ self.old) }
    {
        if !has_servers(&layout, self.servers.count()) {
            return Err(Refusal::BadLayout);
        }
        if self.counter >= MOST_STEPS || self.layouts.len() >= MOST_LAYOUTS {
            return Err(Refusal::Full);
        }
        let id = self.layouts.len() as u32;
        self.layouts.push(layout)?;
        self.counter += 1;
        Ok(id)
    }

    /// Creates an object, with one position of this layout and no calls, whose banks keep every piece.
    ///
    /// It is refused as `create_with` is.
    pub fn create(&mut self, name: &str, id: LayoutId) -> Result<(), Refusal>
        ensures step { OnOk result (self.new ≡ created self.old name.now id None) }
        ensures cause { IsByCause (create_cause self.old name.now id) result }
        ensures unchanged { OnErr result (self.new ≡ self.old) }
    {
        self.create_with(name, id, None)
    }

    /// Creates an object, with one position of this layout and no calls. The banks of all its positions keep the pieces
    /// of the newest finalized version and of `delta` others; without `delta` they keep every piece.
    ///
    /// Is refused with `ObjectExists` if an object has this name, with `BadLayout` if there is no layout of this
    /// number, with `TooLong` if the name is longer than `LONGEST_NAME` bytes, and with `Full` if the counter is at
    /// `MOST_STEPS` or there are `MOST_OBJECTS` objects.
    pub fn create_with(
        &mut self,
        name: &str,
        id: LayoutId,
        delta: Option<u32>,
    ) -> Result<(), Refusal>
        ensures step { OnOk result (self.new ≡ created self.old name.now id delta) }
        ensures cause { IsByCause (create_cause self.old name.now id) result }
        ensures unchanged { OnErr result (self.new ≡ self.old) }
    {
        self.may_create(name, id)?;
        let now = self.counter + 1;
        let alloc = *self.layouts.allocator();
        let layout = &self.layouts[id as usize];
        let register = Register::new(alloc, layout.clone()?, delta, now)?;
        let name = String::from_str(alloc, name)?;
        self.objects.insert(name, register)?;
        self.counter = now;
        Ok(())
    }

    // Whether an object may be created.
    fn may_create(&self, name: &str, id: LayoutId) -> Result<(), Refusal>
        ensures cause { IsExactlyByCause (create_cause self.now name.now id) result }
    {
        if self.objects.get_index_of(name).is_some() {
            return Err(Refusal::ObjectExists);
        }
        if id as usize >= self.layouts.len() {
            return Err(Refusal::BadLayout);
        }
        if name.len() > LONGEST_NAME {
            return Err(Refusal::TooLong);
        }
        if self.counter >= MOST_STEPS || self.objects.len() >= MOST_OBJECTS {
            return Err(Refusal::Full);
        }
        Ok(())
    }

    /// Brings a server up or takes it down. It is a step even if this changes nothing. It allocates no memory.
    ///
    /// Is refused with `BadLayout` if there is no server of this number, and with `Full` if the counter is at
    /// `MOST_STEPS`.
    pub fn set_server(&mut self, server: u8, up: bool) -> Result<(), Refusal>
        ensures step { OnOk result (self.new ≡ with_server self.old server up) }
        ensures cause { IsExactlyByCause (server_cause self.old server) result }
        ensures unchanged { OnErr result (self.new ≡ self.old) }
    {
        if server >= self.servers.count() {
            return Err(Refusal::BadLayout);
        }
        if self.counter >= MOST_STEPS {
            return Err(Refusal::Full);
        }
        self.servers.set(server, up);
        self.counter += 1;
        Ok(())
    }
}

// Whether each member is a server, where there are `servers` of them.
fn has_servers(layout: &Layout, servers: u8) -> bool
    ensures { result ≡ list_all (λ member. nat_lt member servers) layout.now.members }
{
    for member in 0..layout.n() {
        if layout.member(member) >= servers {
            return false;
        }
    }
    true
}
