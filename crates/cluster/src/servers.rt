//! The servers, and which of them are up.
ghost use Rattle.std.specs.Prelude.{◌≡◌, ◌<◌, false, length, get_or, slice_set};
ghost use Rattle.cluster.specs.Cluster.{all_up};

use arrayvec::ArrayVec;
use std::marker::Model;
use tag::MOST_SERVERS;

/// Whether each server is up.
#[derive(Debug)]
pub struct Servers {
    up: ArrayVec<bool, MOST_SERVERS>,
}

impl Drop for Servers {
    fn drop(self) {
        let Self { up: _ } = self;
    }
}

impl Model for Servers {
    ghost use Rattle.std.specs.Prelude.{Bool, List};

    ghost Value = { List Bool };

    ghost view = { λ s. s.up.items };
}

impl Servers {
    /// Makes this many servers, all up. It allocates no memory.
    pub fn new(count: u8) -> Servers
        ensures { result ≡ all_up count }
    {
        let mut up = ArrayVec::new();
        for _ in 0..count {
            up.push(true);
        }
        Servers { up }
    }

    /// Returns how many servers there are.
    pub fn count(&self) -> u8
        ensures { result ≡ length self.now }
    {
        self.up.len() as u8
    }

    /// Returns whether a server is up; false if there is no such server.
    pub fn is_up(&self, server: u8) -> bool
        ensures { result ≡ get_or self.now server false }
    {
        match self.up.get(usize::from(server)) {
            Some(up) => *up,
            None => false,
        }
    }

    /// Sets whether a server is up.
    pub fn set(&mut self, server: u8, up: bool)
        requires { server < length self.old }
        ensures { self.new ≡ slice_set self.old server up }
    {
        self.up[usize::from(server)] = up;
    }
}
