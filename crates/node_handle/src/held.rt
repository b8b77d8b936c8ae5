//! Where C keeps a node.
ghost use Rattle.std.specs.Prelude.{◌≡◌, Option, Some, None, box_value, option_map};
ghost use Rattle.std.specs.Coded.{coded_option};
ghost use Rattle.node_handle.specs.declared.embedded.Embedded.{Embedded as Embedding};
ghost use Rattle.node_handle.specs.contracts.embedded.Embedded.{the_row as node_row};
ghost use Rattle.node_handle.specs.Owned.{held_owns};

use crate::embedded::Embedded;
use box_parts::Parts;
use std::alloc::Global;
use std::marker::Model;
use std::mem::replace;

/// A node, or none. C makes a closed handle from zeros, and otherwise only keeps what the calls leave in it.
#[repr(C)]
pub struct Held {
    // Where the node lies. A pointer whose type names a node cannot cross to C.
    at: *mut u8,
    // Whether there is a node.
    is_open: bool,
    /// The node.
    pub ghost value: { Option Embedding } by { coded_option node_row.coded },
}

impl Model for Held {
    ghost also_owns = { λ held. held_owns node_row held.is_open held.at held.value };
}

impl Held {
    /// A handle with no node.
    pub fn closed() -> Held
        ensures { result.value ≡ None }
    {
        Held {
            at: std::ptr::null_mut(),
            is_open: false,
        }
    }

    // The handle of a node that lies in a box with these parts.
    fn of(parts: Parts<Embedded, Global>) -> Held
        ensures { result.value ≡ Some parts.value }
    {
        let Parts { at, alloc: _ } = parts;
        Held {
            at: at as *mut u8,
            is_open: true,
        }
    }

    // The parts of the box with the node, if there is one.
    fn into_parts(self, alloc: Global) -> Option<Parts<Embedded, Global>>
        ensures { option_map (λ parts. parts.value) result ≡ self.value }
    {
        let Held { at, is_open } = self;
        if is_open {
            Some(Parts {
                at: at as *mut Embedded,
                alloc,
            })
        } else {
            None
        }
    }

    /// Takes the node out of the handle, which is closed then.
    pub fn take(&mut self, alloc: Global) -> Option<Box<Embedded>>
        ensures value { option_map box_value result ≡ self.old.value }
        ensures closed { self.new.value ≡ None }
    {
        let held = replace(self, Held::closed());
        match held.into_parts(alloc) {
            Some(parts) => Some(parts.into_box()),
            None => None,
        }
    }

    /// Puts a node into the handle, which is open then. A node that it has is dropped.
    pub fn put(&mut self, alloc: Global, node: Box<Embedded>)
        ensures { self.new.value ≡ Some (box_value node) }
    {
        let held = replace(self, Held::of(Parts::of(node)));
        if let Some(parts) = held.into_parts(alloc) {
            drop(parts.into_box());
        }
    }
}
