//! A pointer behind which a client lies, or nothing. The library alone follows it.
ghost use Rattle.std.specs.Prelude.{◌≡◌, Option, Some, None, IsSome};
ghost use Rattle.lapin_client.specs.declared.client.Client.{Client};
ghost use Rattle.lapin_client.specs.contracts.client.Client as client;
ghost use Rattle.std.specs.Coded.{coded_option};

use lapin_client::Client;
use std::alloc::Global;
use std::marker::Model;

/// Where a client lies that C holds, or nothing.
#[repr(C)]
#[derive(Drop)]
pub struct Pointer {
    at: *mut u8,
    pub(crate) ghost held: { Option Client } by { coded_option client.the_row.coded },
}

impl Model for Pointer {
    ghost use Rattle.lapin_client.specs.contracts.client.Client as client;
    ghost use Rattle.lapin_c.specs.Held.{held_owns, may_free};
    ghost use Rattle.std_alloc.specs.Box.Ownership.{box_owns};

    ghost also_owns = { λ p. held_owns p.held (λ x. box_owns may_free client.the_row p.at x) };
}

impl Pointer {
    /// A client that is C's from now on.
    pub(crate) fn of(client: Box<Client>) -> Pointer
        ensures { result.held ≡ Some client.value }
    {
        let at = Box::into_raw(client) as *mut u8;
        Pointer { at }
    }

    /// The client, no longer C's.
    pub(crate) fn into_client(self, alloc: Global) -> Box<Client>
        requires { IsSome self.held }
        ensures { self.held ≡ Some result.value }
    {
        let Pointer { at } = self;
        unsafe { Box::from_raw(alloc, at as *mut Client) }
    }

    /// No client.
    pub(crate) fn none() -> Pointer
        ensures { result.held ≡ None }
    {
        Pointer {
            at: std::ptr::null_mut(),
        }
    }
}
