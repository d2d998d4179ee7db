//! The handle by which C holds a client: a pointer, and whether there is a client behind it.
ghost use Rattle.std.specs.Prelude.{◌≡◌, true, None, Some, IfSome, box_value};
ghost use Rattle.std.specs.Option.{is_some, option_map, ForSome};
ghost use Rattle.lapin_client.specs.Clients.{IsSound};
ghost use Rattle.lapin_c.specs.Sound.{sound_once};

use crate::pointer::Pointer;
use lapin_client::Client;
use std::alloc::Global;
use std::mem::replace;

/// A client in the hands of C, or none. C makes it of zeros, and changes nothing in it.
#[repr(C)]
#[derive(Drop)]
pub struct Handle {
    pub(crate) pointer: Pointer,
    pub(crate) is_open: bool,
    ghost told: { is_open ≡ is_some pointer.held },
    ghost sound: { ForSome pointer.held (λ client. IsSound client) } by { sound_once pointer.held },
}

/// Takes the client out of a handle, which is closed until it is put back.
pub(crate) fn take(alloc: Global, handle: &mut Handle) -> Option<Box<Client>>
    ensures value { option_map (λ client. box_value client) result ≡ handle.old.pointer.held }
    ensures sound { IfSome result (λ client. IsSound (box_value client)) }
    ensures closed { handle.new.pointer.held ≡ None }
{
    if !handle.is_open {
        return None;
    }
    let closed = Handle {
        pointer: Pointer::none(),
        is_open: false,
    };
    let Handle {
        pointer,
        is_open: _,
    } = replace(handle, closed);
    Some(pointer.into_client(alloc))
}

/// Puts a client into a handle.
pub(crate) fn put(handle: &mut Handle, client: Box<Client>)
    requires { IsSound (box_value client) }
    ensures { handle.new.pointer.held ≡ Some (box_value client) }
{
    *handle = Handle {
        pointer: Pointer::of(client),
        is_open: true,
    };
}
