//! The lines of the classes channel and access.

ghost use Rattle.std.specs.Prelude.{◌≡◌};
ghost use Rattle.lapin_types.specs.declared.call.Call.TheVariants as call;
ghost use Rattle.lapin_rules.specs.Calls.{asked};

use super::{Asked, awaiting};
use lapin_types::{
    AccessMethod, AccessRequestOptions, ChannelFlowOptions, ChannelMethod, Method, Reply,
    ShortString,
};

pub(crate) fn flow(options: ChannelFlowOptions) -> Asked
    ensures { result ≡ asked (call.ChannelFlow options) }
{
    let method = ChannelMethod::Flow {
        active: options.active,
    };
    awaiting(Method::Channel(method), Reply::ChannelFlowOk)
}

pub(crate) fn access_request(realm: ShortString, options: AccessRequestOptions) -> Asked
    ensures { result ≡ asked (call.AccessRequest realm options) }
{
    let method = AccessMethod::Request {
        realm,
        exclusive: options.exclusive,
        passive: options.passive,
        active: options.active,
        write: options.write,
        read: options.read,
    };
    awaiting(Method::Access(method), Reply::AccessRequestOk)
}
