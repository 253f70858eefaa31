// What calls leave.
ghost use Rattle.std.specs.Prelude.{◌≡◌, OnOk, OnErr};
ghost use Rattle.sai_types.specs.After.{after_call, entry_of, has_id, makes_id, with_attr};
ghost use Rattle.sai_types.specs.Made.{entry_named};

use crate::held::Held;
use sai_types::{Attr, Body, Call, Entry, Rid};
use swss_types::OutOfMemory;

/// Makes the effect of a call on the objects; `id` is the identifier of the object that it makes, where that has one.
pub fn make_effect(held: &mut Held, call: &Call<Rid>, id: Rid) -> Result<(), OutOfMemory>
    ensures ok { OnOk result (held.new ≡ after_call id.0 held.old call.now) }
    ensures err { OnErr result (held.new ≡ held.old) }
{
    match call {
        Call::Create(body) => held.put(id, body.copy()?),
        Call::Set(entry, attr) => held.set(entry, attr),
        Call::Remove(entry) => {
            held.remove(entry);
            Ok(())
        }
    }
}

/// Whether a call makes an object with an identifier.
pub fn makes_id(call: &Call<Rid>) -> bool
    ensures { result ≡ makes_id call.now }
{
    match call {
        Call::Create(body) => has_id(body),
        _ => false,
    }
}

/// The entry that a call names, which for a create is that of the new object with this identifier.
pub fn entry_named(id: Rid, call: &Call<Rid>) -> Entry<Rid>
    ensures { result ≡ entry_named id.0 call.now }
{
    match call {
        Call::Create(body) => entry_of(id, body),
        Call::Set(entry, _) | Call::Remove(entry) => *entry,
    }
}

/// Own addresses, neighbours and routes have no identifier.
pub fn has_id(body: &Body<Rid>) -> bool
    ensures { result ≡ has_id body.now }
{
    !matches!(
        body,
        Body::OwnAddress { .. } | Body::Neighbor { .. } | Body::Route { .. }
    )
}

/// The entry of a new object: its key, or this identifier.
pub fn entry_of(id: Rid, body: &Body<Rid>) -> Entry<Rid>
    ensures { result ≡ entry_of id.0 body.now }
{
    match body {
        Body::OwnAddress { vr, ip } => Entry::Own(*vr, *ip),
        Body::Neighbor { rif, ip, .. } => Entry::Neigh(*rif, *ip),
        Body::Route { vr, prefix, .. } => Entry::Route(*vr, *prefix),
        _ => Entry::Oid(id),
    }
}

/// Gives a body a new value of an attribute, where its kind has it.
pub fn set_attr(body: &mut Body<Rid>, attr: &Attr<Rid>)
    ensures { body.new ≡ with_attr body.old attr.now }
{
    match (body, attr) {
        (Body::Port { speed, .. }, Attr::Speed(value)) => *speed = *value,
        (Body::Port { mtu, .. }, Attr::Mtu(value)) => *mtu = *value,
        (Body::Port { up, .. }, Attr::Up(value)) => *up = *value,
        (Body::VlanMember { tagging, .. }, Attr::Tagging(value)) => *tagging = *value,
        (Body::Neighbor { mac, .. }, Attr::Mac(value)) => *mac = *value,
        (Body::Route { to, .. }, Attr::To(value)) => *to = *value,
        _ => {}
    }
}
