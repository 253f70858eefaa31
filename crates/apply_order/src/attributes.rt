// What a plan sets on a paired object.
ghost use Rattle.std.specs.Prelude.{◌≡◌, ◌++◌, map, OnOk};
ghost use Rattle.apply_order.specs.Attributes.{differing, is_any, is_old, is_same_target, set_call, set_calls, where_differs};

use crate::naming::{Names, new_to, old_entry};
use sai_types::{Attr, Body, Call, Entry, Object, PlanCall, PlanCalls, PlanId, Rid, To, Vid};
use swss_types::OutOfMemory;

/// Puts the calls that set what differs.
pub(crate) fn push_sets(
    names: &Names,
    calls: &mut PlanCalls,
    old: &Object<Rid>,
    new: &Object<Vid>,
) -> Result<(), OutOfMemory>
    ensures { OnOk result (calls.new ≡ calls.old ++ set_calls names.now old.now new.now) }
{
    push_differing(names, calls, &old.entry, &old.body, &new.body)
}

fn push_differing(
    names: &Names,
    calls: &mut PlanCalls,
    entry: &Entry<Rid>,
    old: &Body<Rid>,
    new: &Body<Vid>,
) -> Result<(), OutOfMemory>
    ensures { OnOk result (calls.new ≡ calls.old ++ map (set_call entry.now) (differing names.now old.now new.now)) }
{
    match (old, new) {
        (
            Body::Port { speed, mtu, up, .. },
            Body::Port {
                speed: new_speed,
                mtu: new_mtu,
                up: new_up,
                ..
            },
        ) => {
            push_unless(calls, entry, speed == new_speed, Attr::Speed(*new_speed))?;
            push_unless(calls, entry, mtu == new_mtu, Attr::Mtu(*new_mtu))?;
            push_unless(calls, entry, up == new_up, Attr::Up(*new_up))
        }
        (
            Body::VlanMember { tagging, .. },
            Body::VlanMember {
                tagging: new_tagging,
                ..
            },
        ) => push_unless(
            calls,
            entry,
            tagging == new_tagging,
            Attr::Tagging(*new_tagging),
        ),
        (Body::Neighbor { mac, .. }, Body::Neighbor { mac: new_mac, .. }) => {
            push_unless(calls, entry, mac == new_mac, Attr::Mac(*new_mac))
        }
        (Body::Route { to, .. }, Body::Route { to: new, .. }) => {
            let target = new_to(names, *new);
            push_unless(calls, entry, is_target(*to, target), Attr::To(target))
        }
        _ => Ok(()),
    }
}

/// Whether anything differs that a plan sets.
pub(crate) fn differs(names: &Names, old: &Object<Rid>, new: &Object<Vid>) -> bool
    ensures { result ≡ is_any (set_calls names.now old.now new.now) }
{
    match (&old.body, &new.body) {
        (
            Body::Port { speed, mtu, up, .. },
            Body::Port {
                speed: new_speed,
                mtu: new_mtu,
                up: new_up,
                ..
            },
        ) => speed != new_speed || mtu != new_mtu || up != new_up,
        (
            Body::VlanMember { tagging, .. },
            Body::VlanMember {
                tagging: new_tagging,
                ..
            },
        ) => tagging != new_tagging,
        (Body::Neighbor { mac, .. }, Body::Neighbor { mac: new_mac, .. }) => mac != new_mac,
        (Body::Route { to, .. }, Body::Route { to: new, .. }) => {
            !is_target(*to, new_to(names, *new))
        }
        _ => false,
    }
}

/// Puts the call that sets an attribute, unless it is the same.
fn push_unless(
    calls: &mut PlanCalls,
    entry: &Entry<Rid>,
    same: bool,
    attr: Attr<PlanId>,
) -> Result<(), OutOfMemory>
    ensures { OnOk result (calls.new ≡ calls.old ++ map (set_call entry.now) (where_differs same attr)) }
{
    if same {
        return Ok(());
    }
    calls.push(PlanCall {
        call: Call::Set(old_entry(entry), attr),
        makes: None,
    })
}

/// Whether an old target is the one that a plan names.
fn is_target(old: To<Rid>, new: To<PlanId>) -> bool
    ensures { result ≡ is_same_target old new }
{
    match (old, new) {
        (To::Drop, To::Drop) => true,
        (To::Rif(old), To::Rif(new)) => is_old(old, new),
        (To::NextHop(old), To::NextHop(new)) => is_old(old, new),
        (To::Group(old), To::Group(new)) => is_old(old, new),
        _ => false,
    }
}

/// Whether a name is that of this old object.
pub(crate) fn is_old(old: Rid, new: PlanId) -> bool
    ensures { result ≡ is_old old new }
{
    match new {
        PlanId::Old(id) => old.0 == id.0,
        PlanId::New(_) => false,
    }
}
