// What the identifiers of a recording stand for on a chip.
ghost use Rattle.std.specs.Prelude.{◌≡◌, [], ◌++◌, IfOk, OnErr, OnOk, option_map};
ghost use Rattle.std.specs.Option.{option_to_list};
ghost use Rattle.sai_record.specs.Build.{attr_ids, base_ids, body_ids, call_ids, entry_ids, first_unknown, first_why, made_twice, number_at, router_ids, made_as, target_ids, with_number};

use crate::{Recorded, StopWhy};
use chip_layout::NewIds;
use sai_types::{Attr, Body, Call, Entry, Rid, RifOn, To};
use std::alloc::Global;
use std::collections::BTreeMap;
use std::marker::Model;
use swss_types::OutOfMemory;

/// For each identifier of a recording that was made the number of the chip's identifier.
#[derive(Drop)]
pub(crate) struct Numbers {
    numbers: BTreeMap<u64, u64>,
}

impl Model for Numbers {
    ghost use Rattle.sai_record.specs.Build.{Numbers as Known};

    ghost Value = { Known };

    ghost view = { λ n. n.numbers.entries };
}

impl NewIds<Rid, Rid> for Numbers {
    ghost new_id = { made_as };

    fn new_id(&self, id: Rid) -> Rid {
        match self.numbers.get(&id.0) {
            Some(number) => Rid(*number),
            None => Rid(0),
        }
    }
}

impl Numbers {
    /// No identifier was made.
    pub(crate) fn new(alloc: Global) -> Numbers
        ensures { result ≡ [] }
    {
        Numbers {
            numbers: BTreeMap::new(alloc),
        }
    }

    /// Puts what an identifier stands for, where there is one.
    pub(crate) fn put(&mut self, id: Option<Rid>, number: Rid) -> Result<(), OutOfMemory>
        ensures { OnOk result (self.new ≡ with_number self.old id number.0) }
    {
        if let Some(id) = id {
            self.numbers.insert(id.0, number.0)?;
        }
        Ok(())
    }

    /// The first identifier in a call that was not made, or else the one that it is to make, where that was made.
    pub(crate) fn stop(&self, recorded: &Recorded) -> Option<StopWhy>
        ensures { result ≡ first_why (first_unknown self.now (call_ids recorded.now.call)) (made_twice self.now recorded.now.made) }
    {
        let (first, second) = ids_in(&recorded.call);
        if let Some(why) = self.unknown(first) {
            return Some(why);
        }
        if let Some(why) = self.unknown(second) {
            return Some(why);
        }
        self.twice(recorded.made)
    }

    /// An identifier that was not made.
    fn unknown(&self, id: Option<Rid>) -> Option<StopWhy>
        ensures { result ≡ first_unknown self.now (option_to_list id) }
    {
        let id = id?;
        if self.numbers.contains_key(&id.0) {
            return None;
        }
        Some(StopWhy::UnknownId(id.0))
    }

    /// An identifier that was made.
    fn twice(&self, id: Option<Rid>) -> Option<StopWhy>
        ensures { result ≡ made_twice self.now id }
    {
        let id = id?;
        if self.numbers.contains_key(&id.0) {
            return Some(StopWhy::TwiceId(id.0));
        }
        None
    }
}

/// The identifiers that a call names, in the order of its line: two at most.
fn ids_in(call: &Call<Rid>) -> (Option<Rid>, Option<Rid>)
    ensures { option_to_list result.0 ++ option_to_list result.1 ≡ call_ids call.now }
{
    match call {
        Call::Create(body) => body_ids(body),
        Call::Set(entry, attr) => (entry_id(*entry), attr_id(*attr)),
        Call::Remove(entry) => (entry_id(*entry), None),
    }
}

/// The identifiers that a body names.
fn body_ids(body: &Body<Rid>) -> (Option<Rid>, Option<Rid>)
    ensures { option_to_list result.0 ++ option_to_list result.1 ≡ body_ids body.now }
{
    match body {
        Body::Port { .. } | Body::Vlan { .. } | Body::VirtualRouter { .. } | Body::Group => {
            (None, None)
        }
        Body::BridgePort { port } => (Some(*port), None),
        Body::VlanMember {
            vlan,
            bridge_port,
            ..
        } => (Some(*vlan), Some(*bridge_port)),
        Body::Rif { vr, on } => (*vr, Some(base_id(*on))),
        Body::OwnAddress { vr, .. } => (*vr, None),
        Body::Neighbor { rif, .. } | Body::NextHop { rif, .. } => (Some(*rif), None),
        Body::GroupMember {
            group,
            next_hop,
            ..
        } => (Some(*group), Some(*next_hop)),
        Body::Route { vr, to, .. } => (*vr, target_id(*to)),
    }
}

/// What a router interface stands on.
fn base_id(on: RifOn<Rid>) -> Rid
    ensures { option_to_list (Some result) ≡ base_ids on }
{
    match on {
        RifOn::Port(port) => port,
        RifOn::Vlan(vlan) => vlan,
    }
}

/// The object at which a route points.
fn target_id(to: To<Rid>) -> Option<Rid>
    ensures { option_to_list result ≡ target_ids to }
{
    match to {
        To::Drop => None,
        To::Rif(id) | To::NextHop(id) | To::Group(id) => Some(id),
    }
}

/// The identifier that an entry names.
fn entry_id(entry: Entry<Rid>) -> Option<Rid>
    ensures { option_to_list result ≡ entry_ids entry }
{
    match entry {
        Entry::Oid(id) | Entry::Neigh(id, _) => Some(id),
        Entry::Own(vr, _) | Entry::Route(vr, _) => vr,
    }
}

/// The identifier that a new value of an attribute names.
fn attr_id(attr: Attr<Rid>) -> Option<Rid>
    ensures { option_to_list result ≡ attr_ids attr }
{
    match attr {
        Attr::To(to) => target_id(to),
        Attr::Speed(_) | Attr::Mtu(_) | Attr::Up(_) | Attr::Tagging(_) | Attr::Mac(_) => None,
    }
}
