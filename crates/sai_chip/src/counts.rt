// How often each mark stands.
ghost use Rattle.std.specs.Prelude.{◌≡◌, ℕ, [], ◌∷◌, ◌+◌, ◌-◌, nat_lt, IfOk, OnOk, OnErr, option_copied, if◌then◌else◌};
ghost use Rattle.std.specs.List.{list_any};
ghost use Rattle.sai_types.specs.declared.ids.Rid.{Rid};
ghost use Rattle.sai_chip.specs.Marks.{key_marks, lane_marks, marks_if, marks_of, router_marks, target_marks};
ghost use Rattle.sai_chip.specs.Tally.{AreMembers, count_at, empty_tally, has_member, is_mark, claims, same_member};
ghost use Rattle.sai_chip.specs.declared.mark.TakenMark.{TakenMark};

use crate::mark::TakenMark;
use crate::marks::{base, router_of};
use crate::membership::{
    GroupMembers, count_member, has_member, lower_member, members_of, raise_member,
};
use crate::tally::{count, lower, raise};
use late_maps::LateMap;
use sai_types::{Body, Kind, Rid, RifOn, To, Weight};
use std::alloc::Global;
use std::collections::BTreeMap;
use std::marker::Model;
use swss_types::{Ip, OutOfMemory, VrfName};

/// A count for each mark, by what it marks; 0 for those that are not there. Identifiers mostly come in their order, and
/// most objects are routes, the greatest kind, so all but the members of groups, which are looked for from the first of
/// a group on, are searched from their greatest keys.
#[derive(Drop)]
pub struct Counts {
    kinds: LateMap<Kind, u64>,
    references: LateMap<Rid, u64>,
    lanes: LateMap<u16, u64>,
    vlans: LateMap<u16, u64>,
    routers: LateMap<VrfName, u64>,
    bridge_ports: LateMap<Rid, u64>,
    vlan_members: LateMap<(Rid, Rid), u64>,
    rifs: LateMap<RifOn<Rid>, u64>,
    next_hops: LateMap<(Rid, Ip), u64>,
    group_members: GroupMembers,
}

impl Model for Counts {
    ghost use Rattle.sai_chip.specs.Tally.{AreMembers, Tally};

    ghost Value = { Tally };

    ghost view = { λ c. record {
      kinds = c.kinds;
      references = c.references;
      lanes = c.lanes;
      vlans = c.vlans;
      routers = c.routers;
      bridge_ports = c.bridge_ports;
      vlan_members = c.vlan_members;
      rifs = c.rifs;
      next_hops = c.next_hops;
      group_members = c.group_members.entries;
    } };

    ghost invariant = { λ c. AreMembers c.group_members.entries };
}

impl Counts {
    /// Each count is 0.
    pub fn new(alloc: Global) -> Counts
        ensures { result ≡ empty_tally }
    {
        Counts {
            kinds: LateMap::new(alloc),
            references: LateMap::new(alloc),
            lanes: LateMap::new(alloc),
            vlans: LateMap::new(alloc),
            routers: LateMap::new(alloc),
            bridge_ports: LateMap::new(alloc),
            vlan_members: LateMap::new(alloc),
            rifs: LateMap::new(alloc),
            next_hops: LateMap::new(alloc),
            group_members: BTreeMap::new(alloc),
        }
    }

    /// How often the mark stands.
    pub fn count(&self, mark: &TakenMark) -> u64
        ensures { result ≡ count_at self.now mark.now }
    {
        match mark {
            TakenMark::Of(kind) => count(&self.kinds, kind),
            TakenMark::RefersTo(id) => count(&self.references, id),
            TakenMark::Lane(lane) => count(&self.lanes, lane),
            TakenMark::Vlan(vlan) => count(&self.vlans, vlan),
            TakenMark::VirtualRouter(label) => count(&self.routers, label),
            TakenMark::BridgePort(port) => count(&self.bridge_ports, port),
            TakenMark::VlanMember(vlan, port) => count(&self.vlan_members, &(*vlan, *port)),
            TakenMark::Rif(on) => count(&self.rifs, on),
            TakenMark::NextHop(rif, ip) => count(&self.next_hops, &(*rif, *ip)),
            TakenMark::GroupMember(group, next_hop, weight) => {
                count_member(&self.group_members, &(*group, *next_hop, *weight))
            }
        }
    }

    /// Counts a mark once more. Want of memory comes too where the count has no next number.
    fn raise(&mut self, mark: TakenMark) -> Result<(), OutOfMemory>
        ensures ok { OnOk result ((m : TakenMark) → count_at self.new m ≡ count_at self.old m + (if is_mark mark m then 1 else 0)) }
        ensures err { OnErr result (self.new ≡ self.old) }
    {
        match mark {
            TakenMark::Of(kind) => raise(&mut self.kinds, kind),
            TakenMark::RefersTo(id) => raise(&mut self.references, id),
            TakenMark::Lane(lane) => raise(&mut self.lanes, lane),
            TakenMark::Vlan(vlan) => raise(&mut self.vlans, vlan),
            TakenMark::VirtualRouter(label) => raise(&mut self.routers, label),
            TakenMark::BridgePort(port) => raise(&mut self.bridge_ports, port),
            TakenMark::VlanMember(vlan, port) => raise(&mut self.vlan_members, (vlan, port)),
            TakenMark::Rif(on) => raise(&mut self.rifs, on),
            TakenMark::NextHop(rif, ip) => raise(&mut self.next_hops, (rif, ip)),
            TakenMark::GroupMember(group, next_hop, weight) => {
                raise_member(&mut self.group_members, (group, next_hop, weight))
            }
        }
    }

    /// Counts a mark once less, where it stands.
    fn lower(&mut self, mark: TakenMark)
        ensures { (m : TakenMark) → count_at self.new m ≡ count_at self.old m - (if is_mark mark m then 1 else 0) }
    {
        match mark {
            TakenMark::Of(kind) => lower(&mut self.kinds, kind),
            TakenMark::RefersTo(id) => lower(&mut self.references, id),
            TakenMark::Lane(lane) => lower(&mut self.lanes, lane),
            TakenMark::Vlan(vlan) => lower(&mut self.vlans, vlan),
            TakenMark::VirtualRouter(label) => lower(&mut self.routers, label),
            TakenMark::BridgePort(port) => lower(&mut self.bridge_ports, port),
            TakenMark::VlanMember(vlan, port) => lower(&mut self.vlan_members, (vlan, port)),
            TakenMark::Rif(on) => lower(&mut self.rifs, on),
            TakenMark::NextHop(rif, ip) => lower(&mut self.next_hops, (rif, ip)),
            TakenMark::GroupMember(group, next_hop, weight) => {
                lower_member(&mut self.group_members, (group, next_hop, weight));
            }
        }
    }

    /// Counts a route's target as referred to once more.
    pub fn refer(&mut self, to: To<Rid>) -> Result<(), OutOfMemory>
        ensures ok { OnOk result ((m : TakenMark) → count_at self.new m ≡ count_at self.old m + claims m (target_marks to)) }
        ensures err { OnErr result (self.new ≡ self.old) }
    {
        match to {
            To::Drop => Ok(()),
            To::Rif(id) | To::NextHop(id) | To::Group(id) => self.raise(TakenMark::RefersTo(id)),
        }
    }

    /// Counts a route's target as referred to once less.
    pub fn release(&mut self, to: To<Rid>)
        ensures { (m : TakenMark) → count_at self.new m ≡ count_at self.old m - claims m (target_marks to) }
    {
        match to {
            To::Drop => {}
            To::Rif(id) | To::NextHop(id) | To::Group(id) => self.lower(TakenMark::RefersTo(id)),
        }
    }

    /// Counts all that a body takes up once more. Want of memory comes too where a count has no next number; the counts
    /// are then what they were.
    pub fn take(&mut self, body: &Body<Rid>) -> Result<(), OutOfMemory>
        ensures ok { OnOk result ((m : TakenMark) → count_at self.new m ≡ count_at self.old m + claims m (marks_of body.now)) }
        ensures err { OnErr result ((m : TakenMark) → count_at self.new m ≡ count_at self.old m) }
    {
        let kind = body.kind();
        self.raise(TakenMark::Of(kind))?;
        if let Err(error) = self.take_within(router_of(body), body) {
            self.lower(TakenMark::Of(kind));
            return Err(error);
        }
        Ok(())
    }

    /// Counts a virtual router, unless it is the default one, and the keys of a body in it once more.
    fn take_within(&mut self, vr: Option<Rid>, body: &Body<Rid>) -> Result<(), OutOfMemory>
        ensures ok { OnOk result ((m : TakenMark) → count_at self.new m ≡ count_at self.old m + claims m (router_marks vr (key_marks body.now))) }
        ensures err { OnErr result ((m : TakenMark) → count_at self.new m ≡ count_at self.old m) }
    {
        let Some(id) = vr else {
            return self.take_keys(body);
        };
        self.raise(TakenMark::RefersTo(id))?;
        if let Err(error) = self.take_keys(body) {
            self.lower(TakenMark::RefersTo(id));
            return Err(error);
        }
        Ok(())
    }

    /// Counts the natural key, the lanes and the references of a body once more, but for its virtual router.
    fn take_keys(&mut self, body: &Body<Rid>) -> Result<(), OutOfMemory>
        ensures ok { OnOk result ((m : TakenMark) → count_at self.new m ≡ count_at self.old m + claims m (key_marks body.now)) }
        ensures err { OnErr result ((m : TakenMark) → count_at self.new m ≡ count_at self.old m) }
    {
        match body {
            Body::Port { lanes, .. } => self.take_lanes(lanes.items()),
            Body::Vlan { vlan } => self.raise(TakenMark::Vlan(*vlan)),
            Body::VirtualRouter { label } => self.raise(TakenMark::VirtualRouter(*label)),
            Body::OwnAddress { .. } | Body::Group => Ok(()),
            Body::BridgePort { port } => self.raise_on(&TakenMark::BridgePort(*port), *port),
            Body::VlanMember {
                vlan,
                bridge_port,
                ..
            } => self.raise_between(
                &TakenMark::VlanMember(*vlan, *bridge_port),
                *vlan,
                *bridge_port,
            ),
            Body::Rif { on, .. } => self.raise_on(&TakenMark::Rif(*on), base(*on)),
            Body::Neighbor { rif, .. } => self.raise(TakenMark::RefersTo(*rif)),
            Body::NextHop { rif, ip } => self.raise_on(&TakenMark::NextHop(*rif, *ip), *rif),
            Body::GroupMember {
                group,
                next_hop,
                weight,
            } => self.raise_between(
                &TakenMark::GroupMember(*group, *next_hop, *weight),
                *group,
                *next_hop,
            ),
            Body::Route { to, .. } => self.refer(*to),
        }
    }

    /// Counts a natural key and a reference once more.
    fn raise_on(&mut self, key: &TakenMark, id: Rid) -> Result<(), OutOfMemory>
        ensures ok { OnOk result ((m : TakenMark) → count_at self.new m ≡ count_at self.old m + claims m (key.now ∷ TakenMark.RefersTo id ∷ [])) }
        ensures err { OnErr result ((m : TakenMark) → count_at self.new m ≡ count_at self.old m) }
    {
        self.raise(*key)?;
        if let Err(error) = self.raise(TakenMark::RefersTo(id)) {
            self.lower(*key);
            return Err(error);
        }
        Ok(())
    }

    /// Counts a natural key and two references once more.
    fn raise_between(&mut self, key: &TakenMark, id: Rid, other: Rid) -> Result<(), OutOfMemory>
        ensures ok { OnOk result ((m : TakenMark) → count_at self.new m ≡ count_at self.old m + claims m (key.now ∷ TakenMark.RefersTo id ∷ TakenMark.RefersTo other ∷ [])) }
        ensures err { OnErr result ((m : TakenMark) → count_at self.new m ≡ count_at self.old m) }
    {
        self.raise_on(key, id)?;
        if let Err(error) = self.raise(TakenMark::RefersTo(other)) {
            self.lower(*key);
            self.lower(TakenMark::RefersTo(id));
            return Err(error);
        }
        Ok(())
    }

    /// Counts each of the lanes once more.
    fn take_lanes(&mut self, lanes: &[u16]) -> Result<(), OutOfMemory>
        ensures ok { OnOk result ((m : TakenMark) → count_at self.new m ≡ count_at self.old m + claims m (lane_marks lanes.now)) }
        ensures err { OnErr result ((m : TakenMark) → count_at self.new m ≡ count_at self.old m) }
    {
        match lanes {
            [] => Ok(()),
            [lane, others @ ..] => {
                self.raise(TakenMark::Lane(*lane))?;
                if let Err(error) = self.take_lanes(others) {
                    self.lower(TakenMark::Lane(*lane));
                    return Err(error);
                }
                Ok(())
            }
        }
    }

    /// Counts each of the marks once less, where it stands.
    pub fn take_away(&mut self, marks: &[TakenMark])
        ensures { (m : TakenMark) → count_at self.new m ≡ count_at self.old m - claims m marks.now }
    {
        for mark in marks {
            self.lower(*mark);
        }
    }

    /// Counts all that a body takes up once less, where it stands; nothing where there is no body.
    pub fn free(&mut self, body: Option<&Body<Rid>>)
        ensures { (m : TakenMark) → count_at self.new m ≡ count_at self.old m - claims m (marks_if (option_copied body.entry)) }
    {
        if let Some(body) = body {
            self.lower(TakenMark::Of(body.kind()));
            self.free_within(router_of(body), body);
        }
    }

    /// Counts a virtual router, unless it is the default one, and the keys of a body in it once less, where they stand.
    fn free_within(&mut self, vr: Option<Rid>, body: &Body<Rid>)
        ensures { (m : TakenMark) → count_at self.new m ≡ count_at self.old m - claims m (router_marks vr (key_marks body.now)) }
    {
        match vr {
            Some(id) => {
                self.lower(TakenMark::RefersTo(id));
                self.free_keys(body);
            }
            None => self.free_keys(body),
        }
    }

    /// Counts the natural key, the lanes and the references of a body once less, where they stand, but for its virtual
    /// router.
    fn free_keys(&mut self, body: &Body<Rid>)
        ensures { (m : TakenMark) → count_at self.new m ≡ count_at self.old m - claims m (key_marks body.now) }
    {
        match body {
            Body::Port { lanes, .. } => self.free_lanes(lanes.items()),
            Body::Vlan { vlan } => self.lower(TakenMark::Vlan(*vlan)),
            Body::VirtualRouter { label } => self.lower(TakenMark::VirtualRouter(*label)),
            Body::OwnAddress { .. } | Body::Group => {}
            Body::BridgePort { port } => self.take_away(&[
                TakenMark::BridgePort(*port),
                TakenMark::RefersTo(*port),
            ]),
            Body::VlanMember {
                vlan,
                bridge_port,
                ..
            } => self.take_away(&[
                TakenMark::VlanMember(*vlan, *bridge_port),
                TakenMark::RefersTo(*vlan),
                TakenMark::RefersTo(*bridge_port),
            ]),
            Body::Rif { on, .. } => {
                self.take_away(&[TakenMark::Rif(*on), TakenMark::RefersTo(base(*on))])
            }
            Body::Neighbor { rif, .. } => self.lower(TakenMark::RefersTo(*rif)),
            Body::NextHop { rif, ip } => self.take_away(&[
                TakenMark::NextHop(*rif, *ip),
                TakenMark::RefersTo(*rif),
            ]),
            Body::GroupMember {
                group,
                next_hop,
                weight,
            } => self.take_away(&[
                TakenMark::GroupMember(*group, *next_hop, *weight),
                TakenMark::RefersTo(*group),
                TakenMark::RefersTo(*next_hop),
            ]),
            Body::Route { to, .. } => self.release(*to),
        }
    }

    /// Counts each of the lanes once less, where it stands.
    fn free_lanes(&mut self, lanes: &[u16])
        ensures { (m : TakenMark) → count_at self.new m ≡ count_at self.old m - claims m (lane_marks lanes.now) }
    {
        for lane in lanes {
            self.lower(TakenMark::Lane(*lane));
        }
    }

    /// Whether the next hop is a member of the group, with whatever weight. The members are counted.
    pub fn has_member(&self, group: Rid, next_hop: Rid) -> bool
        ensures value { result ≡ has_member self.now.group_members group next_hop }
        ensures counted { AreMembers self.now.group_members }
    {
        has_member(&self.group_members, group, next_hop)
    }

    /// The next hops that are members of the group, with their weights.
    pub fn members(&self, alloc: Global, group: Rid) -> Result<Vec<(Rid, Weight)>, OutOfMemory>
        ensures { IfOk result (λ members. (m : Rid × ℕ) → list_any (same_member m) members.items ≡ nat_lt 0 (count_at self.now (TakenMark.GroupMember group m.0 m.1))) }
    {
        members_of(alloc, &self.group_members, group)
    }
}
